// The step kill: all rows of each table walked over with what the loss of a place does to one, and when it is refused.
#![tactic(auto)]

ghost use Rattle.std.specs.Prelude.{◌≡◌, ◌≤◌, IfOk};
ghost use Rattle.tables.specs.Walks.{change_parts};
ghost use Rattle.rules.specs.Fields.{places};
ghost use Rattle.rules.specs.Action.{kill};
ghost use Rattle.rules.specs.Kill.{kill_task, kill_finish, kill_book, kill_local, kill_slot, kill_step};
ghost use Rattle.rules.specs.Refusals.{step_answer};
ghost use Rattle.rules.specs.Step.{step_after};
ghost use Rattle.rules.specs.Sent.{sent_by};
ghost use Rattle.answers.specs.Answers.{number_of, Answered};

use answers::{Answer, Refusal};
use tables::{Place, SessionTables, Tables};

// The rows of n tasks.
fn kill_tasks(t: &mut SessionTables, p: u8, n: u8)
    ensures { t.new ≡ change_parts (kill_task p) 8 1 n 8 t.old }
{
    let at = Tables::ROW * Tables::FIRST_TASK;
    walk::lend_parts(t, at, Tables::ROW, usize::from(n), |part, _| {
        if let Some(row) = part.as_mut_array() {
            loss::kill_task(row, p);
        }
    });
}

// The rows of n finishes.
fn kill_finishes(t: &mut SessionTables, p: u8, n: u8)
    ensures { t.new ≡ change_parts (kill_finish p) 8 1 n 2048 t.old }
{
    let at = Tables::ROW * Tables::FIRST_FINISH;
    walk::lend_parts(t, at, Tables::ROW, usize::from(n), |part, _| {
        if let Some(row) = part.as_mut_array() {
            loss::kill_finish(row, p);
        }
    });
}

// The store books.
fn kill_books(t: &mut SessionTables, p: Place)
    ensures { t.new ≡ change_parts (kill_book p) 144 1 32 2304 t.old }
{
    let at = Tables::ROW * Tables::FIRST_BOOK;
    walk::lend_parts(t, at, Tables::BOOK_BYTES, Tables::FINISHES, |part, _| {
        if let Some(b) = part.as_mut_array() {
            loss::kill_book(b, p);
        }
    });
}

// The local books of all finishes at all places.
fn kill_locals(t: &mut SessionTables, p: usize)
    ensures { t.new ≡ change_parts (kill_local p) 24 0 256 6912 t.old }
{
    let at = Tables::ROW * Tables::FIRST_LOCAL;
    let books = Tables::FINISHES * Tables::PLACES;
    walk::lend_parts(t, at, Tables::ROW * Tables::LOCAL_ROWS, books, |part, y| {
        if let Some(b) = part.as_mut_array() {
            loss::kill_local(b, y, p);
        }
    });
}

// The slots.
fn kill_slots(t: &mut SessionTables, p: Place)
    ensures { t.new ≡ change_parts (kill_slot t.old p) 16 0 128 13056 t.old }
{
    let at = Tables::ROW * Tables::FIRST_SLOT;
    walk::write_parts(
        t,
        at,
        Tables::ROW * Tables::SLOT_ROWS,
        Tables::SLOTS,
        |t, at, _| loss::kill_slot_at(t, at, p),
    );
}

// The place is lost.
#[tactic(auto, using(loss::proofs::Goes::mark_aside), unfolding(rules::specs::Kill::kill_step))]
fn kill(t: &mut SessionTables, p: Place)
    ensures { t.new ≡ kill_step t.old p }
{
    let tasks = t[Tables::TASKS_MADE];
    let finishes = t[Tables::FINISHES_MADE];
    t[Tables::DEAD_MASK] = tables::with_mark(t[Tables::DEAD_MASK], p.number());
    kill_slots(t, p);
    kill_locals(t, p.index());
    kill_books(t, p);
    kill_finishes(t, p.number(), finishes);
    kill_tasks(t, p.number(), tasks);
}

// The place of this number, or why it may not be killed: place 0 and a dead place are not.
#[tactic(auto, unfolding(rules::proofs::Checks::refusal_tests))]
fn check_kill(t: &SessionTables, p: u8) -> Result<Place, Refusal>
    requires { places t.now ≤ 8 }
    ensures answer { number_of result ≡ step_answer t.now (kill p) }
    ensures named { IfOk result (λ q. q ≡ p) }
{
    let q = fields::session_place(t, p).ok_or(Refusal::NotThere)?;
    if p == 0 || fields::is_dead(t, p) {
        return Err(Refusal::WrongPlace);
    }
    Ok(q)
}

// Place p is lost, or the kill is refused and nothing changes.
#[tactic(auto, unfolding(rules::specs::Step::step, rules::specs::Sent::sent_by))]
pub fn kill_place(t: &mut SessionTables, p: u8) -> Answer
    requires { places t.old ≤ 8 }
    ensures answer { Answered result (step_answer t.old (kill p)) (sent_by t.old (kill p)) }
    ensures tables { t.new ≡ step_after t.old (kill p) }
{
    let q = check_kill(t, p)?;
    kill(t, q);
    Ok(None)
}
