// The step adopt: books with a dead home become ghosts of their parent, and when that is refused.
#![tactic(auto)]

ghost use Rattle.std.specs.Prelude.{◌≡◌, ◌+◌, ◌≤◌, ◌<◌, IfOk};
ghost use Rattle.tables.specs.Bytes.{part, write};
ghost use Rattle.tables.specs.Walks.{change_parts};
ghost use Rattle.rules.specs.Fields.{finishes_made, ghost_byte};
ghost use Rattle.rules.specs.Action.{adopt};
ghost use Rattle.rules.specs.Adopt.{orphan, adopt_book, with_ghosts, adopt_step};
ghost use Rattle.rules.specs.Refusals.{step_answer};
ghost use Rattle.rules.specs.Step.{step_after};
ghost use Rattle.rules.specs.Sent.{sent_by};
ghost use Rattle.answers.specs.Answers.{number_of, Answered};
ghost use Rattle.adopt.specs.Ghosts.{new_ghosts};

use answers::{Answer, Refusal};
use square::Book;
use std::array;
use tables::{Finish, SessionTables, Tables};

// The book at place `at`, of finish g, is an orphan of f: present and not adopted, f its parent and its home dead.
#[tactic(auto, unfolding(rules::specs::Adopt::orphan, tables::specs::Walks::every))]
fn is_orphan(t: &SessionTables, at: usize, f: Finish, g: Finish) -> bool
    requires { at + 144 ≤ 15104 }
    ensures { result ≡ orphan t.now f (part t.now at 144) g }
{
    let b: &Book = tables::part(t, at);
    b[Tables::PRESENT] == 1
        && b[Tables::ADOPTED] == 0
        && b[Tables::PARENT] == f.number()
        && fields::home_dead(t, g.number())
}

// Byte k of the ghosts of f, with each orphan of f marked.
#[tactic(auto, unfolding(rules::specs::Adopt::with_ghosts, rules::specs::Books::book_of))]
fn with_ghosts(t: &SessionTables, f: Finish, k: u8) -> u8
    requires { k < 4 }
    ensures { result ≡ with_ghosts t.now f k (ghost_byte t.now f k) }
{
    let mut marks = counts::book_byte(t, f, 4 + usize::from(k));
    for j in 0..8 {
        let g = Finish::new(8 * k + j + 1);
        if is_orphan(t, Tables::book(g), f, g) {
            marks = tables::with_mark(marks, j);
        }
    }
    marks
}

// The ghosts of f, with each orphan of f marked.
#[tactic(auto, unfolding(crate::specs::Ghosts::new_ghosts))]
fn new_ghosts(t: &SessionTables, f: Finish) -> [u8; 4]
    ensures { result ≡ new_ghosts t.now f }
{
    array::from_fn(|k| with_ghosts(t, f, k as u8))
}

// The book at place `at`, of finish g, becomes adopted where it is an orphan of f.
#[tactic(auto, using(crate::proofs::Orphans::adopted, crate::proofs::Orphans::not_adopted), unfolding(rules::specs::Adopt::adopt_book))]
fn adopt_book(t: &mut SessionTables, at: usize, f: Finish, g: Finish)
    requires { at + 144 ≤ 15104 }
    ensures { t.new ≡ write t.old at (adopt_book t.old f (part t.old at 144) g) }
{
    if is_orphan(t, at, f, g) {
        t[at + Tables::ADOPTED] = 1;
    }
}

// Each orphan of f becomes adopted.
fn adopt_books(t: &mut SessionTables, f: Finish)
    ensures { t.new ≡ change_parts (adopt_book t.old f) 144 1 32 2304 t.old }
{
    let at = Tables::ROW * Tables::FIRST_BOOK;
    walk::write_parts(
        t,
        at,
        Tables::BOOK_BYTES,
        Tables::FINISHES,
        |t, at, j| adopt_book(t, at, f, Finish::new(1 + j as u8)),
    );
}

// Finish f adopts.
#[tactic(auto, unfolding(rules::specs::Adopt::adopt_step, crate::specs::Ghosts::new_ghosts))]
fn adopt(t: &mut SessionTables, f: Finish)
    ensures { t.new ≡ adopt_step t.old f }
{
    let ghosts = new_ghosts(t, f);
    adopt_books(t, f);
    tables::put_part(t, Tables::book(f) + Tables::GHOSTS, &ghosts);
    counts::put_book_byte(t, f, Tables::ADOPT_DUE, 0);
}

// The finish of this number, or why it may not adopt.
#[tactic(auto, unfolding(rules::proofs::Checks::refusal_tests))]
fn check_adopt(t: &SessionTables, f: u8) -> Result<Finish, Refusal>
    requires { finishes_made t.now ≤ 32 }
    ensures answer { number_of result ≡ step_answer t.now (adopt f) }
    ensures named { IfOk result (λ g. g ≡ f) }
{
    let g = fields::made_finish(t, f).ok_or(Refusal::NotThere)?;
    if counts::book_absent(t, g) || counts::book_byte(t, g, Tables::ADOPT_DUE) == 0 {
        return Err(Refusal::NotReady);
    }
    Ok(g)
}

// Finish f adopts, or the adopt is refused and nothing changes.
#[tactic(auto, unfolding(rules::specs::Step::step, rules::specs::Sent::sent_by))]
pub fn adopt_orphans(t: &mut SessionTables, f: u8) -> Answer
    requires { finishes_made t.old ≤ 32 }
    ensures answer { Answered result (step_answer t.old (adopt f)) (sent_by t.old (adopt f)) }
    ensures tables { t.new ≡ step_after t.old (adopt f) }
{
    let g = check_adopt(t, f)?;
    adopt(t, g);
    Ok(None)
}
