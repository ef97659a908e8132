// The two steps that send nothing and make new rows: begin, and a task that opens a finish.
#![tactic(auto)]

ghost use Rattle.std.specs.Prelude.{◌≡◌, ◌<◌};
ghost use Rattle.rules.specs.Action.{open_finish, begin};
ghost use Rattle.rules.specs.Fields.{tasks_made, finishes_made};
ghost use Rattle.rules.specs.Begin.{begin_step};
ghost use Rattle.rules.specs.Refusals.{step_answer};
ghost use Rattle.rules.specs.Step.{step, step_after};
ghost use Rattle.rules.specs.Sent.{sent_by};
ghost use Rattle.answers.specs.Answers.{number_of, Answered};

use answers::{Answer, Refusal};
use fields::{FinishStatus, TaskField, TaskStatus};
use tables::{Finish, SessionTables, Tables};

// Clears all; task 1 runs at place 0, the main task of finish 1, in a session of n places.
#[tactic(auto, unfolding(rules::specs::Begin::zero_tables, rules::specs::Begin::begin_step))]
fn begin_rows(t: &mut SessionTables, n: u8)
    ensures { t.new ≡ begin_step n }
{
    *t = [0; Tables::BYTES];
    tables::put_part(t, 0, &[n, 0, 1, 1, 0, 0, 0, 0]);
    tables::put_part(
        t,
        Tables::ROW * Tables::FIRST_TASK,
        &[0, 0, 1, TaskStatus::Running.into(), 0, 0, 0, 0],
    );
    tables::put_part(
        t,
        Tables::ROW * Tables::FIRST_FINISH,
        &[0, 0, 0, FinishStatus::Active.into(), 0, 1, 0, 0],
    );
}

// Begins a session of n places, or refuses and changes nothing.
#[tactic(auto, unfolding(rules::specs::Sent::sent_by, rules::specs::Step::step, rules::specs::Step::step_after, rules::proofs::Checks::refusal_tests))]
pub fn begin_session(t: &mut SessionTables, n: u32) -> Answer
    ensures answer { Answered result (step_answer t.old (begin n)) (sent_by t.old (begin n)) }
    ensures tables { t.new ≡ step_after t.old (begin n) }
{
    if n < 2 || 8 < n {
        return Err(Refusal::NotThere);
    }
    begin_rows(t, n as u8);
    Ok(None)
}

// Why task k may not open a finish.
#[tactic(auto, unfolding(rules::proofs::Checks::refusal_tests))]
fn check_open(t: &SessionTables, k: u8) -> Result<(), Refusal>
    ensures { number_of result ≡ step_answer t.now (open_finish k) }
{
    if !fields::task_made(t, k) {
        return Err(Refusal::NotThere);
    }
    if !fields::has_status(t, k, TaskStatus::Running) {
        return Err(Refusal::NotReady);
    }
    if usize::from(t[Tables::TASKS_MADE]) >= Tables::TASKS
        || t[Tables::FINISHES_MADE] >= Finish::COUNT
    {
        return Err(Refusal::NoRoom);
    }
    Ok(())
}

// Task k blocks; the next finish is active and homed at its place, and the next task runs as its main task.
#[tactic(auto, unfolding(rules::specs::Step::step, rules::specs::Open::open_step, rules::specs::Open::opened))]
fn open_rows(t: &mut SessionTables, k: u8)
    requires tasks { tasks_made t.old < 255 }
    requires finishes { finishes_made t.old < 32 }
    ensures { t.new ≡ step t.old (open_finish k) }
{
    let p = fields::task_byte(t, k, TaskField::At);
    let q = fields::task_byte(t, k, TaskField::Finish);
    let n = t[Tables::TASKS_MADE] + 1;
    let g = Finish::new(t[Tables::FINISHES_MADE] + 1);
    fields::put_status(t, k, TaskStatus::Blocked);
    fields::put_tasks_made(t, n);
    fields::put_finishes_made(t, g.number());
    tables::put_part(
        t,
        Tables::task(n),
        &[p, p, g.number(), TaskStatus::Running.into(), 0, k, 0, 0],
    );
    tables::put_part(
        t,
        Tables::finish(g.number()),
        &[p, k, q, FinishStatus::Active.into(), 0, n, 0, 0],
    );
}

// Task k opens a finish, or is refused and nothing changes.
#[tactic(auto, using(answers::proofs::Joins::refused_ne0, rules::proofs::Joins::unchanged, rules::proofs::Joins::changed, crate::proofs::Laws::open_room), unfolding(rules::specs::Sent::sent_by))]
pub fn open_finish(t: &mut SessionTables, k: u8) -> Answer
    ensures answer { Answered result (step_answer t.old (open_finish k)) (sent_by t.old (open_finish k)) }
    ensures tables { t.new ≡ step_after t.old (open_finish k) }
{
    check_open(t, k)?;
    open_rows(t, k);
    Ok(None)
}
