// The step spawn: a task blocks, and the task that it makes is on its way to another place.
#![tactic(auto)]

ghost use Rattle.std.specs.Prelude.{◌≡◌, ◌<◌};
ghost use Rattle.rules.specs.Action.{spawn};
ghost use Rattle.rules.specs.Fields.{tasks_made};
ghost use Rattle.rules.specs.Messages.{lowest_empty};
ghost use Rattle.rules.specs.Spawn.{with_sent, first_spawn, later_spawn, is_first, spawn_wanted};
ghost use Rattle.rules.specs.Refusals.{step_answer};
ghost use Rattle.rules.specs.Step.{step, step_after};
ghost use Rattle.rules.specs.Sent.{sent_by};
ghost use Rattle.answers.specs.Answers.{number_of, sent_number, Answered};
ghost use Rattle.fields.specs.Numbers.{task_number};

use answers::{Answer, Refusal, Tag};
use fields::{FinishField, FinishStatus, TaskField, TaskStatus};
use messages::Fields;
use tables::{SessionTables, Slot, Tables};

// A main task that spawns has an active finish.
#[tactic(auto, unfolding(rules::specs::Spawn::spawn_wanted))]
fn is_wanted(t: &SessionTables, k: u8) -> bool
    ensures { result ≡ spawn_wanted t.now k }
{
    !fields::is_main(t, k)
        || fields::finish_has(
            t,
            fields::task_byte(t, k, TaskField::Finish),
            FinishStatus::Active,
        )
}

// Why task k may not spawn to place p.
#[tactic(auto, unfolding(rules::proofs::Checks::refusal_tests))]
fn check_spawn(t: &SessionTables, k: u8, p: u8) -> Result<(), Refusal>
    ensures { number_of result ≡ step_answer t.now (spawn k p) }
{
    if !fields::task_made(t, k) || !fields::in_session(t, p) {
        return Err(Refusal::NotThere);
    }
    if fields::task_byte(t, k, TaskField::At) == p {
        return Err(Refusal::WrongPlace);
    }
    if !fields::has_status(t, k, TaskStatus::Running) {
        return Err(Refusal::NotReady);
    }
    if usize::from(t[Tables::TASKS_MADE]) >= Tables::TASKS || messages::slots_full(t) {
        return Err(Refusal::NoRoom);
    }
    if !is_wanted(t, k) {
        return Err(Refusal::Unwanted);
    }
    Ok(())
}

// Task k blocks; task n, of finish f, is from place v to p.
#[tactic(auto, unfolding(rules::specs::Spawn::with_sent))]
fn with_sent(t: &mut SessionTables, k: u8, n: u8, v: u8, p: u8, f: u8, status: TaskStatus)
    ensures { t.new ≡ with_sent t.old k n v p f (task_number status) }
{
    fields::put_status(t, k, TaskStatus::Blocked);
    fields::put_tasks_made(t, n);
    tables::put_part(t, Tables::task(n), &[v, p, f, status.into(), 1, k, 0, 0]);
}

// Task k is a main task and its finish is unpublished.
#[tactic(auto, unfolding(rules::specs::Spawn::is_first, tables::specs::Walks::every))]
fn is_first(t: &SessionTables, k: u8) -> bool
    ensures { result ≡ is_first t.now k }
{
    fields::is_main(t, k)
        && fields::finish_byte(
            t,
            fields::task_byte(t, k, TaskField::Finish),
            FinishField::Published,
        ) == 0
}

// Makes and sends the task, the message in slot s; answers the message's tag. The first spawn of a finish publishes it, any other asks for
// its transit.
#[tactic(auto, unfolding(rules::specs::Step::step, rules::specs::Spawn::spawn_step, rules::specs::Spawn::first_spawn, rules::specs::Spawn::later_spawn, rules::specs::Messages::send, rules::specs::Messages::bytes_of, rules::specs::Sent::sent_by))]
fn send_task(t: &mut SessionTables, k: u8, p: u8, s: Slot) -> Tag
    requires room { tasks_made t.old < 255 }
    requires lowest { lowest_empty t.old ≡ s }
    ensures sent { sent_number (Some result) ≡ sent_by t.old (spawn k p) }
    ensures tables { t.new ≡ step t.old (spawn k p) }
{
    let v = fields::task_byte(t, k, TaskField::At);
    let f = fields::task_byte(t, k, TaskField::Finish);
    let n = t[Tables::TASKS_MADE] + 1;
    if is_first(t, k) {
        with_sent(t, k, n, v, p, f, TaskStatus::WaitsForPublish);
        fields::put_finish_status(t, f, FinishStatus::Publishing);
        messages::put(
            t,
            s,
            Tag::Publish,
            Fields {
                finish: f,
                task: n,
                ..Fields::default()
            },
        );
        return Tag::Publish;
    }
    with_sent(t, k, n, v, p, f, TaskStatus::WaitsForTransit);
    messages::put(
        t,
        s,
        Tag::Transit,
        Fields {
            finish: f,
            task: n,
            from: v,
            to: p,
            number: 0,
        },
    );
    Tag::Transit
}

// Task k spawns a task to place p, or is refused and nothing changes.
pub fn spawn_task(t: &mut SessionTables, k: u8, p: u8) -> Answer
    ensures answer { Answered result (step_answer t.old (spawn k p)) (sent_by t.old (spawn k p)) }
    ensures tables { t.new ≡ step_after t.old (spawn k p) }
{
    check_spawn(t, k, p)?;
    let s = messages::free_slot(t);
    Ok(Some(send_task(t, k, p, s)))
}
