// The step end: of a main task, whose finish is released or waits for release, and of another task, as `reporting` has it.
#![tactic(auto)]

ghost use Rattle.std.specs.Prelude.{◌≡◌, true, false, eqb, not};
ghost use Rattle.rules.specs.Action.{end};
ghost use Rattle.rules.specs.Fields.{task_finish, task_at, is_published};
ghost use Rattle.rules.specs.Messages.{slots_full};
ghost use Rattle.rules.specs.End.{end_unpublished, end_published, end_main, end_sends, end_main_wanted, end_wanted};
ghost use Rattle.rules.specs.Refusals.{step_answer};
ghost use Rattle.rules.specs.Step.{step, step_after};
ghost use Rattle.rules.specs.Sent.{sent_by};
ghost use Rattle.answers.specs.Answers.{number_of, sent_number, Answered};
ghost use Rattle.ending.specs.Inside.{HasBook, EndsInside};

use answers::{Answer, Refusal, Tag};
use fields::{FinishField, FinishStatus, TaskField, TaskStatus};
use tables::{Finish, Place, SessionTables, Slot};

// The finish and the place of task k, in the ranges of the table kind.
fn local_book(t: &SessionTables, k: u8) -> (Finish, Place)
    requires { HasBook t.now k }
    ensures finish { result.0 ≡ task_finish t.now k }
    ensures place { result.1 ≡ task_at t.now k }
{
    (
        Finish::new(fields::task_byte(t, k, TaskField::Finish)),
        Place::new(fields::task_byte(t, k, TaskField::At)),
    )
}

// Finish f is published.
fn is_published(t: &SessionTables, f: u8) -> bool
    ensures { result ≡ not (eqb (is_published t.now f) 0) }
{
    fields::finish_byte(t, f, FinishField::Published) != 0
}

// The end of task k sends a message.
#[tactic(auto, unfolding(rules::specs::End::end_sends))]
fn end_sends(t: &SessionTables, k: u8) -> bool
    requires { HasBook t.now k }
    ensures { result ≡ end_sends t.now k }
{
    if fields::is_main(t, k) {
        return is_published(t, fields::task_byte(t, k, TaskField::Finish));
    }
    let (f, p) = local_book(t, k);
    counts::local_live(t, f, p) == 1
}

// What the end of a main task of finish f wants: f active, and where it is unpublished an opener that may run.
#[tactic(auto, unfolding(rules::specs::End::end_main_wanted, tables::specs::Walks::every))]
fn main_wanted(t: &SessionTables, f: u8) -> bool
    ensures { result ≡ end_main_wanted t.now f }
{
    fields::finish_has(t, f, FinishStatus::Active)
        && (is_published(t, f)
            || fields::may_run(t, fields::finish_byte(t, f, FinishField::Opener)))
}

// What the end of task k wants.
#[tactic(auto, unfolding(rules::specs::End::end_wanted))]
fn is_wanted(t: &SessionTables, k: u8) -> bool
    requires { HasBook t.now k }
    ensures { result ≡ end_wanted t.now k }
{
    if fields::is_main(t, k) {
        return main_wanted(t, fields::task_byte(t, k, TaskField::Finish));
    }
    let (f, p) = local_book(t, k);
    reporting::other_wanted(t, f, p)
}

// Why task k may not end.
#[tactic(auto, unfolding(rules::proofs::Checks::refusal_tests))]
fn check_end(t: &SessionTables, k: u8) -> Result<(), Refusal>
    requires { EndsInside t.now k }
    ensures { number_of result ≡ step_answer t.now (end k) }
{
    if !fields::task_made(t, k) {
        return Err(Refusal::NotThere);
    }
    if !fields::has_status(t, k, TaskStatus::Running) {
        return Err(Refusal::NotReady);
    }
    if end_sends(t, k) && messages::slots_full(t) {
        return Err(Refusal::NoRoom);
    }
    if !is_wanted(t, k) {
        return Err(Refusal::Unwanted);
    }
    Ok(())
}

// The unpublished finish f of main task k is released, and its opener runs.
#[tactic(auto, unfolding(rules::specs::End::end_unpublished))]
fn end_unpublished(t: &mut SessionTables, k: u8, f: u8)
    ensures { t.new ≡ end_unpublished t.old k f }
{
    let o = fields::finish_byte(t, f, FinishField::Opener);
    fields::put_status(t, k, TaskStatus::Ended);
    fields::put_finish_status(t, f, FinishStatus::Released);
    fields::wake(t, o);
}

// The published finish f of main task k waits for release, and its home h reports.
#[tactic(auto, unfolding(rules::specs::End::end_published))]
fn end_published(t: &mut SessionTables, k: u8, f: u8, h: u8, s: Slot)
    ensures { t.new ≡ end_published t.old k f h s }
{
    fields::put_status(t, k, TaskStatus::Ended);
    fields::put_finish_status(t, f, FinishStatus::WaitsForRelease);
    messages::put_report(t, s, f, h, locals::one_at(h));
}

// Main task k of finish f ends.
#[tactic(auto, unfolding(rules::specs::End::end_main))]
fn end_main(t: &mut SessionTables, k: u8, f: u8)
    requires room { eqb (is_published t.old f) 0 ≡ false → slots_full t.old ≡ false }
    ensures { t.new ≡ end_main t.old k f }
{
    if !is_published(t, f) {
        end_unpublished(t, k, f);
        return;
    }
    let h = fields::finish_byte(t, f, FinishField::Home);
    let s = messages::free_slot(t);
    end_published(t, k, f, h, s);
}

// Task k ends, a main task or another.
#[tactic(auto, using(crate::proofs::Laws::end_made, crate::proofs::Laws::main_room, crate::proofs::Laws::other_room), unfolding(rules::specs::Step::step, rules::specs::End::end_step))]
fn end_rows(t: &mut SessionTables, k: u8)
    requires ends_inside { EndsInside t.old k }
    requires taken { step_answer t.old (end k) ≡ 0 }
    ensures { t.new ≡ step t.old (end k) }
{
    if fields::is_main(t, k) {
        end_main(t, k, fields::task_byte(t, k, TaskField::Finish));
        return;
    }
    let (f, p) = local_book(t, k);
    reporting::end_other(t, k, f, p);
}

// The tag of the message that the end of task k sends.
#[tactic(auto, unfolding(rules::specs::Sent::sent_by))]
fn sent_tag(t: &SessionTables, k: u8) -> Option<Tag>
    requires { HasBook t.now k }
    ensures { sent_number result ≡ sent_by t.now (end k) }
{
    end_sends(t, k).then_some(Tag::Report)
}

// Task k ends, or is refused and nothing changes.
#[tactic(auto, using(answers::proofs::Joins::refused_ne0, rules::proofs::Joins::unchanged, rules::proofs::Joins::changed, crate::proofs::Laws::end_made))]
pub fn end_task(t: &mut SessionTables, k: u8) -> Answer
    requires { EndsInside t.old k }
    ensures answer { Answered result (step_answer t.old (end k)) (sent_by t.old (end k)) }
    ensures tables { t.new ≡ step_after t.old (end k) }
{
    check_end(t, k)?;
    let sent = sent_tag(t, k);
    end_rows(t, k);
    Ok(sent)
}
