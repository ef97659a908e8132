// The step that cancels a dead place's column of a book, then tests whether the book closes.
#![tactic(auto)]

ghost use Rattle.std.specs.Prelude.{◌≡◌, cond, ◌≤◌, IfOk};
ghost use Rattle.rules.specs.Fields.{places, finishes_made};
ghost use Rattle.rules.specs.Action.{cancel};
ghost use Rattle.rules.specs.Books.{book_of, cleared_column};
ghost use Rattle.rules.specs.Messages.{lowest_empty, slots_full};
ghost use Rattle.rules.specs.Closing.{closes, closing_sends};
ghost use Rattle.rules.specs.Cancel.{cancelled};
ghost use Rattle.rules.specs.Refusals.{step_answer};
ghost use Rattle.rules.specs.Step.{step, step_after};
ghost use Rattle.rules.specs.Sent.{sent_by};
ghost use Rattle.answers.specs.Answers.{number_of, sent_number, Answered};

use answers::{Answer, Refusal, Tag};
use tables::{Finish, Place, SessionTables, Slot};

// The book of f would close without its column v.
fn closes_without(t: &SessionTables, f: Finish, v: Place) -> bool
    ensures { result ≡ closes (cleared_column (book_of t.now f) v) }
{
    let b = books::book(t, f);
    square::total_of(b) == square::column_of(b, v) && square::ghosts_of(b) == 0
}

// The closing test after a cancel would send.
fn sends_after(t: &SessionTables, f: Finish, v: Place) -> bool
    ensures { result ≡ closing_sends (cancelled t.now f v) f }
{
    let stranded = fields::home_dead(t, f.number());
    closes_without(t, f, v) && (counts::is_adopted(t, f) || !stranded)
}

// What a cancel of column v of the book of f names, or why it is refused.
#[tactic(auto, unfolding(rules::proofs::Checks::refusal_tests))]
fn check_cancel(t: &SessionTables, f: u8, v: u8) -> Result<(Finish, Place), Refusal>
    requires { (places t.now ≤ 8) × (finishes_made t.now ≤ 32) }
    ensures answer { number_of result ≡ step_answer t.now (cancel f v) }
    ensures named { IfOk result (λ x. (x.0 ≡ f) × (x.1 ≡ v)) }
{
    let (Some(finish), Some(place)) = (fields::made_finish(t, f), fields::session_place(t, v))
    else {
        return Err(Refusal::NotThere);
    };
    if !fields::is_dead(t, v) {
        return Err(Refusal::WrongPlace);
    }
    if counts::book_absent(t, finish)
        || counts::adopt_due(t, finish)
        || books::book_column(t, finish, place) == 0
    {
        return Err(Refusal::NotReady);
    }
    if sends_after(t, finish, place) && messages::slots_full(t) {
        return Err(Refusal::NoRoom);
    }
    Ok((finish, place))
}

// The lowest empty slot, or slot 0 where all are full.
fn slot_or_first(t: &SessionTables) -> Slot
    ensures { result ≡ cond (slots_full t.now) 0 (lowest_empty t.now) }
{
    messages::lowest_empty(t).unwrap_or(Slot::new(0))
}

// A taken cancel; the tag of what it sends.
fn cancel(t: &mut SessionTables, f: Finish, v: Place) -> Option<Tag>
    requires { step_answer t.old (cancel f v) ≡ 0 }
    ensures sent { sent_number result ≡ sent_by t.old (cancel f v) }
    ensures tables { t.new ≡ step t.old (cancel f v) }
{
    let s = slot_or_first(t);
    books::cancel_column(t, f, v);
    closing::close(t, f, s)
}

// Column v of the book of f becomes 0 and the book may close, or the step is refused and nothing changes.
pub fn cancel_column(t: &mut SessionTables, f: u8, v: u8) -> Answer
    requires { (places t.old ≤ 8) × (finishes_made t.old ≤ 32) }
    ensures answer { Answered result (step_answer t.old (cancel f v)) (sent_by t.old (cancel f v)) }
    ensures tables { t.new ≡ step_after t.old (cancel f v) }
{
    let (finish, place) = check_cancel(t, f, v)?;
    Ok(cancel(t, finish, place))
}
