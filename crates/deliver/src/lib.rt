// The step deliver: the message of its slot read, refused or taken: discarded, or let do what its tag says.
#![tactic(auto)]

ghost use Rattle.std.specs.Prelude.{◌≡◌, true, IfOk};
ghost use Rattle.rules.specs.Action.{deliver};
ghost use Rattle.rules.specs.Messages.{message_at};
ghost use Rattle.rules.specs.Sound.{sound};
ghost use Rattle.rules.specs.Refusals.{step_answer};
ghost use Rattle.rules.specs.Step.{step, step_after};
ghost use Rattle.rules.specs.Sent.{sent_by};
ghost use Rattle.answers.specs.Answers.{number_of, sent_number, Answered};
ghost use Rattle.tags.specs.Said.{said};

use answers::{Answer, Refusal, Tag};
use tables::{SessionTables, Slot};
use tags::Message;

// The slot of this number and its message, or why that is not delivered.
#[tactic(auto, unfolding(rules::proofs::Checks::refusal_tests, wanted::specs::Says::deliver_says))]
fn check_deliver(t: &SessionTables, s: u8) -> Result<(Slot, Message), Refusal>
    requires { sound t.now ≡ true }
    ensures answer { number_of result ≡ step_answer t.now (deliver s) }
    ensures named { IfOk result (λ x. (x.0 ≡ s) × (said x.1 ≡ message_at t.now s)) }
{
    let Ok(slot) = Slot::try_from(s) else {
        return Err(Refusal::NotThere);
    };
    let Some(m) = tags::read(t, slot) else {
        return Err(Refusal::NotReady);
    };
    tags::says(t, &m)?;
    Ok((slot, m))
}

// A taken deliver of message m of slot s; the tag of what it sends.
fn deliver(t: &mut SessionTables, s: Slot, m: Message) -> Option<Tag>
    requires ranges { sound t.old ≡ true }
    requires message { said m ≡ message_at t.old s }
    requires taken { step_answer t.old (deliver s) ≡ 0 }
    ensures tables { t.new ≡ step t.old (deliver s) }
    ensures sent { sent_number result ≡ sent_by t.old (deliver s) }
{
    if tags::is_discarded(t, &m) {
        messages::empty_slot(t, s);
        return None;
    }
    tags::deliver(t, s, m)
}

// Delivers the message of slot s, or is refused and nothing changes.
#[tactic(auto, using(answers::proofs::Joins::refused_ne0, rules::proofs::Joins::unchanged, rules::proofs::Joins::changed))]
pub fn deliver_message(t: &mut SessionTables, s: u8) -> Answer
    requires { sound t.old ≡ true }
    ensures answer { Answered result (step_answer t.old (deliver s)) (sent_by t.old (deliver s)) }
    ensures tables { t.new ≡ step_after t.old (deliver s) }
{
    let (slot, m) = check_deliver(t, s)?;
    Ok(deliver(t, slot, m))
}
