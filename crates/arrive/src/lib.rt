// What a delivered message does that arrives at a place, tags 6, 8 and 10: a task, a release, count-dropped. Each answers the tag of its reply.
#![tactic(auto)]

ghost use Rattle.std.specs.Prelude.{◌≡◌, false, ◌≤◌};
ghost use Rattle.tables.specs.Bits.{marked};
ghost use Rattle.rules.specs.Fields.{received, local_live, deny_mask};
ghost use Rattle.rules.specs.Messages.{task, release, count_dropped};
ghost use Rattle.rules.specs.Deliver.{arrived, delivered};
ghost use Rattle.rules.specs.Sent.{reply_sent};
ghost use Rattle.answers.specs.Answers.{sent_number};

use answers::Tag;
use fields::{FinishField, FinishStatus, TaskStatus};
use messages::Route;
use tables::{Finish, SessionTables, Slot};

// The task of m arrives where it goes and runs.
#[tactic(auto, unfolding(rules::specs::Deliver::arrived))]
fn arrive(t: &mut SessionTables, m: Route)
    requires { (received t.old m.finish m.to m.from ≤ 254) × (local_live t.old m.finish m.to ≤ 254) }
    ensures { t.new ≡ arrived t.old m.finish m.task m.from m.to }
{
    let got = counts::received_at(t, m.finish, m.to, m.from);
    let here = counts::local_live(t, m.finish, m.to);
    counts::put_received(t, m.finish, m.to, m.from, got + 1);
    counts::put_local_live(t, m.finish, m.to, here + 1);
    fields::put_status(t, m.task, TaskStatus::Running);
}

// 6 task: it arrives and runs; from a denied sender, nothing.
#[tactic(auto, unfolding(rules::specs::Deliver::delivered, rules::specs::Deliver::deliver_task, rules::specs::Sent::reply_sent))]
pub fn task(t: &mut SessionTables, s: Slot, m: Route) -> Option<Tag>
    requires fits_byte { marked (deny_mask t.old m.finish m.to) m.from ≡ false → (received t.old m.finish m.to m.from ≤ 254) × (local_live t.old m.finish m.to ≤ 254) }
    ensures tables { t.new ≡ delivered t.old s (task m.finish m.task m.from m.to) }
    ensures sent { sent_number result ≡ reply_sent t.old s (task m.finish m.task m.from m.to) }
{
    if !counts::is_denied(t, m.finish, m.to, m.from) {
        arrive(t, m);
    }
    messages::empty_slot(t, s);
    None
}

// 8 release: the finish is released, its opener runs.
#[tactic(auto, unfolding(rules::specs::Deliver::delivered, rules::specs::Deliver::deliver_release, rules::specs::Sent::reply_sent))]
pub fn release(t: &mut SessionTables, s: Slot, f: Finish) -> Option<Tag>
    ensures tables { t.new ≡ delivered t.old s (release f) }
    ensures sent { sent_number result ≡ reply_sent t.old s (release f) }
{
    let opener = fields::finish_byte(t, f.number(), FinishField::Opener);
    messages::empty_slot(t, s);
    fields::put_finish_status(t, f.number(), FinishStatus::Released);
    fields::wake(t, opener);
    None
}

// 10 count-dropped: the sender is denied; answers 11 with what was sent and not received.
#[tactic(auto, unfolding(rules::specs::Deliver::delivered, rules::specs::Deliver::deliver_count_dropped, rules::specs::Sent::reply_sent, rules::specs::Messages::send, rules::specs::Messages::bytes_of))]
pub fn count_dropped(t: &mut SessionTables, s: Slot, m: Route, n: u8) -> Option<Tag>
    requires covered { received t.old m.finish m.to m.from ≤ n }
    ensures tables { t.new ≡ delivered t.old s (count_dropped m.finish m.task m.from m.to n) }
    ensures sent { sent_number result ≡ reply_sent t.old s (count_dropped m.finish m.task m.from m.to n) }
{
    let got = counts::received_at(t, m.finish, m.to, m.from);
    let denied = counts::deny_mask(t, m.finish, m.to);
    counts::put_deny_mask(
        t,
        m.finish,
        m.to,
        tables::with_mark(denied, m.from.number()),
    );
    messages::put(t, s, Tag::Dropped, m.fields(n - got));
    Some(Tag::Dropped)
}
