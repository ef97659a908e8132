// The end of a task that is no main task: others stay at its place, or it was the last there and the place reports what it received since it last did.
#![tactic(auto)]

ghost use Rattle.std.specs.Prelude.{◌≡◌, true, false, eqb};
ghost use Rattle.rules.specs.Fields.{local_live};
ghost use Rattle.rules.specs.Messages.{slots_full};
ghost use Rattle.rules.specs.End.{end_last, end_other, end_other_wanted};

use fields::TaskStatus;
use tables::{Finish, Place, SessionTables, Slot};

// What the end of another task of finish f at place p wants: it lives there, and the last has no more reported than received.
#[tactic(auto, unfolding(rules::specs::End::end_other_wanted, tables::specs::Walks::every))]
pub fn other_wanted(t: &SessionTables, f: Finish, p: Place) -> bool
    ensures { result ≡ end_other_wanted t.now f p }
{
    let live = counts::local_live(t, f, p);
    1 <= live
        && (live != 1
            || locals::at_most(locals::reported_row(t, f, p), locals::received_row(t, f, p)))
}

// Task k, the last of finish f at place p, ends: the place reports.
#[tactic(auto, unfolding(rules::specs::End::end_last))]
fn end_last(t: &mut SessionTables, k: u8, f: Finish, p: Place, s: Slot)
    ensures { t.new ≡ end_last t.old k f p s }
{
    let received = locals::received_row(t, f, p);
    let counts = locals::less_each(received, locals::reported_row(t, f, p));
    fields::put_status(t, k, TaskStatus::Ended);
    counts::put_local_live(t, f, p, 0);
    locals::put_reported(t, f, p, received);
    messages::put_report(t, s, f.number(), p.number(), counts);
}

// Task k of finish f at place p, no main task, ends: others stay at its place, or it is the last there.
#[tactic(auto, unfolding(rules::specs::End::end_other, rules::specs::End::end_earlier))]
pub fn end_other(t: &mut SessionTables, k: u8, f: Finish, p: Place)
    requires room { eqb (local_live t.old f p) 1 ≡ true → slots_full t.old ≡ false }
    ensures { t.new ≡ end_other t.old k f p }
{
    let live = counts::local_live(t, f, p);
    if live == 1 {
        let s = messages::free_slot(t);
        end_last(t, k, f, p, s);
        return;
    }
    fields::put_status(t, k, TaskStatus::Ended);
    counts::put_local_live(t, f, p, live.saturating_sub(1));
}
