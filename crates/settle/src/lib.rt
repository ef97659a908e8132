// What a delivered message does, for the tags whose rule ends in a closing test: each answers the tag of what it sends.
#![tactic(auto, unfolding(rules::specs::Deliver::delivered, rules::specs::Deliver::deliver_report, rules::specs::Deliver::deliver_ghost_ended, rules::specs::Deliver::deliver_dropped, rules::specs::Deliver::without_ghost, rules::specs::Sent::reply_sent))]

ghost use Rattle.std.specs.Prelude.{◌≡◌, ◌≤◌};
ghost use Rattle.rules.specs.Fields.{live};
ghost use Rattle.rules.specs.Messages.{report, ghost_ended, dropped};
ghost use Rattle.rules.specs.Deliver.{without_ghost, delivered};
ghost use Rattle.rules.specs.Sent.{reply_sent};
ghost use Rattle.answers.specs.Answers.{sent_number};

use answers::Tag;
use messages::Route;
use tables::{Finish, Place, SessionTables, Slot};

// 7 report: the column is lowered by the counts; closing test.
pub fn report(t: &mut SessionTables, s: Slot, f: Finish, v: Place, counts: [u8; 8]) -> Option<Tag>
    ensures tables { t.new ≡ delivered t.old s (report f v counts) }
    ensures sent { sent_number result ≡ reply_sent t.old s (report f v counts) }
{
    books::lower_book(t, f, v, counts);
    messages::empty_slot(t, s);
    closing::close(t, f, s)
}

// The ghost g leaves the book of q.
fn remove_ghost(t: &mut SessionTables, q: Finish, g: Finish)
    ensures { t.new ≡ without_ghost t.old q g }
{
    let bit = g.number() - 1;
    let column = 4 + usize::from(bit / 8);
    let old = counts::book_byte(t, q, column);
    counts::put_book_byte(t, q, column, tables::without_mark(old, bit % 8));
}

// 9 ghost-ended: the ghost is removed; closing test.
pub fn ghost_ended(t: &mut SessionTables, s: Slot, q: Finish, g: Finish) -> Option<Tag>
    ensures tables { t.new ≡ delivered t.old s (ghost_ended q g) }
    ensures sent { sent_number result ≡ reply_sent t.old s (ghost_ended q g) }
{
    remove_ghost(t, q, g);
    messages::empty_slot(t, s);
    closing::close(t, q, s)
}

// 11 dropped: the cell is lowered; closing test.
pub fn dropped(t: &mut SessionTables, s: Slot, m: Route, n: u8) -> Option<Tag>
    requires { n ≤ live t.old m.finish m.from m.to }
    ensures tables { t.new ≡ delivered t.old s (dropped m.finish m.task m.from m.to n) }
    ensures sent { sent_number result ≡ reply_sent t.old s (dropped m.finish m.task m.from m.to n) }
{
    let lives = counts::live_at(t, m.finish, m.from, m.to);
    counts::put_live(t, m.finish, m.from, m.to, lives - n);
    messages::empty_slot(t, s);
    closing::close(t, m.finish, s)
}
