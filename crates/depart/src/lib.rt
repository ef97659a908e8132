// What a delivered message does, tags 1 to 5: a task asks the store, and is let go to its place or dropped. Each answers the tag of its reply.
#![tactic(auto, unfolding(rules::specs::Deliver::delivered, rules::specs::Deliver::deliver_publish, rules::specs::Deliver::deliver_published, rules::specs::Deliver::deliver_transit, rules::specs::Deliver::deliver_granted, rules::specs::Deliver::deliver_denied, rules::specs::Deliver::counted, rules::specs::Sent::reply_sent, rules::specs::Messages::send, rules::specs::Messages::bytes_of))]

ghost use Rattle.std.specs.Prelude.{◌≡◌, false, cond, ◌≤◌, ◌<◌};
ghost use Rattle.rules.specs.Fields.{dead, home, finishes_made, live, sent_count, active, with_finish_status, with_published};
ghost use Rattle.rules.specs.Messages.{none, publish, published, transit, granted, denied, task, send};
ghost use Rattle.rules.specs.Deliver.{counted, delivered};
ghost use Rattle.rules.specs.Sent.{reply_sent};
ghost use Rattle.answers.specs.Answers.{sent_number};
ghost use Rattle.books.specs.Parents.{ParentsFall};

use answers::Tag;
use fields::{FinishField, FinishStatus, TaskField, TaskStatus};
use messages::{Fields, Route};
use tables::{Finish, Place, SessionTables, Slot};

// 1 publish: a new book, whose parent is the nearest ancestor with a book.
pub fn publish(t: &mut SessionTables, s: Slot, f: Finish, k: u8) -> Option<Tag>
    requires parents_fall { ParentsFall t.old }
    requires made { f ≤ finishes_made t.old }
    requires home { home t.old f < 8 }
    ensures tables { t.new ≡ delivered t.old s (publish f k) }
    ensures sent { sent_number result ≡ reply_sent t.old s (publish f k) }
{
    let finish = f.number();
    let home = Place::new(fields::finish_byte(t, finish, FinishField::Home));
    let parent = books::nearest_book(t, fields::finish_byte(t, finish, FinishField::Parent));
    books::new_book(t, f, home, parent);
    messages::put(
        t,
        s,
        Tag::Published,
        Fields {
            finish,
            task: k,
            ..Fields::default()
        },
    );
    Some(Tag::Published)
}

// 2 published: the finish is active and published, its task asks for transit.
pub fn published(t: &mut SessionTables, s: Slot, f: Finish, k: u8) -> Option<Tag>
    ensures tables { t.new ≡ delivered t.old s (published f k) }
    ensures sent { sent_number result ≡ reply_sent t.old s (published f k) }
{
    let finish = f.number();
    let from = fields::task_byte(t, k, TaskField::From);
    let to = fields::task_byte(t, k, TaskField::At);
    fields::put_finish_status(t, finish, FinishStatus::Active);
    fields::put_published(t, finish);
    fields::put_status(t, k, TaskStatus::WaitsForTransit);
    messages::put(
        t,
        s,
        Tag::Transit,
        Fields {
            finish,
            task: k,
            from,
            to,
            number: 0,
        },
    );
    Some(Tag::Transit)
}

// One more task of f from v at j, live and sent.
fn count(t: &mut SessionTables, f: Finish, v: Place, j: Place)
    requires { (live t.old f v j ≤ 254) × (sent_count t.old f v j ≤ 254) }
    ensures { t.new ≡ counted t.old f v j }
{
    let lives = counts::live_at(t, f, v, j);
    let sent = counts::sent_at(t, f, v, j);
    counts::put_live(t, f, v, j, lives + 1);
    counts::put_sent(t, f, v, j, sent + 1);
}

// 3 transit: counted and granted, or denied where the receiver is dead.
pub fn transit(t: &mut SessionTables, s: Slot, m: Route) -> Option<Tag>
    requires { dead t.old m.to ≡ false → (live t.old m.finish m.from m.to ≤ 254) × (sent_count t.old m.finish m.from m.to ≤ 254) }
    ensures tables { t.new ≡ delivered t.old s (transit m.finish m.task m.from m.to) }
    ensures sent { sent_number result ≡ reply_sent t.old s (transit m.finish m.task m.from m.to) }
{
    if fields::is_dead(t, m.to.number()) {
        messages::put(t, s, Tag::Denied, m.fields(0));
        return Some(Tag::Denied);
    }
    count(t, m.finish, m.from, m.to);
    messages::put(t, s, Tag::Granted, m.fields(0));
    Some(Tag::Granted)
}

// The task goes to its place, or nothing goes where that is dead.
fn send_task(t: &mut SessionTables, s: Slot, m: Route) -> Option<Tag>
    ensures tables { t.new ≡ send t.old s (cond (dead t.old m.to) none (task m.finish m.task m.from m.to)) }
    ensures sent { sent_number result ≡ reply_sent t.old s (granted m.finish m.task m.from m.to) }
{
    if fields::is_dead(t, m.to.number()) {
        messages::empty_slot(t, s);
        return None;
    }
    messages::put(t, s, Tag::Task, m.fields(0));
    Some(Tag::Task)
}

// 4 granted: the task goes on the wire, or nothing goes where the receiver is dead; its spawner runs.
pub fn granted(t: &mut SessionTables, s: Slot, m: Route) -> Option<Tag>
    ensures tables { t.new ≡ delivered t.old s (granted m.finish m.task m.from m.to) }
    ensures sent { sent_number result ≡ reply_sent t.old s (granted m.finish m.task m.from m.to) }
{
    let task = m.task;
    let maker = fields::task_byte(t, task, TaskField::Maker);
    let sent = send_task(t, s, m);
    fields::put_status(t, task, TaskStatus::OnTheWire);
    fields::wake(t, maker);
    sent
}

// 5 denied: the task is dropped, its spawner runs.
pub fn denied(t: &mut SessionTables, s: Slot, m: Route) -> Option<Tag>
    ensures tables { t.new ≡ delivered t.old s (denied m.finish m.task m.from m.to) }
    ensures sent { sent_number result ≡ reply_sent t.old s (denied m.finish m.task m.from m.to) }
{
    let maker = fields::task_byte(t, m.task, TaskField::Maker);
    messages::empty_slot(t, s);
    fields::put_status(t, m.task, TaskStatus::Dropped);
    fields::wake(t, maker);
    None
}
