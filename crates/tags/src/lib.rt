// The message of a slot: read, and by its tag what refuses it, whether it is discarded, and what it does.
#![tactic(auto)]

ghost use Rattle.std.specs.Prelude.{◌≡◌, true, not, ℕ, is_some, List, [], ◌∷◌, ◌≤◌, ◌≢◌};
ghost use Rattle.tables.specs.Walks.{some_of};
ghost use Rattle.rules.specs.Fields.{dead};
ghost use Rattle.rules.specs.Messages.{tagged, message_at, is_empty, from_slot};
ghost use Rattle.rules.specs.Sound.{sound};
ghost use Rattle.rules.specs.Deliver.{book_absent, discarded, fits, delivered};
ghost use Rattle.rules.specs.Sent.{reply_sent};
ghost use Rattle.answers.specs.Answers.{number_of, sent_number, tag_number};
ghost use Rattle.wanted.specs.Says.{deliver_says};
ghost use Rattle.tags.specs.Said.{said, found};

use answers::{Refusal, Tag};
use messages::Route;
use tables::{Finish, Place, SessionTables, Slot};

// A message, with the fields that its tag uses.
#[derive(Clone, Drop)]
pub enum Message {
    Publish {
        finish: Finish,
        task: u8,
    },
    Published {
        finish: Finish,
        task: u8,
    },
    Transit(Route),
    Granted(Route),
    Denied(Route),
    Task(Route),
    Report {
        finish: Finish,
        from: Place,
        counts: [u8; 8],
    },
    Release {
        finish: Finish,
    },
    GhostEnded {
        finish: Finish,
        ended: Finish,
    },
    CountDropped {
        route: Route,
        number: u8,
    },
    Dropped {
        route: Route,
        number: u8,
    },
}

// The message of a tag that names a route: not publish, published, report, release or ghost ended.
#[tactic(auto, unfolding(rules::specs::Messages::tagged))]
fn routed(tag: Tag, m: Route, n: u8) -> Message
    requires { (3 ≤ tag_number tag) × (tag_number tag ≢ 7) × (tag_number tag ≢ 8) × (tag_number tag ≢ 9) }
    ensures { (counts : List ℕ) → said result ≡ tagged (tag_number tag) m.finish m.task m.from m.to n counts }
{
    match tag {
        Tag::Transit => Message::Transit(m),
        Tag::Granted => Message::Granted(m),
        Tag::Denied => Message::Denied(m),
        Tag::Task => Message::Task(m),
        Tag::CountDropped => Message::CountDropped {
            route: m,
            number: n,
        },
        _ => Message::Dropped {
            route: m,
            number: n,
        },
    }
}

// The message of slot s, or none.
#[tactic(auto, unfolding(rules::specs::Messages::message_at, rules::specs::Messages::message_in, rules::specs::Messages::tagged))]
pub fn read(t: &SessionTables, s: Slot) -> Option<Message>
    requires { sound t.now ≡ true }
    ensures held { found result ≡ message_at t.now s }
    ensures full { is_some result ≡ not (is_empty (from_slot t.now s) s) }
{
    let [tag, f, task, v, j, number, ..] = messages::head_at(t, s);
    let Ok(tag) = Tag::try_from(tag) else {
        return None;
    };
    let finish = Finish::new(f);
    match tag {
        Tag::Publish => Some(Message::Publish { finish, task }),
        Tag::Published => Some(Message::Published { finish, task }),
        Tag::Report => Some(Message::Report {
            finish,
            from: Place::new(v),
            counts: messages::counts_at(t, s),
        }),
        Tag::Release => Some(Message::Release { finish }),
        Tag::GhostEnded => Some(Message::GhostEnded {
            finish,
            ended: Finish::new(number),
        }),
        _ => Some(routed(
            tag,
            Route {
                finish,
                task,
                from: Place::new(v),
                to: Place::new(j),
            },
            number,
        )),
    }
}

// What refuses the deliver of a message, by its tag.
pub fn says(t: &SessionTables, m: &Message) -> Result<(), Refusal>
    ensures { number_of result ≡ deliver_says t.now (said m.now) }
{
    match m {
        Message::Publish { finish, task } => wanted::publish_says(t, *finish, *task),
        Message::Published { finish, task } => wanted::published_says(t, *finish, *task),
        Message::Transit(route) => wanted::transit_says(t, *route),
        Message::Granted(route) => wanted::granted_says(t, *route),
        Message::Denied(route) => wanted::granted_says(t, *route),
        Message::Task(route) => wanted::task_says(t, *route),
        Message::Report {
            finish,
            from,
            counts,
        } => wanted::report_says(t, *finish, *from, *counts),
        Message::Release { finish } => wanted::release_says(t, *finish),
        Message::GhostEnded { finish, ended } => wanted::ghost_ended_says(t, *finish, *ended),
        Message::CountDropped { route, number } => wanted::count_dropped_says(t, *route, *number),
        Message::Dropped { route, number } => wanted::dropped_says(t, *route, *number),
    }
}

// Place p is dead, or there is no book of f.
#[tactic(auto, unfolding(tables::specs::Walks::some_of))]
fn is_gone(t: &SessionTables, p: Place, f: Finish) -> bool
    ensures { result ≡ some_of (dead t.now p ∷ book_absent t.now f ∷ []) }
{
    fields::is_dead(t, p.number()) || counts::book_absent(t, f)
}

// A message is discarded, by its tag.
#[tactic(auto, unfolding(rules::specs::Deliver::discarded))]
pub fn is_discarded(t: &SessionTables, m: &Message) -> bool
    ensures { result ≡ discarded t.now (said m.now) }
{
    match m {
        Message::Publish { finish, .. } => fields::home_dead(t, finish.number()),
        Message::Transit(route) => is_gone(t, route.from, route.finish),
        Message::Report { finish, from, .. } => is_gone(t, *from, *finish),
        Message::GhostEnded { finish, .. } => counts::book_absent(t, *finish),
        Message::Dropped { route, .. } => is_gone(t, route.to, route.finish),
        _ => false,
    }
}

// What the message m of slot s does, by its tag; the tag of what it sends.
pub fn deliver(t: &mut SessionTables, s: Slot, m: Message) -> Option<Tag>
    requires ranges { sound t.old ≡ true }
    requires message { said m ≡ message_at t.old s }
    requires message_fits { fits t.old (said m) ≡ true }
    ensures tables { t.new ≡ delivered t.old s (said m) }
    ensures sent { sent_number result ≡ reply_sent t.old s (said m) }
{
    match m {
        Message::Publish { finish, task } => depart::publish(t, s, finish, task),
        Message::Published { finish, task } => depart::published(t, s, finish, task),
        Message::Transit(route) => depart::transit(t, s, route),
        Message::Granted(route) => depart::granted(t, s, route),
        Message::Denied(route) => depart::denied(t, s, route),
        Message::Task(route) => arrive::task(t, s, route),
        Message::Report {
            finish,
            from,
            counts,
        } => settle::report(t, s, finish, from, counts),
        Message::Release { finish } => arrive::release(t, s, finish),
        Message::GhostEnded { finish, ended } => settle::ghost_ended(t, s, finish, ended),
        Message::CountDropped { route, number } => arrive::count_dropped(t, s, route, number),
        Message::Dropped { route, number } => settle::dropped(t, s, route, number),
    }
}
