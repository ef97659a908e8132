// The closing test of a book: total 0 and no ghosts; what it then clears and sends.
#![tactic(auto, unfolding(rules::specs::Closing::closing_test, rules::specs::Closing::closed_book, rules::specs::Sent::closing_sent, rules::specs::Sent::closed_sends, rules::specs::Messages::send, rules::specs::Messages::bytes_of))]

ghost use Rattle.std.specs.Prelude.{◌≡◌};
ghost use Rattle.rules.specs.Closing.{closed_book, closing_test};
ghost use Rattle.rules.specs.Sent.{closed_sends, closing_sent};
ghost use Rattle.answers.specs.Answers.{sent_number};

use answers::Tag;
use messages::Fields;
use tables::{Finish, SessionTables, Slot};

// The book of f closed. Adopted: ghost-ended goes to its parent into slot s. Otherwise release, if the home lives. The tag of what is sent.
fn close_book(t: &mut SessionTables, f: Finish, s: Slot) -> Option<Tag>
    ensures sent { sent_number result ≡ closed_sends t.old f }
    ensures tables { t.new ≡ closed_book t.old f s }
{
    let number = f.number();
    if counts::is_adopted(t, f) {
        let finish = counts::book_parent(t, f);
        books::clear_book(t, f);
        messages::put(
            t,
            s,
            Tag::GhostEnded,
            Fields {
                finish,
                number,
                ..Fields::default()
            },
        );
        return Some(Tag::GhostEnded);
    }
    let stranded = fields::home_dead(t, number);
    books::clear_book(t, f);
    if stranded {
        return None;
    }
    messages::put(
        t,
        s,
        Tag::Release,
        Fields {
            finish: number,
            ..Fields::default()
        },
    );
    Some(Tag::Release)
}

// The closing test of the book of f; the tag of what it sends into slot s.
pub fn close(t: &mut SessionTables, f: Finish, s: Slot) -> Option<Tag>
    ensures sent { sent_number result ≡ closing_sent t.old f }
    ensures tables { t.new ≡ closing_test t.old f s }
{
    if books::book_closes(t, f) {
        return close_book(t, f, s);
    }
    None
}
