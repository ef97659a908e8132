// Whether a session is quiet: no message in flight, no book under repair, no count owed.
#![tactic(auto)]

ghost use Rattle.std.specs.Prelude.{◌≡◌, ℕ, drop};
ghost use Rattle.tables.specs.Walks.{every_part};
ghost use Rattle.rules.specs.Fields.{places, dead_mask, book_place};
ghost use Rattle.rules.specs.Quiet.{calm_book, quiet};

use square::Book;
use tables::{Finish, SessionTables, Tables};

// A book is not present, or not under repair and with no count owed: of ps places those of the dead mask d are dead.
#[tactic(auto, unfolding(rules::specs::Quiet::calm_book, tables::specs::Walks::every))]
fn is_calm(b: &Book, ps: u8, d: u8) -> bool
    ensures { (f : ℕ) → result ≡ calm_book ps d b.now f }
{
    b[Tables::PRESENT] == 0 || !repair::under_repair(b, d) && !repair::owes(b, ps, d)
}

// All store books are calm.
fn books_calm(t: &SessionTables) -> bool
    ensures { result ≡ every_part (calm_book (places t.now) (dead_mask t.now)) 144 1 32 (drop (book_place 1) t.now) }
{
    (1..=Finish::COUNT).all(|f| is_calm(
        tables::part(t, Tables::book(Finish::new(f))),
        t[Tables::SESSION_PLACES],
        t[Tables::DEAD_MASK],
    ))
}

// The session is quiet.
#[tactic(auto, unfolding(rules::specs::Quiet::quiet, tables::specs::Walks::every))]
pub fn is_quiet(t: &SessionTables) -> bool
    ensures { result ≡ quiet t.now }
{
    messages::messages_in_flight(t) == 0 && books_calm(t)
}
