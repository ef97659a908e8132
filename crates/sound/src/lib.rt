// The sound test of document 01 over the tables: row 0, the made tasks and finishes, the present books, and the full slots by their tags.
#![tactic(auto)]

ghost use Rattle.std.specs.Prelude.{◌≡◌};
ghost use Rattle.rules.specs.Sound.{tasks_sound, finishes_sound, books_sound, slots_sound, sound};

use ranges::{Head, book_fits, finish_fits, message_fits, task_fits};
use tables::{Finish, SessionTables, Slot, Tables, part};

// The made tasks.
fn tasks_fit(t: &SessionTables, head: Head) -> bool
    ensures { result ≡ tasks_sound head.places head.tasks head.finishes t.now }
{
    (1..usize::from(head.tasks) + 1).all(|k| task_fits(head, k, part(t, Tables::ROW * k)))
}

// The made finishes.
fn finishes_fit(t: &SessionTables, head: Head) -> bool
    ensures { result ≡ finishes_sound head.places head.tasks head.finishes t.now }
{
    (1..usize::from(head.finishes) + 1).all(|f| {
        let at = Tables::ROW * (Tables::TASKS + f);
        finish_fits(head, f, part(t, at))
    })
}

// The store books.
fn books_fit(t: &SessionTables, head: Head) -> bool
    ensures { result ≡ books_sound head.finishes t.now }
{
    (1..Finish::COUNT + 1).all(|f| book_fits(
        head,
        usize::from(f),
        part(t, Tables::book(Finish::new(f))),
    ))
}

// The slots.
fn slots_fit(t: &SessionTables, head: Head) -> bool
    ensures { result ≡ slots_sound head.places head.tasks head.finishes t.now }
{
    (0..Slot::COUNT).all(|s| message_fits(head, part(t, Tables::slot(Slot::new(s)))))
}

// Every tested field is in its range.
#[inline(never)]
#[tactic(auto, unfolding(tables::specs::Walks::every, rules::specs::Sound::sound, rules::specs::Sound::rows_sound))]
pub fn is_sound(t: &SessionTables) -> bool
    ensures { result ≡ sound t.now }
{
    let head = Head::of(t);
    head.is_sound()
        && tasks_fit(t, head)
        && finishes_fit(t, head)
        && books_fit(t, head)
        && slots_fit(t, head)
}
