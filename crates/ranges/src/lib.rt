// The ranges of document 01: row 0, and the row of one task, one finish, one store book and one message.
#![tactic(auto)]

ghost use Rattle.std.specs.Prelude.{◌≡◌, ℕ, ◌∷◌, [], ltb, leb};
ghost use Rattle.tables.specs.Walks.{every};
ghost use Rattle.rules.specs.Fields.{places, dead_mask, tasks_made, finishes_made};
ghost use Rattle.rules.specs.Sound.{head_sound, task_sound, finish_sound, book_sound, slot_sound};

use answers::Tag;
use tables::{SessionTables, Tables};

// Row 0: places, dead mask, tasks made, finishes made.
#[derive(Clone, Copy)]
pub struct Head {
    pub places: u8,
    pub dead: u8,
    pub tasks: u8,
    pub finishes: u8,
}

impl Head {
    // The head of these tables.
    pub fn of(t: &SessionTables) -> Head
        ensures place_count { result.places ≡ places t.now }
        ensures dead { result.dead ≡ dead_mask t.now }
        ensures tasks { result.tasks ≡ tasks_made t.now }
        ensures finishes { result.finishes ≡ finishes_made t.now }
    {
        Head {
            places: t[Tables::SESSION_PLACES],
            dead: t[Tables::DEAD_MASK],
            tasks: t[Tables::TASKS_MADE],
            finishes: t[Tables::FINISHES_MADE],
        }
    }

    // Places 2 to 8, finishes made to 32; the dead mask names only session places above 0.
    #[tactic(auto, unfolding(tables::specs::Walks::every, rules::specs::Sound::head_sound))]
    pub fn is_sound(self) -> bool
        ensures { result ≡ head_sound self.places self.dead self.finishes }
    {
        2 <= self.places
            && self.places <= 8
            && self.finishes <= 32
            && self.dead % 2 == 0
            && u16::from(self.dead) >> self.places == 0
    }

    // A place of the session.
    fn has_place(self, p: u8) -> bool
        ensures { result ≡ ltb p self.places }
    {
        p < self.places
    }

    // A task made.
    #[tactic(auto, unfolding(tables::specs::Walks::every))]
    fn has_task(self, k: u8) -> bool
        ensures { result ≡ every (leb 1 k ∷ leb k self.tasks ∷ []) }
    {
        1 <= k && k <= self.tasks
    }

    // A finish made.
    #[tactic(auto, unfolding(tables::specs::Walks::every))]
    fn has_finish(self, f: u8) -> bool
        ensures { result ≡ every (leb 1 f ∷ leb f self.finishes ∷ []) }
    {
        1 <= f && f <= self.finishes
    }
}

// The row of task k.
#[tactic(auto, unfolding(tables::specs::Walks::every, rules::specs::Sound::task_sound, rules::specs::Sound::task_fits))]
pub fn task_fits(head: Head, k: usize, row: &[u8; 8]) -> bool
    ensures { result ≡ task_sound head.places head.finishes row.now k }
{
    let [from, at, finish, status, sent, maker, ..] = *row;
    head.has_place(from)
        && head.has_place(at)
        && head.has_finish(finish)
        && 1 <= status
        && status <= 8
        && sent <= 1
        && usize::from(maker) < k
}

// The row of finish f.
#[tactic(auto, unfolding(tables::specs::Walks::every, rules::specs::Sound::finish_sound, rules::specs::Sound::finish_fits))]
pub fn finish_fits(head: Head, f: usize, row: &[u8; 8]) -> bool
    ensures { result ≡ finish_sound head.places head.tasks row.now f }
{
    let [home, opener, parent, status, published, main, ..] = *row;
    head.has_place(home)
        && opener < main
        && usize::from(parent) < f
        && 1 <= status
        && status <= 5
        && published <= 1
        && head.has_task(main)
}

// The first row of the store book of finish f: nothing is asked where no book is present; an adopted book has a parent.
#[tactic(auto, unfolding(tables::specs::Walks::every, rules::specs::Sound::book_sound, rules::specs::Sound::book_fits, rules::specs::Sound::parent_fits))]
pub fn book_fits(head: Head, f: usize, row: &[u8; 8]) -> bool
    ensures { result ≡ book_sound head.finishes row.now f }
{
    let [present, parent, due, adopted, ..] = *row;
    present == 0
        || present == 1
            && f <= usize::from(head.finishes)
            && usize::from(parent) < f
            && due <= 1
            && adopted <= 1
            && (adopted != 1 || 1 <= parent)
}

// The message in a slot, by its tag: the fields that the tag uses.
#[tactic(auto, unfolding(tables::specs::Walks::every, rules::specs::Sound::slot_sound, rules::specs::Sound::message_fits, rules::specs::Messages::message_in, rules::specs::Messages::tagged))]
pub fn message_fits(head: Head, slot: &[u8; 16]) -> bool
    ensures { (s : ℕ) → result ≡ slot_sound head.places head.tasks head.finishes slot.now s }
{
    let [tag, f, k, from, to, n, ..] = *slot;
    match Tag::try_from(tag) {
        Ok(Tag::Publish | Tag::Published) => head.has_finish(f) && head.has_task(k),
        Ok(Tag::Transit | Tag::Granted | Tag::Denied | Tag::Task) => head.has_finish(f)
            && head.has_task(k)
            && head.has_place(from)
            && head.has_place(to),
        Ok(Tag::Report) => head.has_finish(f) && head.has_place(from),
        Ok(Tag::Release) => head.has_finish(f),
        Ok(Tag::GhostEnded) => head.has_finish(f) && head.has_finish(n),
        Ok(Tag::CountDropped | Tag::Dropped) => head.has_finish(f)
            && head.has_place(from)
            && head.has_place(to),
        Err(_) => tag == 0,
    }
}
