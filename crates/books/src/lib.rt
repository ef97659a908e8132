// The store book of a finish in the session tables: read, tested, changed and written back, and found from a finish upwards.
#![tactic(auto)]

ghost use Rattle.std.specs.Prelude.{◌≡◌, ◌≤◌, ◌<◌, length};
ghost use Rattle.rules.specs.Fields.{dead_mask, parent, finishes_made};
ghost use Rattle.rules.specs.Books.{book_of, with_book, column, cleared_column, lowered_column, under_repair};
ghost use Rattle.rules.specs.Closing.{closes, without_book};
ghost use Rattle.rules.specs.Cancel.{cancelled};
ghost use Rattle.rules.specs.Deliver.{lowers, new_book, nearest};
ghost use Rattle.books.specs.Parents.{ParentsFall};

use fields::FinishField;
use square::Book;
use tables::{Finish, Place, SessionTables, Tables};

// The book of f, still lent.
#[tactic(auto, using(crate::proofs::Places::book_there))]
pub fn book(t: &SessionTables, f: Finish) -> &Book
    ensures { result.now ≡ book_of t.now f }
{
    tables::part(t, Tables::book(f))
}

// Column v of a book that is lent as a part of the tables becomes 0.
fn clear_in(part: &mut [u8], v: Place)
    requires { length part.old ≡ 144 }
    ensures cleared { part.new ≡ cleared_column part.old v }
    ensures whole { length part.new ≡ 144 }
{
    if let Some(b) = part.as_mut_array() {
        square::clear_column(b, v);
    }
}

// Column v of a book that is lent as a part of the tables is lowered by the counts.
fn lower_in(part: &mut [u8], v: Place, counts: [u8; 8])
    requires { length part.old ≡ 144 }
    ensures lowered { part.new ≡ lowered_column part.old v counts }
    ensures whole { length part.new ≡ 144 }
{
    if let Some(b) = part.as_mut_array() {
        square::lower_column(b, v, counts);
    }
}

// A book that is lent as a part of the tables becomes a new one: home h, parent q.
fn new_in(part: &mut [u8], h: Place, q: u8)
    requires { length part.old ≡ 144 }
    ensures new { part.new ≡ new_book h q }
    ensures whole { length part.new ≡ 144 }
{
    if let Some(b) = part.as_mut_array() {
        square::write_new(b, h, q);
    }
}

// Column v of the book of f becomes 0.
pub fn cancel_column(t: &mut SessionTables, f: Finish, v: Place)
    ensures { t.new ≡ cancelled t.old f v }
{
    let a = Tables::book(f);
    clear_in(&mut t[a..a + Tables::BOOK_BYTES], v);
}

// Column v of the book of f is lowered by the counts.
pub fn lower_book(t: &mut SessionTables, f: Finish, v: Place, counts: [u8; 8])
    ensures { t.new ≡ with_book t.old f (lowered_column (book_of t.old f) v counts) }
{
    let a = Tables::book(f);
    lower_in(&mut t[a..a + Tables::BOOK_BYTES], v, counts);
}

// The book of f is new: home h, parent q.
pub fn new_book(t: &mut SessionTables, f: Finish, h: Place, q: u8)
    ensures { t.new ≡ with_book t.old f (new_book h q) }
{
    let a = Tables::book(f);
    new_in(&mut t[a..a + Tables::BOOK_BYTES], h, q);
}

// The book of f becomes 0.
pub fn clear_book(t: &mut SessionTables, f: Finish)
    ensures { t.new ≡ without_book t.old f }
{
    tables::clear_part(t, Tables::book(f), Tables::BOOK_BYTES);
}

// The closing test of the book of f.
pub fn book_closes(t: &SessionTables, f: Finish) -> bool
    ensures { result ≡ closes (book_of t.now f) }
{
    square::closes(book(t, f))
}

// The book of f is under repair.
pub fn in_repair(t: &SessionTables, f: Finish) -> bool
    ensures { result ≡ under_repair (dead_mask t.now) (book_of t.now f) }
{
    repair::under_repair(book(t, f), t[Tables::DEAD_MASK])
}

// The live counts of the book of f at place v, summed.
pub fn book_column(t: &SessionTables, f: Finish, v: Place) -> u32
    ensures { result ≡ column (book_of t.now f) v }
{
    square::column_of(book(t, f), v)
}

// The counts lower column v of the book of f.
pub fn book_lowers(t: &SessionTables, f: Finish, v: Place, counts: [u8; 8]) -> bool
    ensures { result ≡ lowers (book_of t.now f) v counts }
{
    square::lowers(book(t, f), v, counts)
}

// The finish that f is nested in, 0 if none.
#[tactic(auto, using(crate::proofs::Climb::parent_read))]
fn parent_of(t: &SessionTables, f: Finish) -> u8
    requires parents_fall { ParentsFall t.now }
    requires made { f ≤ finishes_made t.now }
    ensures { (result ≡ parent t.now f) × (result < f) }
{
    t[Tables::finish(f.number()) + FinishField::Parent as usize]
}

// Finish f or its nearest ancestor with a store book, 0 if none.
#[tactic(auto, using(crate::proofs::Climb::climbs))]
pub fn nearest_book(t: &SessionTables, f: u8) -> u8
    requires parents_fall { ParentsFall t.now }
    requires made { f ≤ finishes_made t.now }
    ensures { result ≡ nearest t.now 32 f }
{
    let Ok(finish) = Finish::try_from(f) else {
        return 0;
    };
    if t[Tables::book(finish)] == 1 {
        return f;
    }
    nearest_book(t, parent_of(t, finish))
}
