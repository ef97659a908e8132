// The bytes of store books and local books by name, one at a time: read, tested and written.
#![tactic(auto, unfolding(rules::specs::Deliver::book_absent))]

ghost use Rattle.std.specs.Prelude.{◌≡◌, ◌<◌, eqb, set};
ghost use Rattle.tables.specs.Bytes.{byte};
ghost use Rattle.tables.specs.Bits.{marked};
ghost use Rattle.tables.specs.Layout.{place, book_row, local_row};
ghost use Rattle.rules.specs.Fields.{book_parent, adopt_due, is_adopted, live, live_place, sent_count, sent_place, asked_marks, asked_place, received, received_place, local_live, local_live_place, deny_mask, deny_place};
ghost use Rattle.rules.specs.Deliver.{book_absent};

use tables::{Finish, Place, SessionTables, Tables};

// Byte `column` of the book of f.
pub fn book_byte(t: &SessionTables, f: Finish, column: usize) -> u8
    requires { column < 144 }
    ensures { result ≡ byte t.now (place (book_row f) column) }
{
    t[Tables::book(f) + column]
}

// Writes byte `column` of the book of f.
pub fn put_book_byte(t: &mut SessionTables, f: Finish, column: usize, v: u8)
    requires { column < 144 }
    ensures { t.new ≡ set t.old (place (book_row f) column) v }
{
    t[Tables::book(f) + column] = v;
}

// Byte `column` of the local book of f at p.
pub fn local_byte(t: &SessionTables, f: Finish, p: Place, column: usize) -> u8
    requires { column < 24 }
    ensures { result ≡ byte t.now (place (local_row f p) column) }
{
    t[Tables::local(f, p) + column]
}

// Writes byte `column` of the local book of f at p.
pub fn put_local_byte(t: &mut SessionTables, f: Finish, p: Place, column: usize, v: u8)
    requires { column < 24 }
    ensures { t.new ≡ set t.old (place (local_row f p) column) v }
{
    t[Tables::local(f, p) + column] = v;
}

// There is no book of f.
pub fn book_absent(t: &SessionTables, f: Finish) -> bool
    ensures { result ≡ book_absent t.now f }
{
    book_byte(t, f, Tables::PRESENT) == 0
}

// The parent of the book of f.
pub fn book_parent(t: &SessionTables, f: Finish) -> u8
    ensures { result ≡ book_parent t.now f }
{
    book_byte(t, f, Tables::PARENT)
}

// Adopt is due for the book of f.
pub fn adopt_due(t: &SessionTables, f: Finish) -> bool
    ensures { result ≡ eqb (adopt_due t.now f) 1 }
{
    book_byte(t, f, Tables::ADOPT_DUE) == 1
}

// The book of f is adopted.
pub fn is_adopted(t: &SessionTables, f: Finish) -> bool
    ensures { result ≡ eqb (is_adopted t.now f) 1 }
{
    book_byte(t, f, Tables::ADOPTED) == 1
}

// The live count of f from i at j.
pub fn live_at(t: &SessionTables, f: Finish, i: Place, j: Place) -> u8
    ensures { result ≡ live t.now f i j }
{
    book_byte(t, f, Tables::LIVE + 8 * i.index() + j.index())
}

// Writes the live count of f from i at j.
pub fn put_live(t: &mut SessionTables, f: Finish, i: Place, j: Place, n: u8)
    ensures { t.new ≡ set t.old (live_place f i j) n }
{
    put_book_byte(t, f, Tables::LIVE + 8 * i.index() + j.index(), n);
}

// The sent count of f from i at j.
pub fn sent_at(t: &SessionTables, f: Finish, i: Place, j: Place) -> u8
    ensures { result ≡ sent_count t.now f i j }
{
    book_byte(t, f, Tables::SENT + 8 * i.index() + j.index())
}

// Writes the sent count of f from i at j.
pub fn put_sent(t: &mut SessionTables, f: Finish, i: Place, j: Place, n: u8)
    ensures { t.new ≡ set t.old (sent_place f i j) n }
{
    put_book_byte(t, f, Tables::SENT + 8 * i.index() + j.index(), n);
}

// The places of f that were asked of i, as marks.
pub fn asked_marks(t: &SessionTables, f: Finish, i: Place) -> u8
    ensures { result ≡ asked_marks t.now f i }
{
    book_byte(t, f, Tables::ASKED + i.index())
}

// Writes the marks of f of places that were asked of i.
pub fn put_asked_marks(t: &mut SessionTables, f: Finish, i: Place, marks: u8)
    ensures { t.new ≡ set t.old (asked_place f i) marks }
{
    put_book_byte(t, f, Tables::ASKED + i.index(), marks);
}

// What p received of f from i.
pub fn received_at(t: &SessionTables, f: Finish, p: Place, i: Place) -> u8
    ensures { result ≡ received t.now f p i }
{
    local_byte(t, f, p, i.index())
}

// Writes what p received of f from i.
pub fn put_received(t: &mut SessionTables, f: Finish, p: Place, i: Place, n: u8)
    ensures { t.new ≡ set t.old (received_place f p i) n }
{
    put_local_byte(t, f, p, i.index(), n);
}

// The live tasks of f at p.
pub fn local_live(t: &SessionTables, f: Finish, p: Place) -> u8
    ensures { result ≡ local_live t.now f p }
{
    local_byte(t, f, p, Tables::LOCAL_LIVE)
}

// Writes the live tasks of f at p.
pub fn put_local_live(t: &mut SessionTables, f: Finish, p: Place, n: u8)
    ensures { t.new ≡ set t.old (local_live_place f p) n }
{
    put_local_byte(t, f, p, Tables::LOCAL_LIVE, n);
}

// The places that p denies in f, as marks.
pub fn deny_mask(t: &SessionTables, f: Finish, p: Place) -> u8
    ensures { result ≡ deny_mask t.now f p }
{
    local_byte(t, f, p, Tables::DENY_MASK)
}

// Writes the places that p denies in f.
pub fn put_deny_mask(t: &mut SessionTables, f: Finish, p: Place, marks: u8)
    ensures { t.new ≡ set t.old (deny_place f p) marks }
{
    put_local_byte(t, f, p, Tables::DENY_MASK, marks);
}

// Place p denies sender v in f.
pub fn is_denied(t: &SessionTables, f: Finish, p: Place, v: Place) -> bool
    ensures { result ≡ marked (deny_mask t.now f p) v }
{
    tables::is_marked(deny_mask(t, f, p), v.number())
}
