// The session tables as bytes that the caller lends: the numbers and places of the table kind; parts and marks read and written.
#![tactic(auto)]

ghost use Rattle.std.specs.Prelude.{◌≡◌, ◌+◌, ◌-◌, ◌*◌, ◌≤◌, ◌<◌, length, replicate};
ghost use Rattle.tables.specs.Bytes.{part, write};
ghost use Rattle.tables.specs.Layout.{task_row, finish_row, book_row, local_row, slot_row};
ghost use Rattle.tables.specs.Bits.{marked, with_mark, without_mark};

pub use numbers::{Finish, Place, Slot};

mod numbers;

// The session tables, all bytes of them.
pub type SessionTables = [u8; Tables::BYTES];

// The fixed numbers of the session tables: limits, row counts, and the first row of each table.
#[derive(Drop)]
pub struct Tables;

impl Tables {
    pub const ROW: usize = 8;

    pub const ROWS: usize = 1888;

    pub const BYTES: usize = Tables::ROW * Tables::ROWS;

    pub const RECORD: usize = 4;

    pub const TASKS: usize = 255;

    pub const FINISHES: usize = 32;

    pub const PLACES: usize = 8;

    pub const SLOTS: usize = 128;

    pub const BOOK_ROWS: usize = 18;

    pub const LOCAL_ROWS: usize = 3;

    pub const SLOT_ROWS: usize = 2;

    pub const BOOK_BYTES: usize = Tables::ROW * Tables::BOOK_ROWS;

    pub const FIRST_TASK: usize = 1;

    pub const FIRST_FINISH: usize = 256;

    pub const FIRST_BOOK: usize = 288;

    pub const FIRST_LOCAL: usize = 864;

    pub const FIRST_SLOT: usize = 1632;
}

// The bytes of row 0, of a store book and of a local book: each by itself, or the first of its row or rows.
impl Tables {
    pub const SESSION_PLACES: usize = 0;

    pub const DEAD_MASK: usize = 1;

    pub const TASKS_MADE: usize = 2;

    pub const FINISHES_MADE: usize = 3;

    pub const PRESENT: usize = 0;

    pub const PARENT: usize = 1;

    pub const ADOPT_DUE: usize = 2;

    pub const ADOPTED: usize = 3;

    pub const GHOSTS: usize = 4;

    pub const LIVE: usize = 8;

    pub const SENT: usize = 72;

    pub const ASKED: usize = 136;

    pub const LOCAL_LIVE: usize = 16;

    pub const DENY_MASK: usize = 17;
}

// Where the row or the rows begin. Of any task or finish number that is a byte, the row is inside the tables.
impl Tables {
    // The row of task k.
    pub fn task(k: u8) -> usize
        ensures { (result ≡ 8 * task_row k) × (result + 8 ≤ 2048) }
    {
        Tables::ROW * usize::from(k)
    }

    // The row of finish f.
    pub fn finish(f: u8) -> usize
        ensures { (result ≡ 8 * finish_row f) × (result + 8 ≤ 4088) }
    {
        Tables::ROW * (Tables::TASKS + usize::from(f))
    }

    // The store book of f.
    pub fn book(f: Finish) -> usize
        ensures { (result ≡ 8 * book_row f) × (result + 144 ≤ 6912) }
    {
        Tables::ROW * (Tables::FIRST_BOOK + Tables::BOOK_ROWS * usize::from(f.number() - 1))
    }

    // The local book of f at p.
    pub fn local(f: Finish, p: Place) -> usize
        ensures { (result ≡ 8 * local_row f p) × (result + 24 ≤ 13056) }
    {
        let books = Tables::PLACES * usize::from(f.number() - 1) + p.index();
        Tables::ROW * (Tables::FIRST_LOCAL + Tables::LOCAL_ROWS * books)
    }

    // Slot s.
    pub fn slot(s: Slot) -> usize
        ensures { (result ≡ 8 * slot_row s) × (result + 16 ≤ 15104) }
    {
        Tables::ROW * (Tables::FIRST_SLOT + Tables::SLOT_ROWS * usize::from(s.number()))
    }
}

// The N bytes from place `at` on, still lent.
pub fn part<const N: usize>(t: &[u8], at: usize) -> &[u8; N]
    requires { at + N ≤ length t.now }
    ensures { result.now ≡ part t.now at N }
{
    let e = at + N;
    t[at..e].try_into().unwrap()
}

// Writes the bytes p from place `at` on.
pub fn put_part(t: &mut [u8], at: usize, p: &[u8])
    requires { at + length p.now ≤ length t.old }
    ensures { t.new ≡ write t.old at p.now }
{
    let e = at + p.len();
    t[at..e].copy_from_slice(p);
}

// Sets the n bytes from place a on to 0.
pub fn clear_part(t: &mut [u8], a: usize, n: usize)
    requires { a + n ≤ length t.old }
    ensures { t.new ≡ write t.old a (replicate n 0) }
{
    let e = a + n;
    t[a..e].fill(0);
}

// Mark j of a byte.
pub fn is_marked(m: u8, j: u8) -> bool
    ensures { result ≡ marked m j }
{
    j < 8 && (m >> j) % 2 == 1
}

// The byte with mark k.
pub fn with_mark(m: u8, k: u8) -> u8
    requires { k < 8 }
    ensures { result ≡ with_mark m k }
{
    m | (1 << k)
}

// The byte without mark k.
pub fn without_mark(m: u8, k: u8) -> u8
    requires { k < 8 }
    ensures { result ≡ without_mark m k }
{
    with_mark(m, k) - (1 << k)
}
