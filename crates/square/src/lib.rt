// One store book by itself: its live counts as a square by value, the sums and tests of it, its columns written, and a new one.
#![tactic(auto)]

ghost use Rattle.std.specs.Prelude.{◌≡◌, ◌*◌, ◌≤◌, ◌+◌, ◌<◌};
ghost use Rattle.tables.specs.Bytes.{part};
ghost use Rattle.tables.specs.Walks.{sum_bytes};
ghost use Rattle.rules.specs.Books.{total, column, ghosts, cleared_column, lowered_column};
ghost use Rattle.rules.specs.Closing.{closes};
ghost use Rattle.rules.specs.Deliver.{lowers, new_book};
ghost use Rattle.square.specs.Square.{live_of};

use std::array;
use tables::{Place, Tables};

// A store book, all bytes of its 18 rows.
pub type Book = [u8; 144];

// The live counts: row i, byte j, from i, at j.
#[tactic(auto, using(crate::proofs::Live::live_rows))]
pub fn live_of(b: &Book) -> [[u8; 8]; 8]
    ensures { result ≡ live_of b.now }
{
    array::from_fn(
        |i: usize| -> [u8; 8]
            requires { i < 8 }
            ensures { result ≡ part b.entry.now (8 + 8 * i) 8 }
        { *tables::part(b, Tables::LIVE + 8 * i) },
    )
}

// The sum of a few bytes.
#[tactic(auto, using(crate::proofs::Sums::sum_more), unfolding(tables::specs::Walks::sum_bytes))]
fn sum_of<const N: usize>(bytes: &[u8; N]) -> u32
    requires { N ≤ 8 }
    ensures { (result ≡ sum_bytes bytes.now 0 1 N) × (result ≤ 255 * N) }
{
    let mut sum = 0;
    for x in bytes {
        sum += u32::from(*x);
    }
    sum
}

// The sum of the live counts.
#[tactic(auto, using(crate::proofs::Sums::total_more), unfolding(rules::specs::Books::total, tables::specs::Walks::sum_bytes))]
pub fn total_of(b: &Book) -> u32
    ensures { result ≡ total b.now }
{
    let mut sum = 0;
    for row in live_of(b) {
        sum += sum_of(&row);
    }
    sum
}

// The sum of the live counts at place v.
#[tactic(auto, using(crate::proofs::Sums::column_turns), unfolding(rules::specs::Books::column, tables::specs::Walks::sum_bytes))]
pub fn column_of(b: &Book, v: Place) -> u32
    ensures { result ≡ column b.now v }
{
    let mut sum = 0;
    for row in live_of(b) {
        sum += u32::from(row[v.index()]);
    }
    sum
}

// The sum of the four bytes of ghosts.
#[tactic(auto, using(crate::proofs::Sums::part_sum), unfolding(rules::specs::Books::ghosts))]
pub fn ghosts_of(b: &Book) -> u32
    ensures { result ≡ ghosts b.now }
{
    sum_of(tables::part::<4>(b, Tables::GHOSTS))
}

// The closing test: total 0 and no ghosts.
#[tactic(auto, using(tables::proofs::Tests::tests), unfolding(rules::specs::Closing::closes, tables::specs::Walks::every))]
pub fn closes(b: &Book) -> bool
    ensures { result ≡ closes b.now }
{
    total_of(b) == 0 && ghosts_of(b) == 0
}

// No count of a sender is above its cell in column v.
pub fn lowers(b: &Book, v: Place, counts: [u8; 8]) -> bool
    ensures { result ≡ lowers b.now v counts }
{
    (0..8).all(|i| counts[i] <= b[Tables::LIVE + 8 * i + v.index()])
}

// Column v of the live counts becomes 0.
#[tactic(auto, using(crate::proofs::Columns::clear_turns), unfolding(rules::specs::Books::cleared_column))]
pub fn clear_column(b: &mut Book, v: Place)
    ensures { b.new ≡ cleared_column b.old v }
{
    for i in 0..8 {
        b[Tables::LIVE + 8 * i + v.index()] = 0;
    }
}

// Column v of the live counts is lowered by a count of each sender, to 0 at the least.
#[tactic(auto, using(crate::proofs::Columns::lower_turns), unfolding(rules::specs::Books::lowered_column))]
pub fn lower_column(b: &mut Book, v: Place, counts: [u8; 8])
    ensures { b.new ≡ lowered_column b.old v counts }
{
    for i in 0..8 {
        let cell = Tables::LIVE + 8 * i + v.index();
        b[cell] = b[cell].saturating_sub(counts[i]);
    }
}

// The book becomes a new one: live and sent 1 at h, h; its parent is q.
#[tactic(auto, using(crate::proofs::New::new_book_lem))]
pub fn write_new(b: &mut Book, h: Place, q: u8)
    ensures { b.new ≡ new_book h q }
{
    let h = h.index();
    b.fill(0);
    b[Tables::PRESENT] = 1;
    b[Tables::PARENT] = q;
    b[Tables::LIVE + 8 * h + h] = 1;
    b[Tables::SENT + 8 * h + h] = 1;
}
