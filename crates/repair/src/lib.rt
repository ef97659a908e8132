// The two tests of a store book that look at dead places: under repair, and a count owed.
#![tactic(auto)]

ghost use Rattle.std.specs.Prelude.{◌≡◌, ◌<◌};
ghost use Rattle.tables.specs.Walks.{some_below};
ghost use Rattle.rules.specs.Books.{dead_column, under_repair, owed_cell, owes};

use square::Book;
use tables::{Place, Tables};

// Place v is dead, and its column not all 0.
#[tactic(auto, using(tables::proofs::Tests::tests), unfolding(rules::specs::Books::dead_column, tables::specs::Walks::every))]
fn dead_column(b: &Book, d: u8, v: Place) -> bool
    ensures { result ≡ dead_column d b.now v }
{
    tables::is_marked(d, v.number()) && square::column_of(b, v) != 0
}

// The same of some place.
fn dead_columns(b: &Book, d: u8) -> bool
    ensures { result ≡ some_below (dead_column d b.now) 8 }
{
    (0..Place::COUNT).any(|v| dead_column(b, d, Place::new(v)))
}

// Under repair: adopt is due, or the column of a place of the dead mask d is not all 0.
#[tactic(auto, using(tables::proofs::Tests::tests), unfolding(rules::specs::Books::under_repair))]
pub fn under_repair(b: &Book, d: u8) -> bool
    ensures { result ≡ under_repair d b.now }
{
    b[Tables::ADOPT_DUE] == 1 || dead_columns(b, d)
}

// The count from i at j is owed: i is dead, j lives in the session, the count is not 0 and was not asked for.
#[tactic(auto, using(tables::proofs::Tests::tests), unfolding(rules::specs::Books::owed_cell, tables::specs::Walks::every))]
fn owed_cell(b: &Book, ps: u8, d: u8, i: Place, j: Place) -> bool
    ensures { result ≡ owed_cell ps d b.now i j }
{
    tables::is_marked(d, i.number())
        && j.number() < ps
        && !tables::is_marked(d, j.number())
        && b[Tables::LIVE + 8 * i.index() + j.index()] != 0
        && !tables::is_marked(b[Tables::ASKED + i.index()], j.number())
}

// Some count from i is owed; none is where i is not dead.
fn owed_row(b: &Book, ps: u8, d: u8, i: Place) -> bool
    ensures { result ≡ some_below (owed_cell ps d b.now i) 8 }
{
    tables::is_marked(d, i.number())
        && (0..Place::COUNT).any(
            |j: u8| -> bool
                requires { j < 8 }
                ensures { result ≡ owed_cell ps d b.entry.now i j }
            { owed_cell(b, ps, d, i, Place::new(j)) },
        )
}

// A count is owed: of ps places those of the dead mask d are dead.
pub fn owes(b: &Book, ps: u8, d: u8) -> bool
    ensures { result ≡ owes ps d b.now }
{
    (0..Place::COUNT).any(|i| owed_row(b, ps, d, Place::new(i)))
}
