// Counts by sender, eight by value: the two rows of a local book that hold them, read and written; lowered, compared, and one alone. An end reports by them.
#![tactic(auto)]

ghost use Rattle.std.specs.Prelude.{◌≡◌, set};
ghost use Rattle.tables.specs.Bytes.{write};
ghost use Rattle.rules.specs.Fields.{reported_place};
ghost use Rattle.rules.specs.Messages.{no_counts};
ghost use Rattle.rules.specs.End.{less_each, received_row, reported_row, each_at_most};

use std::array;
use tables::{Finish, Place, SessionTables, Tables};

// What place p received of finish f, by sender.
#[tactic(auto, unfolding(rules::specs::End::received_row))]
pub fn received_row(t: &SessionTables, f: Finish, p: Place) -> [u8; 8]
    ensures { result ≡ received_row t.now f p }
{
    *tables::part(t, Tables::local(f, p))
}

// What place p reported of finish f, by sender.
#[tactic(auto, unfolding(rules::specs::End::reported_row))]
pub fn reported_row(t: &SessionTables, f: Finish, p: Place) -> [u8; 8]
    ensures { result ≡ reported_row t.now f p }
{
    *tables::part(t, Tables::local(f, p) + Tables::ROW)
}

// Writes what place p reported of finish f.
pub fn put_reported(t: &mut SessionTables, f: Finish, p: Place, row: [u8; 8])
    ensures { t.new ≡ write t.old (reported_place f p 0) row }
{
    tables::put_part(t, Tables::local(f, p) + Tables::ROW, &row);
}

// Each count of x less that of y, and not below 0.
#[tactic(auto, using(crate::proofs::Counts::less_made))]
pub fn less_each(x: [u8; 8], y: [u8; 8]) -> [u8; 8]
    ensures { result ≡ less_each x y }
{
    array::from_fn(|i| x[i].saturating_sub(y[i]))
}

// Each count of x is at most that of y.
pub fn at_most(x: [u8; 8], y: [u8; 8]) -> bool
    ensures { result ≡ each_at_most x y }
{
    (0..8).all(|i| x[i] <= y[i])
}

// Count 1 for place h, and none for another.
#[tactic(auto, unfolding(rules::specs::Messages::no_counts))]
pub fn one_at(h: u8) -> [u8; 8]
    ensures { result ≡ set no_counts h 1 }
{
    let mut counts = [0; 8];
    if h < 8 {
        counts[usize::from(h)] = 1;
    }
    counts
}
