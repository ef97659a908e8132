// Walks over the parts of a table. The change is lent each part in place, or the tables and the place where the part begins, or a copy that
// is put back.
#![tactic(auto)]

ghost use Rattle.std.specs.Prelude.{◌≡◌, ℕ, List, ◌+◌, ◌*◌, ◌≤◌, ◌<◌, length};
ghost use Rattle.std.specs.Borrow.{Bor, MutBor};
ghost use Rattle.tables.specs.Bytes.{part, write};
ghost use Rattle.tables.specs.Walks.{change_parts};
ghost use Rattle.walk.specs.Changes.{KeepsLength, Leaves, Makes, Writes};

use tables::SessionTables;

// Changes n parts of w bytes, the first at `at`. The change is lent each in turn, and told how many parts were before it.
pub fn lend_parts<F: Fn(&mut [u8], usize)>(
    t: &mut SessionTables,
    at: usize,
    w: usize,
    n: usize,
    change: F,
)
    requires callable { (y : MutBor (List ℕ)) (j : ℕ) → j < n → length y.now ≡ w → F.pre change y j }
    requires inside { at + w * n ≤ 15104 }
    ensures { (f : List ℕ → ℕ → List ℕ) (i : ℕ) → KeepsLength f w → Leaves w (F.post change) f at i n t.old → t.new ≡ change_parts f w i n at t.old }
{
    for j in 0..n {
        let place = at + w * j;
        change(&mut t[place..place + w], j);
    }
}

// The same for a change that is lent the tables as they are by then, and told where the part begins and how many parts were before it.
pub fn write_parts<F: Fn(&mut SessionTables, usize, usize)>(
    t: &mut SessionTables,
    at: usize,
    w: usize,
    n: usize,
    change: F,
)
    requires callable { (y : MutBor (List ℕ)) (j : ℕ) → j < n → F.pre change y (at + w * j) j }
    requires inside { at + w * n ≤ 15104 }
    ensures { (f : List ℕ → ℕ → List ℕ) (i : ℕ) → KeepsLength f w → Writes w (F.post change) f at i n t.old → t.new ≡ change_parts f w i n at t.old }
{
    for j in 0..n {
        change(t, at + w * j, j);
    }
}

// A part of a table, all its bytes.
pub trait Part: Drop {
    const SIZE: usize;

    ghost SIZE: { ℕ };

    ghost bytes: { Self → List ℕ };

    // Copied out.
    fn read(t: &SessionTables, at: usize) -> Self
        requires { at + SIZE ≤ 15104 }
        ensures { bytes result ≡ part t.now at SIZE };

    // Put back.
    fn put(&self, t: &mut SessionTables, at: usize)
        requires { at + SIZE ≤ 15104 }
        ensures { t.new ≡ write t.old at (bytes self.now) };
}

impl<const N: usize> Part for [u8; N] {
    const SIZE: usize = N;

    ghost SIZE = { N };

    ghost bytes = { λ b. b };

    fn read(t: &SessionTables, at: usize) -> Self {
        *tables::part(t, at)
    }

    fn put(&self, t: &mut SessionTables, at: usize) {
        tables::put_part(t, at, self);
    }
}

// Changes n parts, the first at `at`. The change is told the tables as they are by then, a copy of the part, which is put back, and how many
// parts were before it.
pub fn change_parts<P: Part, F: Fn(&SessionTables, &mut P, usize)>(
    t: &mut SessionTables,
    at: usize,
    n: usize,
    change: F,
)
    requires callable { (u : Bor (List ℕ)) (y : MutBor P) (j : ℕ) → j < n → F.pre change u y j }
    requires inside { at + P.SIZE * n ≤ 15104 }
    ensures { (f : List ℕ → ℕ → List ℕ) (i : ℕ) → KeepsLength f P.SIZE → Makes P.bytes P.SIZE (F.post change) f at i n t.old → t.new ≡ change_parts f P.SIZE i n at t.old }
{
    write_parts(
        t,
        at,
        P::SIZE,
        n,
        |t: &mut SessionTables, place: usize, j: usize|
            requires inside { place + P.SIZE ≤ 15104 }
            requires callable { (u : Bor (List ℕ)) (y : MutBor P) → F.pre change u y j }
            ensures { (u : Bor (List ℕ)) × (y : MutBor P) × (z : MutBor P) × (u.now ≡ t.old) × (P.bytes y.now ≡ part t.old place P.SIZE) × (F.post change u y j tt z) × (t.new ≡ write t.old place (P.bytes z.now)) }
        {
            let mut part = P::read(t, place);
            change(t, &mut part, j);
            part.put(t, place);
        },
    );
}

#[cfg(test)]
mod tests {
    use super::*;
    use tables::Tables;

    // Rows 1 to 3: each takes one more than the first byte of the row before it, which changed by then, and a 1 as byte 4, 5 or 6.
    #[test]
    fn changes_copies_in_turn(rt: HostRuntime) {
        let mut t = [0; Tables::BYTES];
        t[0] = 4;
        t[9] = 2;
        t[32] = 9;
        let mut wanted = t;
        for (place, byte) in [(8, 5), (12, 1), (16, 6), (21, 1), (24, 7), (30, 1)] {
            wanted[place] = byte;
        }
        change_parts(
            &mut t,
            8,
            3,
            |t: &SessionTables, row: &mut [u8; 8], j: usize|
                requires { j < 3 }
            {
                row[0] = t[8 * j].saturating_add(1);
                row[4 + j] = 1;
            },
        );
        assert!(rt; t == wanted);
    }
}
