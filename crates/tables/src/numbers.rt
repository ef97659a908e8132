// The numbers of finishes, places and slots, each in the range of the table kind.

ghost use Rattle.std.specs.Prelude.{◌≡◌, ◌≤◌, ◌<◌, ℕ};
ghost use Rattle.tables.specs.Numbers.{FinishFrom, PlaceFrom, SlotFrom};

use std::marker::Model;

// A finish, 1 to 32.
#[derive(Clone, Copy, PartialEq, Eq)]
pub struct Finish {
    number: u8,
}

impl Model for Finish {
    ghost Value = { ℕ };

    ghost view = { λ f. f.number };

    ghost invariant = { λ f. (1 ≤ f.number) × (f.number ≤ 32) };

    ghost inverse = { λ n. record { number = n } };
}

// A place, 0 to 7.
#[derive(Clone, Copy, PartialEq, Eq)]
pub struct Place {
    number: u8,
}

impl Model for Place {
    ghost Value = { ℕ };

    ghost view = { λ p. p.number };

    ghost invariant = { λ p. p.number < 8 };

    ghost inverse = { λ n. record { number = n } };
}

// A slot, 0 to 127.
#[derive(Clone, Copy, PartialEq, Eq)]
pub struct Slot {
    number: u8,
}

impl Model for Slot {
    ghost Value = { ℕ };

    ghost view = { λ s. s.number };

    ghost invariant = { λ s. s.number < 128 };

    ghost inverse = { λ n. record { number = n } };
}

// A number that names no finish, place or slot.
#[derive(Clone, Copy, Debug, PartialEq, Eq, Drop)]
pub struct OutOfRange(pub u8);

impl TryFrom<u8> for Finish {
    type Error = OutOfRange;

    ghost try_from_gives = { FinishFrom };

    fn try_from(number: u8) -> Result<Self, OutOfRange> {
        if 1 <= number && number <= 32 {
            Ok(Finish { number })
        } else {
            Err(OutOfRange(number))
        }
    }
}

impl TryFrom<u8> for Place {
    type Error = OutOfRange;

    ghost try_from_gives = { PlaceFrom };

    fn try_from(number: u8) -> Result<Self, OutOfRange> {
        if number < 8 {
            Ok(Place { number })
        } else {
            Err(OutOfRange(number))
        }
    }
}

impl TryFrom<u8> for Slot {
    type Error = OutOfRange;

    ghost try_from_gives = { SlotFrom };

    fn try_from(number: u8) -> Result<Self, OutOfRange> {
        if number < 128 {
            Ok(Slot { number })
        } else {
            Err(OutOfRange(number))
        }
    }
}

impl Place {
    pub const COUNT: u8 = 8;

    // The place of this number.
    pub fn new(number: u8) -> Place
        requires { number < 8 }
        ensures { result ≡ number }
    {
        Place { number }
    }

    // Its number.
    pub fn number(self) -> u8
        ensures { (result ≡ self) × (result < 8) }
    {
        self.number
    }

    // Its number, as an index.
    pub fn index(self) -> usize
        ensures { (result ≡ self) × (result < 8) }
    {
        usize::from(self.number)
    }
}

impl Finish {
    pub const COUNT: u8 = 32;

    // The finish of this number.
    pub fn new(number: u8) -> Finish
        requires { (1 ≤ number) × (number ≤ 32) }
        ensures { result ≡ number }
    {
        Finish { number }
    }

    // Its number.
    pub fn number(self) -> u8
        ensures { (result ≡ self) × (1 ≤ result) × (result ≤ 32) }
    {
        self.number
    }
}

impl Slot {
    pub const COUNT: u8 = 128;

    // The slot of this number.
    pub fn new(number: u8) -> Slot
        requires { number < 128 }
        ensures { result ≡ number }
    {
        Slot { number }
    }

    // Its number.
    pub fn number(self) -> u8
        ensures { (result ≡ self) × (result < 128) }
    {
        self.number
    }
}
