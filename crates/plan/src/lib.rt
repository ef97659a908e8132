// The line that the program tree is given, read into its five numbers.
#![tactic(auto)]

ghost use Rattle.std.specs.Prelude.{◌≡◌, ◌≤◌, ◌<◌, ◌==◌, true, None, Some, IfSome, MatchOption, position};
ghost use Rattle.plan.specs.Tree.{tree_size};
ghost use Rattle.plan.specs.Plan.{fits, first_line, named, ReadsAs};
ghost use Rattle.plan.specs.Reading.{goes_on, with_digit, read_on, number_of, word_of, last_of, numbers_of, plan_of};

#[derive(Clone, Copy, Debug)]
pub struct Plan {
    pub levels: u32,
    pub width: u32,
    pub places: u32,
    pub victim: u32,
    // The number of steps from which the victim is killed; 0 for no kill.
    pub killstep: u32,
}

impl Plan {
    // Whether every number is in its range, and the tree has at most 255 tasks.
    #[tactic(auto, unfolding(crate::specs::Plan::fits, tables::specs::Walks::every))]
    fn fits(self) -> bool
        ensures { result ≡ fits self }
    {
        1 <= self.levels
            && self.levels <= 5
            && 1 <= self.width
            && self.width <= 4
            && 2 <= self.places
            && self.places <= 8
            && self.victim < self.places
            && self.killstep <= 65535
            && tree_size(self.width, self.levels) <= 255
    }
}

// The tasks of a whole tree.
#[tactic(auto, using(crate::proofs::Trees::tree_room), unfolding(crate::specs::Tree::tree_size))]
fn tree_size(width: u32, levels: u32) -> u32
    requires { (width ≤ 4) × (levels ≤ 5) }
    ensures { result ≡ tree_size width levels }
{
    let mut tasks = 0;
    for _level in 0..levels {
        tasks = 1 + width * tasks;
    }
    tasks
}

// Whether b is a digit more of a number that begins as v: after a 0 there is none, and one above every range is read no further.
#[tactic(auto, unfolding(crate::specs::Reading::goes_on, tables::specs::Walks::every))]
fn goes_on(v: u32, b: u8) -> bool
    ensures { result ≡ goes_on v b }
{
    1 <= v && v <= 65535 && b.is_ascii_digit()
}

// v with the digit b behind it.
#[tactic(auto, unfolding(crate::specs::Reading::with_digit))]
fn with_digit(v: u32, b: u8) -> u32
    requires { (v ≤ 65535) × (48 ≤ b) }
    ensures { result ≡ with_digit v b }
{
    10 * v + u32::from(b - b'0')
}

// The number that begins as v and goes on in these bytes, and the bytes after it.
#[tactic(auto, using(crate::proofs::Fronts::read_more, crate::proofs::Fronts::read_stops, crate::proofs::Fronts::digit_more))]
fn read_on(v: u32, line: &[u8]) -> (u32, &[u8])
    ensures { read_on v line.now ≡ (result.0, result.1.now) }
{
    match line {
        [b, rest @ ..] if goes_on(v, *b) => read_on(with_digit(v, *b), rest),
        _ => (v, line),
    }
}

// The number that a line begins with, and the bytes after it.
#[tactic(auto, using(crate::proofs::Fronts::number_begins, crate::proofs::Fronts::number_none))]
fn read_number(line: &[u8]) -> Option<(u32, &[u8])>
    ensures { MatchOption result (number_of line.now ≡ None) (λ r. number_of line.now ≡ Some (r.0, r.1.now)) }
{
    match line {
        [b, rest @ ..] if b.is_ascii_digit() => Some(read_on(with_digit(0, *b), rest)),
        _ => None,
    }
}

// The number that a line begins with, and the bytes after the space behind it.
#[tactic(auto, using(crate::proofs::Fronts::word_none, crate::proofs::Fronts::word_spaced, crate::proofs::Fronts::word_not))]
fn read_word(line: &[u8]) -> Option<(u32, &[u8])>
    ensures { MatchOption result (word_of line.now ≡ None) (λ r. word_of line.now ≡ Some (r.0, r.1.now)) }
{
    let (number, rest) = read_number(line)?;
    match rest {
        [b' ', rest @ ..] => Some((number, rest)),
        _ => None,
    }
}

// The number that is all of a line.
#[tactic(auto, using(crate::proofs::Fronts::last_none, crate::proofs::Fronts::last_ends, crate::proofs::Fronts::last_not))]
fn read_last(line: &[u8]) -> Option<u32>
    ensures { result ≡ last_of line.now }
{
    let (number, rest) = read_number(line)?;
    if !rest.is_empty() {
        return None;
    }
    Some(number)
}

// The five numbers of a line.
#[tactic(auto, unfolding(crate::specs::Reading::numbers_of))]
fn read_numbers(line: &[u8]) -> Option<Plan>
    ensures { result ≡ numbers_of line.now }
{
    let (levels, line) = read_word(line)?;
    let (width, line) = read_word(line)?;
    let (places, line) = read_word(line)?;
    let (victim, line) = read_word(line)?;
    let killstep = read_last(line)?;
    Some(Plan {
        levels,
        width,
        places,
        victim,
        killstep,
    })
}

// The place of the first newline.
fn newline(input: &[u8]) -> Option<usize>
    ensures { result ≡ position (λ b. b == 10) input.now }
{
    input.iter().position(|b| *b == b'\n')
}

// What stands before the first newline, or all where there is none.
#[tactic(auto, using(crate::proofs::Fronts::line_at, crate::proofs::Fronts::line_whole))]
fn first_line(input: &[u8]) -> &[u8]
    ensures { result.now ≡ first_line input.now }
{
    match newline(input) {
        Some(end) => &input[..end],
        None => input,
    }
}

// The plan of the first line, if that names one.
#[tactic(auto, using(crate::proofs::Lines::reads_as), unfolding(crate::specs::Reading::plan_of))]
pub fn read_plan(input: &[u8]) -> Option<Plan>
    ensures reads { ReadsAs input.now (named result) }
    ensures fits { IfSome result (λ p. fits p ≡ true) }
{
    read_numbers(first_line(input)).filter(|p| p.fits())
}
