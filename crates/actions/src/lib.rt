// What a record asks for, on tables of the right length: its action is named or refused, the tables are sound or it is refused, then the
// step itself.
#![tactic(auto)]

ghost use Rattle.std.specs.Prelude.{◌≡◌};
ghost use Rattle.rules.specs.Action.{action_of, begin};
ghost use Rattle.rules.specs.Refusals.{unsound};
ghost use Rattle.answers.specs.Answers.{number_of};
ghost use Rattle.actions.specs.Records.{record_answer, record_after, record_of, asked, ActionFrom};

use answers::{Answer, Refusal};
use tables::{SessionTables, Tables};

// The nine actions with their operands.
#[derive(Clone, Copy, Debug, PartialEq, Eq, Drop)]
pub enum Action {
    Spawn {
        task: u8,
        place: u8,
    },
    Open {
        task: u8,
    },
    End {
        task: u8,
    },
    Deliver {
        slot: u8,
    },
    Kill {
        place: u8,
    },
    Adopt {
        finish: u8,
    },
    Cancel {
        finish: u8,
        dead_place: u8,
    },
    Ask {
        finish: u8,
        dead_place: u8,
        live_place: u8,
    },
    Begin {
        places: u32,
    },
}

// The kinds, by number.
impl Action {
    pub const SPAWN: u8 = 1;

    pub const OPEN: u8 = 2;

    pub const END: u8 = 3;

    pub const DELIVER: u8 = 4;

    pub const KILL: u8 = 5;

    pub const ADOPT: u8 = 6;

    pub const CANCEL: u8 = 7;

    pub const ASK: u8 = 8;

    pub const BEGIN: u8 = 9;
}

// The table of kinds; an operand shown as 0 must be 0.
impl TryFrom<[u8; Tables::RECORD]> for Action {
    type Error = Refusal;

    ghost try_from_gives = { ActionFrom };

    #[tactic(auto, unfolding(rules::specs::Action::action_of, rules::specs::Action::action_named, rules::specs::Action::only0))]
    fn try_from(bytes: [u8; Tables::RECORD]) -> Result<Self, Refusal> {
        match bytes {
            [Action::SPAWN, task, place, 0] => Ok(Action::Spawn { task, place }),
            [Action::OPEN, task, 0, 0] => Ok(Action::Open { task }),
            [Action::END, task, 0, 0] => Ok(Action::End { task }),
            [Action::DELIVER, slot, 0, 0] => Ok(Action::Deliver { slot }),
            [Action::KILL, place, 0, 0] => Ok(Action::Kill { place }),
            [Action::ADOPT, finish, 0, 0] => Ok(Action::Adopt { finish }),
            [Action::CANCEL, finish, dead_place, 0] => Ok(Action::Cancel { finish, dead_place }),
            [Action::ASK, finish, dead_place, live_place] => Ok(Action::Ask {
                finish,
                dead_place,
                live_place,
            }),
            [Action::BEGIN, places, 0, 0] => Ok(Action::Begin {
                places: u32::from(places),
            }),
            _ => Err(Refusal::NoAction),
        }
    }
}

// The record of an action, by the same table.
impl From<Action> for [u8; Tables::RECORD] {
    ghost from_gives = { λ action bytes. bytes ≡ record_of action };

    fn from(action: Action) -> [u8; Tables::RECORD] {
        match action {
            Action::Spawn { task, place } => [Action::SPAWN, task, place, 0],
            Action::Open { task } => [Action::OPEN, task, 0, 0],
            Action::End { task } => [Action::END, task, 0, 0],
            Action::Deliver { slot } => [Action::DELIVER, slot, 0, 0],
            Action::Kill { place } => [Action::KILL, place, 0, 0],
            Action::Adopt { finish } => [Action::ADOPT, finish, 0, 0],
            Action::Cancel { finish, dead_place } => [Action::CANCEL, finish, dead_place, 0],
            Action::Ask {
                finish,
                dead_place,
                live_place,
            } => [Action::ASK, finish, dead_place, live_place],
            Action::Begin { places } => [Action::BEGIN, places.min(255) as u8, 0, 0],
        }
    }
}

// The tables break a sound range; a begin needs no sound ones.
#[tactic(auto, unfolding(rules::specs::Refusals::unsound))]
fn is_unsound(t: &SessionTables, action: Action) -> bool
    ensures { result ≡ unsound t.now (asked action) }
{
    match action {
        Action::Begin { .. } => false,
        _ => !sound::is_sound(t),
    }
}

// Begins a session of so many places, or refuses and changes nothing; the tables need not be sound.
#[tactic(auto, using(crate::proofs::Records::records), unfolding(rules::specs::Refusals::no_action, rules::specs::Refusals::unsound))]
pub fn begin_action(t: &mut SessionTables, places: u32) -> Answer
    ensures answer { number_of result ≡ record_answer t.old (begin places) }
    ensures tables { t.new ≡ record_after t.old (begin places) }
{
    opening::begin_session(t, places)
}

// Takes the step of an action, or refuses it and changes nothing.
#[tactic(auto, using(crate::proofs::Records::records, crate::proofs::Inside::few, sound::proofs::Use::finishes_most), unfolding(rules::specs::Refusals::no_action, rules::specs::Refusals::unsound))]
pub fn act(t: &mut SessionTables, action: Action) -> Answer
    ensures answer { number_of result ≡ record_answer t.old (asked action) }
    ensures tables { t.new ≡ record_after t.old (asked action) }
{
    if is_unsound(t, action) {
        return Err(Refusal::Unsound);
    }
    match action {
        Action::Spawn { task, place } => spawn::spawn_task(t, task, place),
        Action::Open { task } => opening::open_finish(t, task),
        Action::End { task } => ending::end_task(t, task),
        Action::Deliver { slot } => deliver::deliver_message(t, slot),
        Action::Kill { place } => kill::kill_place(t, place),
        Action::Adopt { finish } => adopt::adopt_orphans(t, finish),
        Action::Cancel { finish, dead_place } => cancel::cancel_column(t, finish, dead_place),
        Action::Ask {
            finish,
            dead_place,
            live_place,
        } => ask::ask_dropped(t, finish, dead_place, live_place),
        Action::Begin { places } => begin_action(t, places),
    }
}

// The same for the action that a record names.
#[tactic(auto, using(crate::proofs::Records::unknown_says, crate::proofs::Records::unknown_keeps), unfolding(rules::specs::Action::action_of))]
pub fn act_on(t: &mut SessionTables, bytes: [u8; Tables::RECORD]) -> Answer
    ensures answer { number_of result ≡ record_answer t.old (action_of bytes) }
    ensures tables { t.new ≡ record_after t.old (action_of bytes) }
{
    act(t, Action::try_from(bytes)?)
}
