// A turn of the driver that grows whole trees: the next record is chosen and played. To try a record is to play it, since a refused
// record leaves every byte: a search plays one record after the other until one is taken.
#![tactic(auto)]

ghost use Rattle.std.specs.Prelude.{cond, [], ◌∷◌, ◌≡◌, ◌≤◌, ◌<◌};
ghost use Rattle.rules.specs.Step.{after};
ghost use Rattle.turns.specs.Choice.{taken_or};
ghost use Rattle.acts.specs.Acts.{next_act, act_of};
ghost use Rattle.turns.specs.Turn.{Playable, kill_record, kill_reached, kill_due, repair_or, turn_record};
ghost use Rattle.turns.specs.Numbered.{records_of, count_of, most_of};
ghost use Rattle.turns.specs.Played.{played_on, Plays};

use actions::Action;
use fields::TaskField;
use plan::Plan;
use tables::{SessionTables, Slot, Tables};

// A record as it was played, and its answer.
#[derive(Clone, Copy, Debug, Drop)]
pub struct Played {
    pub record: [u8; 4],
    pub answer: u32,
}

// The kinds of record that a turn searches.
#[derive(Clone, Copy)]
enum Searched {
    Deliver,
    Adopt,
    Cancel,
    Ask,
}

impl Searched {
    // How many records of the kind a turn tries.
    fn count(self, t: &SessionTables) -> usize
        ensures { (result ≡ count_of self t.now) × (result ≤ most_of self) }
    {
        let finishes = usize::from(t[Tables::FINISHES_MADE]);
        match self {
            Searched::Deliver => usize::from(Slot::COUNT),
            Searched::Adopt => finishes,
            Searched::Cancel => 8 * finishes,
            Searched::Ask => 64 * finishes,
        }
    }

    // Record i of the kind, in the order of their bytes.
    #[tactic(auto, unfolding(crate::specs::Turn::deliver_record, crate::specs::Turn::adopt_record, crate::specs::Turn::cancel_record, crate::specs::Turn::ask_record))]
    fn record(self, i: usize) -> [u8; 4]
        requires { i < most_of self }
        ensures { result ≡ records_of self i }
    {
        match self {
            Searched::Deliver => Action::Deliver { slot: i as u8 },
            Searched::Adopt => Action::Adopt {
                finish: (1 + i) as u8,
            },
            Searched::Cancel => Action::Cancel {
                finish: (1 + i / 8) as u8,
                dead_place: (i % 8) as u8,
            },
            Searched::Ask => Action::Ask {
                finish: (1 + i / 64) as u8,
                dead_place: (i / 8 % 8) as u8,
                live_place: (i % 8) as u8,
            },
        }
        .into()
    }
}

// Plays a record.
#[tactic(auto, unfolding(crate::specs::Played::played_on))]
pub fn play(t: &mut [u8], bytes: [u8; 4]) -> Played
    ensures played { result ≡ played_on t.old bytes }
    ensures tables { t.new ≡ after t.old bytes }
{
    let answer = finish::finish_step(t, &bytes);
    Played {
        record: bytes,
        answer,
    }
}

// The lowest record of a kind that is taken.
fn lowest_taken(t: &mut SessionTables, kind: Searched) -> Option<Played>
    ensures { Plays t.old (taken_or t.old (records_of kind) (count_of kind t.old) []) result t.new }
{
    for i in 0..kind.count(t) {
        let tried = play(t, kind.record(i));
        if tried.answer == 0 {
            return Some(tried);
        }
    }
    None
}

// The lowest adopt, cancel or ask that is taken.
fn repair(t: &mut SessionTables) -> Option<Played>
    ensures { Plays t.old (repair_or t.old []) result t.new }
{
    if let Some(adopt) = lowest_taken(t, Searched::Adopt) {
        return Some(adopt);
    }
    if let Some(cancel) = lowest_taken(t, Searched::Cancel) {
        return Some(cancel);
    }
    lowest_taken(t, Searched::Ask)
}

// A kill is planned, of a place that isn't 0, and the steps have reached it.
#[tactic(auto, unfolding(crate::specs::Turn::kill_reached, tables::specs::Walks::every))]
fn kill_reached(p: Plan, steps: u32) -> bool
    ensures { result ≡ kill_reached p steps }
{
    1 <= p.killstep && p.killstep <= steps && 1 <= p.victim
}

// The kill, where it is due.
fn due_kill(t: &mut SessionTables, p: Plan, steps: u32) -> Option<Played>
    requires { Playable p }
    ensures { Plays t.old (cond (kill_due p steps t.old) (kill_record p) []) result t.new }
{
    if !kill_reached(p, steps) {
        return None;
    }
    let victim = p.victim as u8;
    let kill = play(t, Action::Kill { place: victim }.into());
    if kill.answer != 0 {
        return None;
    }
    Some(kill)
}

// Task k's next act, as a record.
#[tactic(auto, using(tables::proofs::Tests::was_true, tables::proofs::Tests::was_false), unfolding(acts::specs::Acts::next_act))]
fn next_act(t: &SessionTables, p: Plan, k: u8) -> [u8; 4]
    requires { Playable p }
    ensures { result ≡ next_act p t.now k }
{
    if acts::spawns_more(t, p, k) {
        let to = acts::next_place(fields::task_byte(t, k, TaskField::At), p.places);
        return Action::Spawn { task: k, place: to }.into();
    }
    Action::End { task: k }.into()
}

// The lowest running task's next act.
fn act(t: &mut SessionTables, p: Plan) -> Option<Played>
    requires { Playable p }
    ensures { Plays t.old (act_of p t.old) result t.new }
{
    let k = acts::lowest_running(t)?;
    let record = next_act(t, p, k);
    Some(play(t, record))
}

// A turn: the kill, or a repair, or a delivery, or an act; or no step.
pub fn turn(t: &mut SessionTables, p: Plan, steps: u32) -> Option<Played>
    requires { Playable p }
    ensures { Plays t.old (turn_record p steps t.old) result t.new }
{
    if let Some(kill) = due_kill(t, p, steps) {
        return Some(kill);
    }
    if let Some(repair) = repair(t) {
        return Some(repair);
    }
    if let Some(delivery) = lowest_taken(t, Searched::Deliver) {
        return Some(delivery);
    }
    act(t, p)
}
