// The run of a plan: the begin, then turn after turn until a turn has no step. Each step is noted: five bytes in a log, and the tally.
#![tactic(auto)]

ghost use Rattle.std.specs.Prelude.{true, [], ◌∷◌, ◌++◌, ◌≡◌, ◌*◌, ◌≤◌, ◌<◌, eqb, length};
ghost use Rattle.tables.specs.Bytes.{byte, write};
ghost use Rattle.plan.specs.Plan.{fits};
ghost use Rattle.turns.specs.Played.{Plays};
ghost use Rattle.tally.specs.Tally.{noted};
ghost use Rattle.run.specs.Run.{step_record, Ran};

use actions::Action;
use plan::Plan;
use tables::SessionTables;
use tally::Tally;
use turns::Played;

// The bytes of a log that has room for every run: five for each of 2,089 steps.
pub const LOG: usize = 10445;

// Notes a step: its five bytes behind those of the steps before, and its count; kind 5 is a kill.
fn note_step(log: &mut [u8], tally: &mut Tally, step: Played)
    requires room { (tally.old.steps < 2089) × (LOG ≤ length log.old) }
    requires is_byte { step.answer < 256 }
    ensures tally { tally.new ≡ noted tally.old (eqb (byte step.record 0) 5) step.answer }
    ensures log { log.new ≡ write log.old (5 * tally.old.steps) (step.record ++ (step.answer ∷ [])) }
{
    let [kind, a, b, c] = step.record;
    let bytes = [kind, a, b, c, step.answer as u8];
    tables::put_part(log, 5 * tally.steps as usize, &bytes);
    tally.note(kind == Action::KILL, step.answer);
}

// Plays the step after so many: the begin first, then turn after turn.
#[tactic(auto, using(crate::proofs::Running::playable, crate::proofs::Running::places_fit))]
fn next_step(t: &mut SessionTables, p: Plan, steps: u32) -> Option<Played>
    requires { fits p ≡ true }
    ensures { Plays t.old (step_record p steps t.old) result t.new }
{
    if steps == 0 {
        return Some(turns::play(t, Action::Begin { places: p.places }.into()));
    }
    turns::turn(t, p, steps)
}

// Grows the whole tree of a plan.
pub fn grow(t: &mut SessionTables, log: &mut [u8], p: Plan) -> Tally
    requires { (fits p ≡ true) × (LOG ≤ length log.old) }
    ensures { Ran p t.old t.new log.old log.new result }
{
    let mut tally = Tally::default();
    while let Some(step) = next_step(t, p, tally.steps) {
        note_step(log, &mut tally, step);
    }
    tally
}
