// The entries that host firmware calls: a step, a begin, and what can be read of the tables. Any bytes, any lengths, any numbers.
#![tactic(auto)]

ghost use Rattle.std.specs.Prelude.{◌≡◌, [], ◌∷◌, length, ℕ};
ghost use Rattle.std.specs.Fn.{FnOnceReturnsAt};
ghost use Rattle.tables.specs.Bytes.{part};
ghost use Rattle.tables.specs.Bits.{digit};
ghost use Rattle.rules.specs.Refusals.{answer};
ghost use Rattle.rules.specs.Step.{after};
ghost use Rattle.rules.specs.Quiet.{running_tasks, messages_in_flight, quiet};
ghost use Rattle.finish.specs.Readings.{reading, status_of};

use answers::Refusal;
use fields::FinishField;
use tables::{SessionTables, Tables};

// What a reading answers where the tables have another length: outside the range of every reading.
const NO_READING: u32 = 4294967295;

// Takes the step of a record, or refuses it and changes nothing; answers 0 or the number that refuses.
pub fn finish_step(t: &mut [u8], action: &[u8]) -> u32
    ensures { (result ≡ answer t.old action.now) × (t.new ≡ after t.old action.now) }
{
    let Some(tables) = t.as_mut_array() else {
        return Refusal::WrongLength.into();
    };
    let Ok(record) = <[u8; Tables::RECORD]>::try_from(action) else {
        return Refusal::WrongLength.into();
    };
    answers::number_of(actions::act_on(tables, record))
}

// The same for the record that starts at a place of a schedule: four bytes from its middle, or the fewer that are left.
pub fn step_at(t: &mut [u8], schedule: &[u8], at: usize) -> u32
    ensures { (result ≡ answer t.old (part schedule.now at 4)) × (t.new ≡ after t.old (part schedule.now at 4)) }
{
    let Some(rest) = schedule.get(at..) else {
        return Refusal::WrongLength.into();
    };
    if rest.len() < Tables::RECORD {
        return Refusal::WrongLength.into();
    }
    finish_step(t, &rest[..Tables::RECORD])
}

// Begins a session of so many places; the tables need not be sound.
pub fn finish_begin(t: &mut [u8], places: u32) -> u32
    ensures { (result ≡ answer t.old (9 ∷ places ∷ 0 ∷ 0 ∷ [])) × (t.new ≡ after t.old (9 ∷ places ∷ 0 ∷ 0 ∷ [])) }
{
    let Some(tables) = t.as_mut_array() else {
        return Refusal::WrongLength.into();
    };
    answers::number_of(actions::begin_action(tables, places))
}

// A reading of tables of the right length.
fn read<F: FnOnce(&SessionTables) -> u32>(t: &[u8], f: F) -> u32
    requires { F.IsAlwaysCallable f }
    ensures { (n : ℕ) → (length t.now ≡ 15104 → FnOnceReturnsAt F.FnOnce f t.now result → result ≡ n) → result ≡ reading t.now n }
{
    match <&SessionTables>::try_from(t) {
        Ok(tables) => f(tables),
        Err(_) => NO_READING,
    }
}

// How many tasks run.
pub fn finish_running_tasks(t: &[u8]) -> u32
    ensures { result ≡ reading t.now (running_tasks t.now) }
{
    read(t, messages::running_tasks)
}

// How many messages are in flight.
pub fn finish_messages_in_flight(t: &[u8]) -> u32
    ensures { result ≡ reading t.now (messages_in_flight t.now) }
{
    read(t, messages::messages_in_flight)
}

// The status in the row of a finish of the session tables; 0 for any other number.
fn status_of(t: &SessionTables, finish: u32) -> u32
    ensures { result ≡ status_of t.now finish }
{
    match finish {
        1..=32 => u32::from(fields::finish_byte(t, finish as u8, FinishField::Status)),
        _ => 0,
    }
}

// The status in the row of a finish, 1 to 32; 0 for any other number.
pub fn finish_status(t: &[u8], finish: u32) -> u32
    ensures { result ≡ reading t.now (status_of t.now finish) }
{
    read(
        t,
        |tables: &SessionTables| -> u32
            ensures { result ≡ status_of tables.now finish }
        { status_of(tables, finish) },
    )
}

// The quiet test of the session tables as a number.
fn quiet_one(t: &SessionTables) -> u32
    ensures { result ≡ digit (quiet t.now) }
{
    u32::from(quiet::is_quiet(t))
}

// 1 where no message is in flight, no book is under repair and no count is owed, else 0.
pub fn finish_quiet(t: &[u8]) -> u32
    ensures { result ≡ reading t.now (digit (quiet t.now)) }
{
    read(t, quiet_one)
}
