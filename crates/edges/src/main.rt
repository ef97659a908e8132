// The edges of the core's document that its proofs leave to a run, and every refusal number, each with the tables compared to a copy
// of what they were. The steps are the library script's, and the lines told's.
#![tactic(auto)]

ghost use Rattle.std.specs.Prelude.{◌≤◌, ◌<◌};

use std::io::{self, Write};
use tables::{SessionTables, Tables};
use told::Step;

fn step<W: Write>(out: &mut W, t: &mut SessionTables, number: u32) -> io::Result<()>
    requires { number < 1348 }
{
    script::spoil(t, number);
    let before = *t;
    let record = script::record(number);
    let answer = finish::finish_step(t, &record);
    let messages = finish::finish_messages_in_flight(t);
    told::tell(
        out,
        &Step {
            number,
            record,
            answer,
            messages,
            before: &before,
            after: t,
        },
    )
}

// A step on tables, or with a record, of another length.
fn other_lengths<W: Write>(
    out: &mut W,
    t: &mut [u8],
    before: &[u8],
    record: &[u8],
) -> io::Result<()> {
    let answer = finish::finish_step(t, record);
    told::tell_lengths(out, t.len(), record.len(), answer, &*t == before)
}

fn main(rt: HostRuntime) -> io::Result<()> {
    let mut out = rt.stdout();
    let mut t = [0; Tables::BYTES];
    for number in 0..script::STEPS {
        step(&mut out, &mut t, number)?;
    }
    other_lengths(
        &mut out,
        &mut [1; Tables::BYTES - 1],
        &[1; Tables::BYTES - 1],
        &[9, 3, 0, 0],
    )?;
    other_lengths(
        &mut out,
        &mut [1; Tables::BYTES],
        &[1; Tables::BYTES],
        &[9, 3, 0],
    )
}
