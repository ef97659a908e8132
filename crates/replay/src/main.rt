// The printed run: plays a schedule from standard input, of any length, on tables that start as zeros; a line for each record, then
// the running tasks, the status of finish 1 and the messages in flight.
#![tactic(auto)]

ghost use Rattle.std.specs.Prelude.{◌≡◌, ◌+◌, ◌^◌, ◌≤◌, ◌<◌, length, OnOk};
ghost use Rattle.std.specs.Io.KnownBytes.{Appends};
ghost use Rattle.arrayvec.specs.ArrayString.{array_string_len};
ghost use Rattle.lines.specs.Lines.{short_line};

use arrayvec::ArrayString;
use std::io::{self, Read, Write};
use tables::{SessionTables, Tables};

// Plays the whole records of a part of a schedule, the first of them with this number, and puts their lines into an empty text.
fn play(t: &mut SessionTables, schedule: &[u8], first: u64, out: &mut ArrayString<65536>)
    requires inside { (length schedule.now ≤ 4096) × (array_string_len out.old ≡ 0) }
    requires in_range { first + 1024 < 2 ^ 64 }
{
    for i in 0..schedule.len() / Tables::RECORD {
        let at = Tables::RECORD * i;
        let answer = finish::step_at(t, schedule, at);
        lines::put_line(out, first + i as u64, schedule[at], answer);
    }
}

// Says a last incomplete record, of this number.
fn say_short<W: Write>(out: &mut W, number: u64) -> io::Result<()>
    ensures { OnOk result (Appends (W.contents out.old) (W.contents out.new) (short_line number)) }
{
    writeln!(out, "{number} short")
}

// A turn: reads up to 1,024 records, plays them and writes their lines. A turn that was not full is the last, and the end is said: a
// last incomplete record, and the counts. Answers whether another turn follows.
fn play_some<R: Read, W: Write>(
    input: &mut R,
    output: &mut W,
    t: &mut SessionTables,
    first: u64,
) -> io::Result<bool>
    requires { first + 1024 < 2 ^ 64 }
{
    let mut schedule = [0u8; 4096];
    let n = lines::read_full(input, &mut schedule)?;
    let mut text = ArrayString::new();
    play(t, &schedule[..n], first, &mut text);
    output.write_all(text.as_str().as_bytes())?;
    if n == schedule.len() {
        return Ok(true);
    }
    if n % Tables::RECORD != 0 {
        say_short(output, first + (n / Tables::RECORD) as u64)?;
    }
    let running = finish::finish_running_tasks(t);
    let status = finish::finish_status(t, 1);
    let messages = finish::finish_messages_in_flight(t);
    lines::say_end(output, running, status, messages)?;
    Ok(false)
}

// The turns are counted to a number that no run reaches: a proved loop ends, and nothing says that the input does.
fn main(rt: HostRuntime) -> io::Result<()> {
    let mut input = rt.stdin();
    let mut output = rt.stdout();
    let mut t = [0; Tables::BYTES];
    for turn in 0..1125899906842624u64 {
        if !play_some(&mut input, &mut output, &mut t, 1 + 1024 * turn)? {
            break;
        }
    }
    Ok(())
}
