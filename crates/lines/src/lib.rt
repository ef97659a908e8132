// The lines of the programs: a record's of the printed run and a step's of a tree, put behind a text; a line read; the one that says
// the end.
#![tactic(auto)]

ghost use Rattle.std.specs.Prelude.{◌≡◌, ◌+◌, ◌*◌, ◌≤◌, ◌++◌, length, IfOk, OnErr, OnOk};
ghost use Rattle.std.specs.Io.KnownBytes.{Appends};
ghost use Rattle.io.specs.Counts.{IsPrefixLen};
ghost use Rattle.arrayvec.specs.ArrayString.{array_string_len};
ghost use Rattle.lines.specs.Lines.{record_line, step_line, step_lines, end_line};

use arrayvec::ArrayString;
use itoa::{Buffer, Integer};
use std::io::{self, Read, Write};

// Puts a number and what ends it, a space or a line end.
fn put_word<I: Integer, const N: usize>(out: &mut ArrayString<N>, n: I, end: &str)
    requires { array_string_len out.old + I.MAX_STR_LEN + length end.now ≤ N }
    ensures written { out.new.bytes ≡ out.old.bytes ++ (I.text n ++ end.now) }
    ensures most { array_string_len out.new ≤ array_string_len out.old + I.MAX_STR_LEN + length end.now }
{
    let mut digits = Buffer::new();
    out.push_str(digits.format(n));
    out.push_str(end);
}

// Puts the line of a record: its number, its kind, its answer.
pub fn put_line<const N: usize>(out: &mut ArrayString<N>, number: u64, kind: u8, answer: u32)
    requires { array_string_len out.old + 63 ≤ N }
    ensures written { out.new.bytes ≡ out.old.bytes ++ record_line number kind answer }
    ensures most { array_string_len out.new ≤ array_string_len out.old + 63 }
{
    put_word(out, number, " ");
    put_word(out, kind, " ");
    put_word(out, answer, "\n");
}

// Puts the line of a step: the record's four numbers and the answer.
#[tactic(auto, using(crate::proofs::Steps::words_put))]
fn put_step<const N: usize>(out: &mut ArrayString<N>, step: &[u8; 5])
    requires { array_string_len out.old + 20 ≤ N }
    ensures written { out.new.bytes ≡ out.old.bytes ++ step_line step.now 0 }
    ensures most { array_string_len out.new ≤ array_string_len out.old + 20 }
{
    put_word(out, step[0], " ");
    put_word(out, step[1], " ");
    put_word(out, step[2], " ");
    put_word(out, step[3], " ");
    put_word(out, step[4], "\n");
}

// Puts the lines of the first n steps of a log.
pub fn put_steps<const N: usize>(out: &mut ArrayString<N>, log: &[u8], n: usize)
    requires { (array_string_len out.old + 20 * n ≤ N) × (5 * n ≤ length log.now) }
    ensures { out.new.bytes ≡ out.old.bytes ++ step_lines log.now n }
{
    for i in 0..n {
        put_step(out, tables::part(log, 5 * i));
    }
}

// Reads a line, byte by byte, so that nothing after it is read: up to its newline, which is left out, or to the end of the input, or as
// many bytes as the buffer holds. Answers how many there are.
pub fn read_line<R: Read>(input: &mut R, line: &mut [u8]) -> io::Result<usize>
    ensures ok { IfOk result (λ n. IsPrefixLen n line.new) }
    ensures err { OnErr result (length line.new ≡ length line.old) }
{
    for n in 0..line.len() {
        let mut one = [0u8; 1];
        if input.read(&mut one)? == 0 || one[0] == b'\n' {
            return Ok(n);
        }
        line[n] = one[0];
    }
    Ok(line.len())
}

// Reads until the buffer is full or the input ends, and answers how many bytes there are.
pub fn read_full<R: Read>(input: &mut R, buf: &mut [u8]) -> io::Result<usize>
    ensures ok { IfOk result (λ n. IsPrefixLen n buf.new) }
    ensures err { OnErr result (length buf.new ≡ length buf.old) }
{
    let mut n = 0;
    while n < buf.len() {
        let more = input.read(&mut buf[n..])?;
        if more == 0 {
            break;
        }
        n += more;
    }
    Ok(n)
}

// Says the last line: of the printed run its running tasks, the status of finish 1 and the messages in flight; of a tree its steps,
// kills and zero answers.
pub fn say_end<W: Write>(out: &mut W, a: u32, b: u32, c: u32) -> io::Result<()>
    ensures { OnOk result (Appends (W.contents out.old) (W.contents out.new) (end_line a b c)) }
{
    writeln!(out, "end {a} {b} {c}")
}
