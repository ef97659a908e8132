// How the program edges tells its steps, a line each: the record, the answer, and whether the tables are what they were before the
// step; then tasks made, finishes made, messages in flight, the tags in slots 0 and 77, and the statuses of tasks 1 and 2.
#![tactic(auto)]

ghost use Rattle.std.specs.Prelude.{◌≡◌, OnOk};
ghost use Rattle.std.specs.Io.KnownBytes.{Appends};
ghost use Rattle.told.specs.Lines.{same_word, answer_words, count_words, field_words, lengths_line};

use std::io::{self, Write};
use tables::{SessionTables, Tables};

// The places of the fields that a line tells: the counts in row 0, the tags in slots 0 and 77, the statuses of tasks 1 and 2.
const TASKS_MADE: usize = 2;

const FINISHES_MADE: usize = 3;

const TAG_0: usize = Tables::ROW * Tables::FIRST_SLOT;

const TAG_77: usize = Tables::ROW * (Tables::FIRST_SLOT + Tables::SLOT_ROWS * 77);

const STATUS_1: usize = Tables::ROW + 3;

const STATUS_2: usize = Tables::ROW * 2 + 3;

// What a step's line tells: its number, its record, its answer and the messages in flight, and the tables before and after it.
#[derive(Clone, Copy)]
pub struct Step<'a> {
    pub number: u32,
    pub record: [u8; Tables::RECORD],
    pub answer: u32,
    pub messages: u32,
    pub before: &'a SessionTables,
    pub after: &'a SessionTables,
}

// The heading of the section that a step starts.
fn heading(number: u32) -> Option<&'static str> {
    match number {
        0 => Some("spawn before any begin"),
        1 => Some("spawn to a dead place"),
        8 => Some("255 tasks"),
        902 => Some("32 finishes"),
        935 => Some("128 messages"),
        1325 => Some("refusals"),
        1337 => Some("a held message"),
        1346 => Some("finish 1 lost"),
        _ => None,
    }
}

// Whether the tables are what they were.
fn word_of(same: bool) -> &'static str
    ensures { result.now ≡ same_word same }
{
    if same { "same" } else { "new" }
}

// A record, its answer, and whether the tables are what they were.
fn tell_answer<W: Write>(
    out: &mut W,
    bytes: [u8; Tables::RECORD],
    answer: u32,
    same: bool,
) -> io::Result<()>
    ensures { OnOk result (Appends (W.contents out.old) (W.contents out.new) (answer_words bytes answer same)) }
{
    let [kind, a, b, c] = bytes;
    let word = word_of(same);
    write!(out, "{kind} {a} {b} {c} = {answer} {word}; ")
}

// Tasks made, finishes made, messages in flight.
fn tell_counts<W: Write>(out: &mut W, tasks: u8, finishes: u8, messages: u32) -> io::Result<()>
    ensures { OnOk result (Appends (W.contents out.old) (W.contents out.new) (count_words tasks finishes messages)) }
{
    write!(out, "{tasks} {finishes} {messages} ")
}

// Two tags and two statuses.
fn tell_fields<W: Write>(out: &mut W, first: u8, second: u8, one: u8, two: u8) -> io::Result<()>
    ensures { OnOk result (Appends (W.contents out.old) (W.contents out.new) (field_words first second one two)) }
{
    writeln!(out, "{first} {second} {one} {two}")
}

// The line of a step.
fn tell_line<W: Write>(out: &mut W, step: &Step) -> io::Result<()> {
    let t = step.after;
    tell_answer(out, step.record, step.answer, t == step.before)?;
    tell_counts(out, t[TASKS_MADE], t[FINISHES_MADE], step.messages)?;
    tell_fields(out, t[TAG_0], t[TAG_77], t[STATUS_1], t[STATUS_2])
}

// Tells a step: the columns above the first, the heading where a section starts, and its line.
pub fn tell<W: Write>(out: &mut W, step: &Step) -> io::Result<()> {
    if step.number == 0 {
        writeln!(
            out,
            "kind a b c = answer; tasks finishes messages, tags 0 77, status 1 2"
        )?;
    }
    if !script::is_told(step.number) {
        return Ok(());
    }
    if let Some(heading) = heading(step.number) {
        writeln!(out, "{heading}")?;
    }
    tell_line(out, step)
}

// Tells a step on tables and a record of these lengths.
pub fn tell_lengths<W: Write>(
    out: &mut W,
    tables: usize,
    record: usize,
    answer: u32,
    same: bool,
) -> io::Result<()>
    ensures { OnOk result (Appends (W.contents out.old) (W.contents out.new) (lengths_line tables «record» answer same)) }
{
    let word = word_of(same);
    writeln!(out, "lengths {tables} {record} = {answer} {word}")
}
