// The steps of the program edges, numbered from 0: those that are told, and between them those that only fill the tables.
#![tactic(auto)]

ghost use Rattle.std.specs.Prelude.{◌≤◌, ◌<◌};

use tables::{SessionTables, Tables};

pub const STEPS: u32 = 1348;

// The place of finish 1's status.
const FINISH_1: usize = Tables::ROW * Tables::FIRST_FINISH + 3;

// The records that are told.
const TOLD: [[u8; Tables::RECORD]; 53] = [
    // spawn, task 1 to place 1, before any begin
    [1, 1, 1, 0],
    // begin 3, kill 1, spawn 1 1, and its messages
    [9, 3, 0, 0],
    [5, 1, 0, 0],
    [1, 1, 1, 0],
    [4, 0, 0, 0],
    [4, 0, 0, 0],
    [4, 0, 0, 0],
    [4, 0, 0, 0],
    // begin 2, spawn 1 1, its task on the wire; with 254 tasks made, one more, and another
    [9, 2, 0, 0],
    [1, 1, 1, 0],
    [4, 0, 0, 0],
    [4, 0, 0, 0],
    [4, 0, 0, 0],
    [4, 0, 0, 0],
    [1, 1, 1, 0],
    [4, 125, 0, 0],
    [4, 125, 0, 0],
    [1, 1, 1, 0],
    // begin 2; with 31 finishes made, one more, and another
    [9, 2, 0, 0],
    [2, 31, 0, 0],
    [2, 32, 0, 0],
    // begin 2, spawn 1 1, its task on the wire; with 128 messages in flight, one more; slot 77 delivered, and used again
    [9, 2, 0, 0],
    [1, 1, 1, 0],
    [4, 0, 0, 0],
    [4, 0, 0, 0],
    [4, 0, 0, 0],
    [4, 0, 0, 0],
    [1, 1, 1, 0],
    [4, 77, 0, 0],
    [1, 1, 1, 0],
    // begin 3; kind 0, kind 10, an operand that must be 0
    [9, 3, 0, 0],
    [0, 0, 0, 0],
    [10, 0, 0, 0],
    [1, 1, 1, 1],
    // a task not made, a place not in the session, slot 128, begin 1 and 9
    [1, 2, 1, 0],
    [1, 1, 3, 0],
    [4, 128, 0, 0],
    [9, 1, 0, 0],
    [9, 9, 0, 0],
    // the task's own place, place 0; an empty slot
    [1, 1, 0, 0],
    [5, 0, 0, 0],
    [4, 0, 0, 0],
    // spawn 1 1, its task running; kill 1, end task 1: its report is held while adopt is due
    [1, 1, 1, 0],
    [4, 0, 0, 0],
    [4, 0, 0, 0],
    [4, 0, 0, 0],
    [4, 0, 0, 0],
    [4, 0, 0, 0],
    [5, 1, 0, 0],
    [3, 1, 0, 0],
    [4, 0, 0, 0],
    // begin 3; with finish 1 lost, end task 1
    [9, 3, 0, 0],
    [3, 1, 0, 0],
];

// The told record of this number.
fn told_record(k: u32) -> [u8; Tables::RECORD]
    requires { k < 53 }
{
    TOLD[k as usize]
}

// Spawns, task 1 to place 1, each with two delivers that leave its task on the wire; their slots start at the first.
fn spawning(j: u32, first: u32) -> [u8; Tables::RECORD]
    requires { (j < 400) × (first < 2) }
{
    if j % 3 == 0 {
        return [1, 1, 1, 0];
    }
    [4, (first + j / 3) as u8, 0, 0]
}

// The record of a step. Those not told: tasks put on the wire in slots 1 to 127, delivered from slots 0 to 127, and put on the wire
// in slots 0 to 124; then tasks 1 to 30 open; then tasks put on the wire in slots 1 to 127.
pub fn record(i: u32) -> [u8; Tables::RECORD]
    requires { i < 1348 }
{
    match i {
        0..14 => told_record(i),
        14..395 => spawning(i - 14, 1),
        395..523 => [4, (i - 395) as u8, 0, 0],
        523..898 => spawning(i - 523, 0),
        898..903 => told_record(i - 884),
        903..933 => [2, (i - 902) as u8, 0, 0],
        933..941 => told_record(i - 914),
        941..1322 => spawning(i - 941, 1),
        _ => told_record(i - 1295),
    }
}

// Whether a step is told.
pub fn is_told(i: u32) -> bool {
    !matches!(i, 14..898 | 903..933 | 941..1322)
}

// Before the last step: finish 1 lost, its main task running, as no begin leads to.
pub fn spoil(t: &mut SessionTables, i: u32) {
    if i == STEPS - 1 {
        t[FINISH_1] = 5;
    }
}
