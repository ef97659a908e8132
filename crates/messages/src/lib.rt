// The 128 slots: the lowest empty one, a message written, and what is in flight; with it, the tasks that run.
#![tactic(auto)]

ghost use Rattle.std.specs.Prelude.{false, ◌≡◌, drop, ◌*◌, ◌<◌};
ghost use Rattle.tables.specs.Bytes.{part, write};
ghost use Rattle.tables.specs.Layout.{task_row};
ghost use Rattle.rules.specs.Messages.{none, report, message, no_counts, slot_place, from_slot, send, is_empty, lowest_empty, slots_full};
ghost use Rattle.rules.specs.Quiet.{is_running, running_tasks, messages_in_flight};
ghost use Rattle.answers.specs.Answers.{tag_number};
ghost use Rattle.messages.specs.Found.{found_at};

use answers::Tag;
use fields::TaskStatus;
use tables::{Finish, Place, SessionTables, Slot, Tables};

// A message's fields beside its tag and counts; those that a tag does not use are 0.
#[derive(Clone, Copy, Default)]
pub struct Fields {
    pub finish: u8,
    pub task: u8,
    pub from: u8,
    pub to: u8,
    pub number: u8,
}

// What tags 3 to 6, 10 and 11 name: a finish, a task, and the places that it is from and goes to.
#[derive(Clone, Copy)]
pub struct Route {
    pub finish: Finish,
    pub task: u8,
    pub from: Place,
    pub to: Place,
}

impl Route {
    // The fields of a message that names these, with a number.
    pub fn fields(self, number: u8) -> Fields
        ensures { result ≡ record { finish = self.finish; task = self.task; from = self.from; to = self.to; number = number } }
    {
        Fields {
            finish: self.finish.number(),
            task: self.task,
            from: self.from.number(),
            to: self.to.number(),
            number,
        }
    }
}

// Tag 0 is empty.
pub fn is_empty(t: &SessionTables, s: Slot) -> bool
    ensures { result ≡ is_empty (from_slot t.now s) s }
{
    t[Tables::slot(s)] == 0
}

// The lowest empty slot.
#[tactic(auto, using(crate::proofs::Slots::seeking))]
pub fn lowest_empty(t: &SessionTables) -> Option<Slot>
    ensures { result ≡ found_at (lowest_empty t.now) }
{
    let mut n = 0;
    loop {
        if n == Slot::COUNT {
            break None;
        }
        let s = Slot::new(n);
        if is_empty(t, s) {
            break Some(s);
        }
        n += 1;
    }
}

// The first row of slot s: tag, finish, task, from, to and number in columns 0 to 5.
pub fn head_at(t: &SessionTables, s: Slot) -> [u8; 8]
    ensures row { result ≡ part (from_slot t.now s) 0 8 }
    ensures there { s < 128 }
{
    *tables::part(t, Tables::slot(s))
}

// The counts of slot s.
pub fn counts_at(t: &SessionTables, s: Slot) -> [u8; 8]
    ensures { result ≡ part (from_slot t.now s) 8 8 }
{
    *tables::part(t, Tables::slot(s) + Tables::ROW)
}

// Writes a message with no counts in slot s.
pub fn put(t: &mut SessionTables, s: Slot, tag: Tag, m: Fields)
    ensures { t.new ≡ write t.old (slot_place s) (message (tag_number tag) m.finish m.task m.from m.to m.number no_counts) }
{
    let row = [
        tag.into(),
        m.finish,
        m.task,
        m.from,
        m.to,
        m.number,
        0,
        0,
        0,
        0,
        0,
        0,
        0,
        0,
        0,
        0,
    ];
    tables::put_part(t, Tables::slot(s), &row);
}

// Writes a report in slot s.
pub fn put_report(t: &mut SessionTables, s: Slot, finish: u8, from: u8, counts: [u8; 8])
    ensures { t.new ≡ send t.old s (report finish from counts) }
{
    let at = Tables::slot(s);
    tables::put_part(t, at, &[Tag::Report.into(), finish, 0, from, 0, 0, 0, 0]);
    tables::put_part(t, at + Tables::ROW, &counts);
}

// Empties slot s.
pub fn empty_slot(t: &mut SessionTables, s: Slot)
    ensures { t.new ≡ send t.old s none }
{
    tables::clear_part(t, Tables::slot(s), 16);
}

// How many messages are in flight.
pub fn messages_in_flight(t: &SessionTables) -> u32
    ensures { result ≡ messages_in_flight t.now }
{
    let mut full = 0;
    for n in 0..Slot::COUNT {
        full += u32::from(!is_empty(t, Slot::new(n)));
    }
    full
}

// Task k runs.
fn is_running(t: &SessionTables, k: u8) -> bool
    ensures { result ≡ is_running (drop (8 * task_row k) t.now) k }
{
    fields::has_status(t, k, TaskStatus::Running)
}

// How many made tasks run.
pub fn running_tasks(t: &SessionTables) -> u32
    ensures { result ≡ running_tasks t.now }
{
    let mut running = 0;
    for made in 0..t[Tables::TASKS_MADE] {
        running += u32::from(is_running(t, made + 1));
    }
    running
}

// All 128 slots are full.
pub fn slots_full(t: &SessionTables) -> bool
    ensures { result ≡ slots_full t.now }
{
    lowest_empty(t).is_none()
}

// The lowest empty slot, where there is one.
pub fn free_slot(t: &SessionTables) -> Slot
    requires { slots_full t.now ≡ false }
    ensures { lowest_empty t.now ≡ result }
{
    lowest_empty(t).unwrap()
}
