// The fields of row 0, tasks and finishes by name, and what is asked of them: made, in the session, main, about to run.
#![tactic(auto, unfolding(rules::specs::Fields::task_made, rules::specs::Fields::finish_made, rules::specs::Fields::in_session, rules::specs::Fields::is_main, rules::specs::Fields::may_run, rules::specs::Fields::runs, tables::specs::Walks::every))]

ghost use Rattle.std.specs.Prelude.{◌≡◌, ◌≤◌, eqb, set};
ghost use Rattle.tables.specs.Bytes.{byte};
ghost use Rattle.tables.specs.Layout.{place, task_row, finish_row};
ghost use Rattle.rules.specs.Fields.{places, finishes_made, task_status, finish_status, home, dead, task_made, finish_made, in_session, is_main, may_run, runs, with_task_status, with_finish_status, with_published};
ghost use Rattle.fields.specs.Numbers.{task_column, finish_column, task_number, finish_number, given};

use tables::{Finish, Place, SessionTables, Tables};

// The fields of a task's row.
#[derive(Clone, Copy, Debug, PartialEq, Eq, Drop)]
pub enum TaskField {
    From = 0,
    At = 1,
    Finish = 2,
    Status = 3,
    Sent = 4,
    Maker = 5,
}

// The fields of a finish's row.
#[derive(Clone, Copy, Debug, PartialEq, Eq, Drop)]
pub enum FinishField {
    Home = 0,
    Opener = 1,
    Parent = 2,
    Status = 3,
    Published = 4,
    Main = 5,
}

// A task's status.
#[derive(Clone, Copy, Debug, PartialEq, Eq, Drop)]
pub enum TaskStatus {
    WaitsForPublish = 1,
    WaitsForTransit = 2,
    OnTheWire = 3,
    Dropped = 4,
    Running = 5,
    Blocked = 6,
    Ended = 7,
    Lost = 8,
}

// A finish's status.
#[derive(Clone, Copy, Debug, PartialEq, Eq, Drop)]
pub enum FinishStatus {
    Active = 1,
    Publishing = 2,
    WaitsForRelease = 3,
    Released = 4,
    Lost = 5,
}

impl From<TaskStatus> for u8 {
    ghost from_gives = { λ status number. number ≡ task_number status };

    fn from(status: TaskStatus) -> u8 {
        status as u8
    }
}

impl From<FinishStatus> for u8 {
    ghost from_gives = { λ status number. number ≡ finish_number status };

    fn from(status: FinishStatus) -> u8 {
        status as u8
    }
}

// A field of task k.
pub fn task_byte(t: &SessionTables, k: u8, field: TaskField) -> u8
    ensures { result ≡ byte t.now (place (task_row k) (task_column field)) }
{
    t[Tables::task(k) + field as usize]
}

// A field of finish f.
pub fn finish_byte(t: &SessionTables, f: u8, field: FinishField) -> u8
    ensures { result ≡ byte t.now (place (finish_row f) (finish_column field)) }
{
    t[Tables::finish(f) + field as usize]
}

// Task k was made.
pub fn task_made(t: &SessionTables, k: u8) -> bool
    ensures { result ≡ task_made t.now k }
{
    1 <= k && k <= t[Tables::TASKS_MADE]
}

// Finish f was made.
pub fn finish_made(t: &SessionTables, f: u8) -> bool
    ensures { result ≡ finish_made t.now f }
{
    1 <= f && f <= t[Tables::FINISHES_MADE]
}

// Place p is in the session.
pub fn in_session(t: &SessionTables, p: u8) -> bool
    ensures { result ≡ in_session t.now p }
{
    p < t[Tables::SESSION_PLACES]
}

// The finish of this number, where it was made.
pub fn made_finish(t: &SessionTables, f: u8) -> Option<Finish>
    requires { finishes_made t.now ≤ 32 }
    ensures { result ≡ given (finish_made t.now f) f }
{
    if finish_made(t, f) {
        Some(Finish::new(f))
    } else {
        None
    }
}

// The place of this number, where it is in the session.
pub fn session_place(t: &SessionTables, p: u8) -> Option<Place>
    requires { places t.now ≤ 8 }
    ensures { result ≡ given (in_session t.now p) p }
{
    if in_session(t, p) {
        Some(Place::new(p))
    } else {
        None
    }
}

// Place p is dead.
pub fn is_dead(t: &SessionTables, p: u8) -> bool
    ensures { result ≡ dead t.now p }
{
    tables::is_marked(t[Tables::DEAD_MASK], p)
}

// The home of finish f is dead.
pub fn home_dead(t: &SessionTables, f: u8) -> bool
    ensures { result ≡ dead t.now (home t.now f) }
{
    is_dead(t, finish_byte(t, f, FinishField::Home))
}

// Task k has this status.
pub fn has_status(t: &SessionTables, k: u8, status: TaskStatus) -> bool
    ensures { result ≡ eqb (task_status t.now k) (task_number status) }
{
    task_byte(t, k, TaskField::Status) == status.into()
}

// Finish f has this status.
pub fn finish_has(t: &SessionTables, f: u8, status: FinishStatus) -> bool
    ensures { result ≡ eqb (finish_status t.now f) (finish_number status) }
{
    finish_byte(t, f, FinishField::Status) == status.into()
}

// Task k is a main task.
pub fn is_main(t: &SessionTables, k: u8) -> bool
    ensures { result ≡ is_main t.now k }
{
    task_byte(t, k, TaskField::Sent) == 0
}

// An opener or spawner about to run is blocked, or there is none.
pub fn may_run(t: &SessionTables, k: u8) -> bool
    ensures { result ≡ may_run t.now k }
{
    k == 0 || has_status(t, k, TaskStatus::Blocked)
}

// Sets the status of task k.
pub fn put_status(t: &mut SessionTables, k: u8, status: TaskStatus)
    ensures { t.new ≡ with_task_status t.old k (task_number status) }
{
    t[Tables::task(k) + TaskField::Status as usize] = status.into();
}

// Task k runs; 0 is none, and nothing runs.
pub fn wake(t: &mut SessionTables, k: u8)
    ensures { t.new ≡ runs t.old k }
{
    if k != 0 {
        put_status(t, k, TaskStatus::Running);
    }
}

// Sets the status of finish f.
pub fn put_finish_status(t: &mut SessionTables, f: u8, status: FinishStatus)
    ensures { t.new ≡ with_finish_status t.old f (finish_number status) }
{
    t[Tables::finish(f) + FinishField::Status as usize] = status.into();
}

// Finish f is published.
pub fn put_published(t: &mut SessionTables, f: u8)
    ensures { t.new ≡ with_published t.old f }
{
    t[Tables::finish(f) + FinishField::Published as usize] = 1;
}

// Sets the number of tasks made.
pub fn put_tasks_made(t: &mut SessionTables, n: u8)
    ensures { t.new ≡ set t.old 2 n }
{
    t[Tables::TASKS_MADE] = n;
}

// Sets the number of finishes made.
pub fn put_finishes_made(t: &mut SessionTables, n: u8)
    ensures { t.new ≡ set t.old 3 n }
{
    t[Tables::FINISHES_MADE] = n;
}
