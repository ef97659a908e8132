// What a running task does next, read from the rows of tasks: its level and its children, the lowest that runs, the place that it spawns to.
#![tactic(auto)]

ghost use Rattle.std.specs.Prelude.{◌≡◌, ◌+◌, ◌%◌, ◌≤◌};
ghost use Rattle.rules.specs.Fields.{tasks_made};
ghost use Rattle.plan.specs.Tree.{level_of, children_of};
ghost use Rattle.acts.specs.Acts.{spawner, spawns_more, running_task};

use fields::{TaskField, TaskStatus};
use plan::Plan;
use tables::{SessionTables, Tables};

// Task k's level, counted to n + 1 at most.
#[tactic(auto, using(crate::proofs::Acts::level_first, crate::proofs::Acts::level_top, crate::proofs::Acts::level_more))]
fn level_of(t: &SessionTables, n: u32, k: u8) -> u32
    requires { n ≤ 5 }
    ensures { (result ≡ level_of (spawner t.now) n k) × (result ≤ n + 1) }
{
    if n == 0 {
        return 1;
    }
    let spawner = fields::task_byte(t, k, TaskField::Maker);
    if spawner == 0 {
        return 1;
    }
    1 + level_of(t, n - 1, spawner)
}

// How many tasks task k spawned.
fn children_of(t: &SessionTables, k: u8) -> usize
    ensures { result ≡ children_of (spawner t.now) (tasks_made t.now) k }
{
    (1..=t[Tables::TASKS_MADE])
        .filter(|j| fields::task_byte(t, *j, TaskField::Maker) == k)
        .count()
}

// Task k is below the last level and has not spawned all its children.
#[tactic(auto, unfolding(crate::specs::Acts::spawns_more, tables::specs::Walks::every))]
pub fn spawns_more(t: &SessionTables, p: Plan, k: u8) -> bool
    requires { p.levels ≤ 5 }
    ensures { result ≡ spawns_more p t.now k }
{
    level_of(t, p.levels, k) < p.levels && children_of(t, k) < p.width as usize
}

// The lowest running task.
pub fn lowest_running(t: &SessionTables) -> Option<u8>
    ensures { result ≡ running_task t.now }
{
    (1..=t[Tables::TASKS_MADE]).find(|k| fields::has_status(t, *k, TaskStatus::Running))
}

// Where a task at this place spawns its children.
pub fn next_place(at: u8, places: u32) -> u8
    requires { (1 ≤ places) × (places ≤ 8) }
    ensures { result ≡ (at + 1) % places }
{
    ((u32::from(at) + 1) % places) as u8
}
