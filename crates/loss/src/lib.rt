// What the loss of a place does to one row: a task, a finish, a store book, a local book, a slot.
#![tactic(auto)]

ghost use Rattle.std.specs.Prelude.{◌≡◌, [], ◌∷◌, ◌+◌, ◌≤◌, eqb, not, unwrap_or};
ghost use Rattle.tables.specs.Bytes.{byte, part, write};
ghost use Rattle.tables.specs.Walks.{every};
ghost use Rattle.rules.specs.Books.{column};
ghost use Rattle.rules.specs.Messages.{goes_to, message_in, store};
ghost use Rattle.rules.specs.Kill.{loses_task, kill_task, loses_finish, kill_finish, kill_book, kill_local, kill_slot};

use answers::Tag;
use fields::{FinishField, FinishStatus, TaskField, TaskStatus};
use square::Book;
use tables::{Place, SessionTables, Tables};

// A task is lost with place p: it runs or is blocked there, or it waits and is from there.
#[tactic(auto, unfolding(rules::specs::Kill::loses_task, tables::specs::Walks::every, tables::specs::Walks::some_of))]
fn loses_task(row: &[u8; 8], p: u8) -> bool
    ensures { result ≡ loses_task p (byte row.now 0) (byte row.now 1) (byte row.now 3) }
{
    let [from, at, _, status, ..] = *row;
    at == p && (status == TaskStatus::Running.into() || status == TaskStatus::Blocked.into())
        || from == p
            && (status == TaskStatus::WaitsForPublish.into()
                || status == TaskStatus::WaitsForTransit.into())
}

// The row of a task.
#[tactic(auto, unfolding(rules::specs::Kill::kill_task))]
pub fn kill_task(row: &mut [u8; 8], p: u8)
    ensures { row.new ≡ kill_task p row.old 0 }
{
    if loses_task(row, p) {
        row[TaskField::Status as usize] = TaskStatus::Lost.into();
    }
}

// A finish is lost with place p: it is homed there and not released.
#[tactic(auto, unfolding(rules::specs::Kill::loses_finish, tables::specs::Walks::every))]
fn loses_finish(row: &[u8; 8], p: u8) -> bool
    ensures { result ≡ loses_finish p (byte row.now 0) (byte row.now 3) }
{
    row[FinishField::Home as usize] == p
        && row[FinishField::Status as usize] != FinishStatus::Released.into()
}

// The row of a finish.
#[tactic(auto, unfolding(rules::specs::Kill::kill_finish))]
pub fn kill_finish(row: &mut [u8; 8], p: u8)
    ensures { row.new ≡ kill_finish p row.old 0 }
{
    if loses_finish(row, p) {
        row[FinishField::Status as usize] = FinishStatus::Lost.into();
    }
}

// A book is present, with a live count in column p.
#[tactic(auto, unfolding(tables::specs::Walks::every))]
fn falls_due(b: &Book, p: Place) -> bool
    ensures { result ≡ every (eqb (byte b.now 0) 1 ∷ not (eqb (column b.now p) 0) ∷ []) }
{
    b[Tables::PRESENT] == 1 && square::column_of(b, p) != 0
}

// A store book: adopt may fall due.
#[tactic(auto, unfolding(rules::specs::Kill::kill_book))]
pub fn kill_book(b: &mut Book, p: Place)
    ensures { b.new ≡ kill_book p b.old 0 }
{
    if falls_due(b, p) {
        b[Tables::ADOPT_DUE] = 1;
    }
}

// Local book y: that of place p becomes 0.
#[tactic(auto, unfolding(rules::specs::Kill::kill_local))]
pub fn kill_local(b: &mut [u8; 24], y: usize, p: usize)
    ensures { b.new ≡ kill_local p b.old y }
{
    if y % Tables::PLACES == p {
        *b = [0; 24];
    }
}

// The place where the message of a slot goes, by its tag; none: it goes to the store.
#[tactic(auto, using(crate::proofs::Goes::goes_in), unfolding(crate::proofs::Goes::goes_by_tag))]
fn goes_to(t: &SessionTables, slot: &[u8; 16]) -> Option<u8>
    ensures { unwrap_or result store ≡ goes_to t.now (message_in slot.now) }
{
    let [tag, finish, _, from, to, ..] = *slot;
    match Tag::try_from(tag) {
        Ok(Tag::Published | Tag::Release) => Some(fields::finish_byte(
            t,
            finish,
            FinishField::Home,
        )),
        Ok(Tag::Granted | Tag::Denied) => Some(from),
        Ok(Tag::Task | Tag::CountDropped) => Some(to),
        _ => None,
    }
}

// A slot: a message that goes to p vanishes.
#[tactic(auto, unfolding(rules::specs::Kill::kill_slot))]
pub fn kill_slot(t: &SessionTables, slot: &mut [u8; 16], p: Place)
    ensures { slot.new ≡ kill_slot t.now p slot.old 0 }
{
    if goes_to(t, slot) == Some(p.number()) {
        *slot = [0; 16];
    }
}

// The message of the slot at place `at` goes to p.
fn goes_to_place(t: &SessionTables, at: usize, p: Place) -> bool
    requires { at + 16 ≤ 15104 }
    ensures { result ≡ eqb (goes_to t.now (message_in (part t.now at 16))) p }
{
    goes_to(t, tables::part(t, at)) == Some(p.number())
}

// The slot at place `at`: a message that goes to p vanishes.
#[tactic(auto, using(crate::proofs::Goes::write_unchanged), unfolding(rules::specs::Kill::kill_slot))]
pub fn kill_slot_at(t: &mut SessionTables, at: usize, p: Place)
    requires { at + 16 ≤ 15104 }
    ensures { t.new ≡ write t.old at (kill_slot t.old p (part t.old at 16) 0) }
{
    if goes_to_place(t, at, p) {
        tables::clear_part(t, at, Tables::ROW * Tables::SLOT_ROWS);
    }
}

#[cfg(test)]
mod tests {
    use super::*;

    // The loss of place 2, which is the home of finish 3: a task goes to `to`, a denial to `from`, a release home, a report to the store.
    #[test]
    fn kills_a_lent_slot(rt: HostRuntime) {
        let mut t = [0; Tables::BYTES];
        t[Tables::finish(3)] = 2;
        for (tag, from, to, vanishes) in [
            (Tag::Task, 1, 2, true),
            (Tag::Task, 2, 1, false),
            (Tag::Denied, 2, 1, true),
            (Tag::Denied, 1, 2, false),
            (Tag::Release, 0, 0, true),
            (Tag::Report, 2, 2, false),
        ] {
            let mut full = [1; 16];
            full[0] = tag.into();
            full[1] = 3;
            full[3] = from;
            full[4] = to;
            let mut slot = full;
            kill_slot(&t, &mut slot, Place::new(2));
            assert_eq!(rt; slot, if vanishes { [0; 16] } else { full });
        }
    }
}
