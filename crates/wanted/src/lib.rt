// What refuses the deliver of a message: held, or a status or a count that is wanted and not found; tag by tag.
#![tactic(auto, unfolding(crate::specs::Says::deliver_says, rules::specs::Deliver::held, rules::specs::Deliver::discarded, rules::specs::Deliver::waits_for_repair, rules::specs::Deliver::deliver_wanted, rules::specs::Deliver::fits, rules::specs::Messages::goes_to, rules::specs::Refusals::first_of, tables::specs::Walks::every, tables::specs::Walks::some_of, tables::specs::Bits::marked))]

ghost use Rattle.std.specs.Prelude.{◌≡◌, cond};
ghost use Rattle.rules.specs.Fields.{task_maker, opener, may_run};
ghost use Rattle.rules.specs.Messages.{publish, published, transit, granted, denied, task, report, release, ghost_ended, count_dropped, dropped};
ghost use Rattle.answers.specs.Answers.{number_of};
ghost use Rattle.wanted.specs.Says.{deliver_says};

use answers::Refusal;
use fields::{FinishField, FinishStatus, TaskField, TaskStatus};
use messages::Route;
use tables::{Finish, Place, SessionTables};

// Refused as unwanted, where what is wanted does not hold.
fn want(holds: bool) -> Result<(), Refusal>
    ensures { number_of result ≡ cond holds 0 9 }
{
    if holds {
        Ok(())
    } else {
        Err(Refusal::Unwanted)
    }
}

// The spawner of k may run.
fn maker_may_run(t: &SessionTables, k: u8) -> bool
    ensures { result ≡ may_run t.now (task_maker t.now k) }
{
    fields::may_run(t, fields::task_byte(t, k, TaskField::Maker))
}

// The opener of f may run.
fn opener_may_run(t: &SessionTables, f: u8) -> bool
    ensures { result ≡ may_run t.now (opener t.now f) }
{
    fields::may_run(t, fields::finish_byte(t, f, FinishField::Opener))
}

// 1 publish.
pub fn publish_says(t: &SessionTables, f: Finish, k: u8) -> Result<(), Refusal>
    ensures { number_of result ≡ deliver_says t.now (publish f k) }
{
    let n = f.number();
    want(
        fields::home_dead(t, n)
            || fields::finish_has(t, n, FinishStatus::Publishing) && counts::book_absent(t, f),
    )
}

// 2 published.
pub fn published_says(t: &SessionTables, f: Finish, k: u8) -> Result<(), Refusal>
    ensures { number_of result ≡ deliver_says t.now (published f k) }
{
    let n = f.number();
    want(
        !fields::home_dead(t, n)
            && fields::finish_has(t, n, FinishStatus::Publishing)
            && fields::has_status(t, k, TaskStatus::WaitsForPublish),
    )
}

// 3 transit.
pub fn transit_says(t: &SessionTables, m: Route) -> Result<(), Refusal>
    ensures { number_of result ≡ deliver_says t.now (transit m.finish m.task m.from m.to) }
{
    if fields::is_dead(t, m.from.number()) || counts::book_absent(t, m.finish) {
        return Ok(());
    }
    if books::in_repair(t, m.finish) {
        return Err(Refusal::MustWait);
    }
    want(
        fields::is_dead(t, m.to.number())
            || counts::live_at(t, m.finish, m.from, m.to) <= 254
                && counts::sent_at(t, m.finish, m.from, m.to) <= 254,
    )
}

// 4 granted; 5 denied wants the same.
pub fn granted_says(t: &SessionTables, m: Route) -> Result<(), Refusal>
    ensures granted { number_of result ≡ deliver_says t.now (granted m.finish m.task m.from m.to) }
    ensures denied { number_of result ≡ deliver_says t.now (denied m.finish m.task m.from m.to) }
{
    want(
        !fields::is_dead(t, m.from.number())
            && fields::has_status(t, m.task, TaskStatus::WaitsForTransit)
            && maker_may_run(t, m.task),
    )
}

// 6 task.
pub fn task_says(t: &SessionTables, m: Route) -> Result<(), Refusal>
    ensures { number_of result ≡ deliver_says t.now (task m.finish m.task m.from m.to) }
{
    want(!fields::is_dead(t, m.to.number()))?;
    want(
        counts::is_denied(t, m.finish, m.to, m.from)
            || fields::has_status(t, m.task, TaskStatus::OnTheWire)
                && counts::received_at(t, m.finish, m.to, m.from) <= 254
                && counts::local_live(t, m.finish, m.to) <= 254,
    )
}

// 7 report.
pub fn report_says(t: &SessionTables, f: Finish, v: Place, cs: [u8; 8]) -> Result<(), Refusal>
    ensures { number_of result ≡ deliver_says t.now (report f v cs) }
{
    if fields::is_dead(t, v.number()) || counts::book_absent(t, f) {
        return Ok(());
    }
    if books::in_repair(t, f) {
        return Err(Refusal::MustWait);
    }
    want(books::book_lowers(t, f, v, cs))
}

// 8 release.
pub fn release_says(t: &SessionTables, f: Finish) -> Result<(), Refusal>
    ensures { number_of result ≡ deliver_says t.now (release f) }
{
    let n = f.number();
    want(
        !fields::home_dead(t, n)
            && fields::finish_has(t, n, FinishStatus::WaitsForRelease)
            && opener_may_run(t, n),
    )
}

// 9 ghost-ended.
pub fn ghost_ended_says(t: &SessionTables, q: Finish, g: Finish) -> Result<(), Refusal>
    ensures { number_of result ≡ deliver_says t.now (ghost_ended q g) }
{
    if !counts::book_absent(t, q) && books::in_repair(t, q) {
        return Err(Refusal::MustWait);
    }
    Ok(())
}

// 10 count-dropped.
pub fn count_dropped_says(t: &SessionTables, m: Route, n: u8) -> Result<(), Refusal>
    ensures { number_of result ≡ deliver_says t.now (count_dropped m.finish m.task m.from m.to n) }
{
    want(!fields::is_dead(t, m.to.number()) && counts::received_at(t, m.finish, m.to, m.from) <= n)
}

// 11 dropped.
pub fn dropped_says(t: &SessionTables, m: Route, n: u8) -> Result<(), Refusal>
    ensures { number_of result ≡ deliver_says t.now (dropped m.finish m.task m.from m.to n) }
{
    want(
        fields::is_dead(t, m.to.number())
            || counts::book_absent(t, m.finish)
            || n <= counts::live_at(t, m.finish, m.from, m.to),
    )
}
