// The step ask: marks the pair and sends count-dropped, or is refused.
#![tactic(auto, unfolding(rules::proofs::Checks::refusal_tests))]

ghost use Rattle.std.specs.Prelude.{◌≡◌, ◌≤◌, false, IfOk};
ghost use Rattle.tables.specs.Bits.{marked};
ghost use Rattle.rules.specs.Fields.{places, finishes_made, asked_marks};
ghost use Rattle.rules.specs.Action.{ask};
ghost use Rattle.rules.specs.Messages.{slots_full};
ghost use Rattle.rules.specs.Refusals.{step_answer};
ghost use Rattle.rules.specs.Step.{step, step_after};
ghost use Rattle.rules.specs.Sent.{sent_by};
ghost use Rattle.answers.specs.Answers.{number_of, Answered};

use answers::{Answer, Refusal, Tag};
use messages::Route;
use tables::{Finish, Place, SessionTables};

// Place j was asked of v already.
fn is_asked(t: &SessionTables, f: Finish, v: Place, j: Place) -> bool
    ensures { result ≡ marked (asked_marks t.now f v) j }
{
    tables::is_marked(counts::asked_marks(t, f, v), j.number())
}

// What an ask of live place j for the count that dead place v dropped of finish f names, or why it is refused.
fn check_ask(t: &SessionTables, f: u8, v: u8, j: u8) -> Result<Route, Refusal>
    requires { (places t.now ≤ 8) × (finishes_made t.now ≤ 32) }
    ensures answer { number_of result ≡ step_answer t.now (ask f v j) }
    ensures named { IfOk result (λ m. m ≡ record { finish = f; task = 0; from = v; to = j }) }
{
    let (Some(finish), Some(from), Some(to)) = (
        fields::made_finish(t, f),
        fields::session_place(t, v),
        fields::session_place(t, j),
    ) else {
        return Err(Refusal::NotThere);
    };
    if !fields::is_dead(t, v) || fields::is_dead(t, j) {
        return Err(Refusal::WrongPlace);
    }
    if counts::book_absent(t, finish)
        || counts::live_at(t, finish, from, to) == 0
        || is_asked(t, finish, from, to)
    {
        return Err(Refusal::NotReady);
    }
    if books::in_repair(t, finish) {
        return Err(Refusal::MustWait);
    }
    if messages::slots_full(t) {
        return Err(Refusal::NoRoom);
    }
    Ok(Route {
        finish,
        task: 0,
        from,
        to,
    })
}

// Marks the pair and sends count-dropped with the sent count.
#[tactic(auto, unfolding(rules::specs::Step::step, rules::specs::Ask::ask_step, rules::specs::Messages::send, rules::specs::Messages::bytes_of))]
fn ask(t: &mut SessionTables, m: Route)
    requires room { slots_full t.old ≡ false }
    requires no_task { m.task ≡ 0 }
    ensures { t.new ≡ step t.old (ask m.finish m.from m.to) }
{
    let s = messages::free_slot(t);
    let n = counts::sent_at(t, m.finish, m.from, m.to);
    let asked = tables::with_mark(counts::asked_marks(t, m.finish, m.from), m.to.number());
    counts::put_asked_marks(t, m.finish, m.from, asked);
    messages::put(t, s, Tag::CountDropped, m.fields(n));
}

// Asks live place j for the count that dead place v dropped of finish f, or is refused and nothing changes.
pub fn ask_dropped(t: &mut SessionTables, f: u8, v: u8, j: u8) -> Answer
    requires { (places t.old ≤ 8) × (finishes_made t.old ≤ 32) }
    ensures answer { Answered result (step_answer t.old (ask f v j)) (sent_by t.old (ask f v j)) }
    ensures tables { t.new ≡ step_after t.old (ask f v j) }
{
    let m = check_ask(t, f, v, j)?;
    ask(t, m);
    Ok(Some(Tag::CountDropped))
}
