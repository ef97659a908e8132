// The static library for host firmware: the entries of the library finish, under the symbols that include/finish.h declares.
#![tactic(auto)]

ghost use Rattle.std.specs.Prelude.{◌≡◌, [], ◌∷◌};
ghost use Rattle.tables.specs.Bits.{digit};
ghost use Rattle.rules.specs.Refusals.{answer};
ghost use Rattle.rules.specs.Step.{after};
ghost use Rattle.rules.specs.Quiet.{running_tasks, messages_in_flight, quiet};
ghost use Rattle.finish.specs.Readings.{reading, status_of};

#[unsafe(no_mangle)]
pub extern "C" fn finish_step(t: &mut [u8], action: &[u8]) -> u32
    ensures { (result ≡ answer t.old action.now) × (t.new ≡ after t.old action.now) }
{
    finish::finish_step(t, action)
}

#[unsafe(no_mangle)]
pub extern "C" fn finish_begin(t: &mut [u8], places: u32) -> u32
    ensures { (result ≡ answer t.old (9 ∷ places ∷ 0 ∷ 0 ∷ [])) × (t.new ≡ after t.old (9 ∷ places ∷ 0 ∷ 0 ∷ [])) }
{
    finish::finish_begin(t, places)
}

#[unsafe(no_mangle)]
pub extern "C" fn finish_running_tasks(t: &[u8]) -> u32
    ensures { result ≡ reading t.now (running_tasks t.now) }
{
    finish::finish_running_tasks(t)
}

#[unsafe(no_mangle)]
pub extern "C" fn finish_messages_in_flight(t: &[u8]) -> u32
    ensures { result ≡ reading t.now (messages_in_flight t.now) }
{
    finish::finish_messages_in_flight(t)
}

#[unsafe(no_mangle)]
pub extern "C" fn finish_status(t: &[u8], finish: u32) -> u32
    ensures { result ≡ reading t.now (status_of t.now finish) }
{
    finish::finish_status(t, finish)
}

#[unsafe(no_mangle)]
pub extern "C" fn finish_quiet(t: &[u8]) -> u32
    ensures { result ≡ reading t.now (digit (quiet t.now)) }
{
    finish::finish_quiet(t)
}
