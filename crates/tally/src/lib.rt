// The tally of steps, kills and zero answers, brought up to date at every step.
#![tactic(auto)]

ghost use Rattle.std.specs.Prelude.{◌≡◌};
ghost use Rattle.tally.specs.Tally.{noted};

#[derive(Clone, Copy, Debug, Default)]
pub struct Tally {
    pub steps: u32,
    pub kills: u32,
    // Steps that were answered 0.
    pub zeros: u32,
}

impl Tally {
    // Notes one step more. A count at its top stays there.
    pub fn note(&mut self, kill: bool, answer: u32)
        ensures { self.new ≡ noted self.old kill answer }
    {
        *self = self.noted(kill, answer);
    }

    // The tally after one step more.
    #[tactic(auto, unfolding(crate::specs::Tally::noted, crate::specs::Tally::next))]
    pub fn noted(self, kill: bool, answer: u32) -> Tally
        ensures { result ≡ noted self kill answer }
    {
        let steps = self.steps.saturating_add(1);
        let kills = self.kills.saturating_add(u32::from(kill));
        let zeros = self.zeros.saturating_add(u32::from(answer == 0));
        Tally {
            steps,
            kills,
            zeros,
        }
    }
}
