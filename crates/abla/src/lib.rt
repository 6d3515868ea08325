// AbLa, interruptible loads: setpoint and band, second by second (02, W10; 004, lines 354 to 378).
#![tactic(auto)]

mod fifths;
mod load;
mod refusal;
mod stage;

ghost use Rattle.std.specs.Prelude.{◌≡◌, []};
ghost use Rattle.numbers.specs.Bounds.{Within};
ghost use Rattle.refusals.specs.Refusals.{Given, told};
ghost use Rattle.abla.specs.Refusals.{most_power};
ghost use Rattle.abla.specs.State.{state_of, Ready, stage_in, refusal_in, accepted_in, Stepped};

use fifths::published;
use load::FairSecond;
pub use load::LoadSecond;
use power::{BandedSetpoint, Grains};
pub use refusal::MOST_POWER;
use refusals::Refusal;
pub use stage::Stage;

// What a second needs of those before it: the stage of the newest one, and what a call takes from it as its ramp's lower end.
#[derive(Clone, Copy, Debug, PartialEq, Eq)]
pub struct AblaState {
    pub stage: Stage,
    pub before: Grains,
}

impl AblaState {
    // No second was accepted yet.
    #[tactic(auto, unfolding(crate::specs::State::state_of, crate::specs::State::stage_of, crate::specs::Band::lower_before), using(crate::proofs::Steps::fresh))]
    pub fn new() -> Self
        ensures { (result ≡ state_of []) × Ready result }
    {
        AblaState {
            stage: Stage::Blank,
            before: Grains(0),
        }
    }

    // A second: setpoint and band, and the state for the next one; or a refusal, and the old state.
    pub fn step(&mut self, x: LoadSecond) -> Result<BandedSetpoint, Refusal>
        requires { Ready self.old × Within most_power x.working.0 }
        ensures { Stepped self.old x (record { answer = told result; state = self.new }) }
    {
        self.check(x)?;
        Ok(self.advance(FairSecond { second: x }))
    }

    // The stage at second `x`.
    #[tactic(auto, unfolding(crate::specs::State::stage_in))]
    fn stage_at(self, x: FairSecond) -> Stage
        ensures { result ≡ stage_in self x.second }
    {
        if x.second.is_flagged() {
            self.stage.flagged(self.before, x)
        } else {
            self.stage.unflagged()
        }
    }

    // What second `x` gives, and the state for the next one.
    #[tactic(auto, unfolding(crate::specs::State::accepted_in))]
    fn advance(&mut self, x: FairSecond) -> BandedSetpoint
        requires { Ready self.old × (refusal_in self.old x.second ≡ 0) }
        ensures { accepted_in self.old x.second ≡ record { answer = Given result; state = self.new } }
    {
        let stage = self.stage_at(x);
        let limits = x.second.limits_on(stage.limits(x));
        *self = AblaState {
            stage,
            before: x.lower(),
        };
        BandedSetpoint {
            setpoint: x.second.setpoint,
            band: published(limits),
        }
    }
}
