// When a load's second is turned down (02, W10): 31 for its fields, 32 for the working point, 33 for flag and setpoint.
ghost use Rattle.std.specs.Prelude.{◌≡◌};
ghost use Rattle.refusals.specs.Refusals.{number_in};
ghost use Rattle.abla.specs.Refusals.{filled, fields_out, point_out, signal_out};
ghost use Rattle.abla.specs.State.{Fields, blank_in, holds_in, refusal_in};

use crate::AblaState;
use crate::fifths::in_fifths;
use crate::load::LoadSecond;
use crate::stage::Stage;
use power::{Kw, MOST_RESERVE};
use refusals::Refusal;

// The largest minimum consumption and working point in kW, either way.
pub const MOST_POWER: i32 = 4_000_000;

impl LoadSecond {
    // A field other than the awarded power is not 0.
    #[tactic(auto, unfolding(crate::specs::Refusals::filled, numbers::specs::Bounds::outside))]
    fn is_filled(self) -> bool
        ensures { result ≡ filled self }
    {
        self.minimum != Kw(0) || self.class != 0 || self.flag != 0 || self.setpoint != Kw(0)
    }

    #[tactic(auto, unfolding(crate::specs::Refusals::fields_out))]
    fn are_fields_out(self) -> bool
        ensures { result ≡ fields_out self }
    {
        self.awarded.is_outside(Kw(0), Kw(MOST_RESERVE))
            || self.minimum.is_outside(Kw(-MOST_POWER), Kw(MOST_POWER))
            || 1 < self.class
            || 1 < self.flag
            || (!self.is_on() && self.is_filled())
    }

    // The working point of a load that is on and holds lies outside holding's band.
    #[tactic(auto, unfolding(crate::specs::Refusals::point_out, numbers::specs::Bounds::outside))]
    fn is_point_out(self, holding: bool) -> bool
        requires { Fields self }
        ensures { result ≡ point_out holding self }
    {
        let working = in_fifths(self.working);
        self.is_on()
            && holding
            && (working < self.lowest_point() || in_fifths(self.minimum) < working)
    }

    #[tactic(auto, unfolding(crate::specs::Refusals::signal_out, crate::specs::Refusals::called_out, numbers::specs::Bounds::outside))]
    fn is_signal_out(self, blank: bool) -> bool
        ensures { result ≡ signal_out blank self }
    {
        if self.is_flagged() {
            blank || self.setpoint.is_outside(Kw(0), Kw(MOST_RESERVE))
        } else {
            self.setpoint != Kw(0)
        }
    }
}

impl AblaState {
    // No second was accepted yet.
    #[tactic(auto, unfolding(crate::specs::State::blank_in))]
    fn is_blank(self) -> bool
        ensures { result ≡ blank_in self.stage }
    {
        matches!(self.stage, Stage::Blank)
    }

    // In second `x` there is no call and no return ramp.
    #[tactic(auto, unfolding(crate::specs::State::holds_in))]
    fn is_holding(self, x: LoadSecond) -> bool
        ensures { result ≡ holds_in self x }
    {
        !x.is_flagged() && self.stage.unflagged().is_holding()
    }

    // The first rule that turns second `x` down.
    #[tactic(auto, unfolding(crate::specs::State::refusal_in, crate::specs::Refusals::load_rules))]
    pub(crate) fn check(self, x: LoadSecond) -> Result<(), Refusal>
        ensures { number_in result ≡ refusal_in self x }
    {
        if x.are_fields_out() {
            return Err(Refusal::LoadFields);
        }
        if x.is_point_out(self.is_holding(x)) {
            return Err(Refusal::LoadPoint);
        }
        if x.is_signal_out(self.is_blank()) {
            return Err(Refusal::LoadSignal);
        }
        Ok(())
    }
}
