// A load's second (02, W10): its five fields and the unit's working point, and the limits that they give by themselves.
ghost use Rattle.std.specs.Prelude.{◌≡◌};
ghost use Rattle.abla.specs.Calls.{is_on, flagged};
ghost use Rattle.abla.specs.Band.{lowest_point, holding_lower, holding, called_upper, called, lower_of, widened, limits_on};
ghost use Rattle.abla.specs.State.{Fields, Fair};

use crate::fifths::{fifth_of, in_fifths};
use power::{Grains, Kw, Limits};

// Class and flag are bytes and no enums: any byte may come, and 31 turns down those that mean nothing.
#[derive(Clone, Copy, Debug, PartialEq, Eq)]
pub struct LoadSecond {
    // The reported minimum consumption; consumption is negative.
    pub minimum: Kw,
    // The awarded power; 0 is off.
    pub awarded: Kw,
    // 0 immediate, 1 quick.
    pub class: u8,
    // 1 called.
    pub flag: u8,
    pub setpoint: Kw,
    // The unit's working point.
    pub working: Kw,
}

impl LoadSecond {
    #[tactic(auto, unfolding(crate::specs::Calls::is_on))]
    pub fn is_on(self) -> bool
        ensures { result ≡ is_on self }
    {
        Kw(0) < self.awarded
    }

    #[tactic(auto, unfolding(crate::specs::Calls::flagged))]
    pub(crate) fn is_flagged(self) -> bool
        ensures { result ≡ flagged self }
    {
        self.flag == 1
    }

    // The lowest working point of a load that holds: the minimum consumption and a fifth of the awarded power.
    #[tactic(auto, unfolding(crate::specs::Band::lowest_point), using(crate::proofs::Sizes::lowest_fits))]
    pub(crate) fn lowest_point(self) -> Grains
        requires { Fields self }
        ensures { result.0 ≡ lowest_point self }
    {
        in_fifths(self.minimum).minus(fifth_of(self.awarded))
    }

    // Limits, wider where needed to hold the setpoint.
    #[tactic(auto, unfolding(crate::specs::Band::widened))]
    fn widen(self, l: Limits) -> Limits
        ensures { result ≡ widened self.setpoint.0 l }
    {
        l.spanning(Limits::point(in_fifths(self.setpoint)))
    }

    // The band's limits: 0 and 0 of a load that is off.
    #[tactic(auto, unfolding(crate::specs::Band::limits_on, crate::specs::Band::none))]
    pub(crate) fn limits_on(self, l: Limits) -> Limits
        ensures { result ≡ limits_on self l }
    {
        if self.is_on() {
            self.widen(l)
        } else {
            Limits::point(Grains(0))
        }
    }
}

// A second whose figures are in their ranges, so that its limits fit: 31, 33 and the unit's own 4 turn the others down.
#[derive(Clone, Copy)]
pub(crate) struct FairSecond {
    pub(crate) second: LoadSecond,
    ghost fair: { Fair second },
}

impl FairSecond {
    // Holding's lower limit.
    #[tactic(auto, unfolding(crate::specs::Band::holding_lower), using(crate::proofs::Sizes::lower_fits))]
    fn holding_lower(self) -> Grains
        ensures { result.0 ≡ holding_lower self.second }
    {
        self.second
            .lowest_point()
            .minus(in_fifths(self.second.working))
    }

    // The limits of a load that holds.
    #[tactic(auto, unfolding(crate::specs::Band::holding), using(crate::proofs::Sizes::upper_fits))]
    pub(crate) fn holding(self) -> Limits
        ensures { result ≡ holding self.second }
    {
        Limits {
            lower: self.holding_lower(),
            upper: in_fifths(self.second.minimum).minus(in_fifths(self.second.working)),
        }
    }

    // The called upper limit.
    #[tactic(auto, unfolding(crate::specs::Band::called_upper), using(crate::proofs::Sizes::called_fits))]
    pub(crate) fn called_upper(self) -> Grains
        ensures { result.0 ≡ called_upper self.second }
    {
        in_fifths(self.second.setpoint).plus(fifth_of(self.second.awarded))
    }

    // The limits of a load that is called.
    #[tactic(auto, unfolding(crate::specs::Band::called))]
    pub(crate) fn called(self) -> Limits
        ensures { result ≡ called self.second }
    {
        Limits {
            lower: in_fifths(self.second.setpoint),
            upper: self.called_upper(),
        }
    }

    // What a call in the next second takes as its ramp's lower end: holding's lower limit, and 0 of a load that is off.
    #[tactic(auto, unfolding(crate::specs::Band::lower_of))]
    pub(crate) fn lower(self) -> Grains
        ensures { result.0 ≡ lower_of self.second }
    {
        if self.second.is_on() {
            self.holding_lower()
        } else {
            Grains(0)
        }
    }
}
