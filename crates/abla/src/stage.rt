// The stage that a load is in (02, W10): holding, called, or in the return ramp after a call.
ghost use Rattle.std.specs.Prelude.{◌≡◌};
ghost use Rattle.abla.specs.declared.stage.Stage.TheVariants.{Called};
ghost use Rattle.abla.specs.State.{more, begun_in, flagged_in, unflagged_in, holding_in, limits_in};

use crate::load::FairSecond;
use power::{Grains, Limits};

// The class of a quick call.
const QUICK: u8 = 1;

// The seconds of either ramp.
const QUARTER_HOUR: u32 = 900;

// A call of this many seconds has no return ramp.
const HOUR: u32 = 3600;

// The stage of the newest second. Times are relative to it, so that they stay as they are when seconds are counted anew.
#[derive(Clone, Copy, Debug, PartialEq, Eq)]
pub enum Stage {
    // No second was accepted yet.
    Blank,
    Holding,
    Called {
        // That of the call's first second.
        class: u8,
        // The call's set flags so far, counted up to one hour.
        seconds: u32,
        // The limits of both ramps.
        ramp: Limits,
    },
    Returning {
        // Seconds since the call's last flag, from 1 on.
        since: u32,
        ramp: Limits,
    },
}

// One more second of a call.
#[tactic(auto, unfolding(crate::specs::State::more))]
fn one_more(n: u32) -> u32
    ensures { result ≡ more n }
{
    if n < HOUR { n + 1 } else { n }
}

// The call that this second goes on with.
fn longer(class: u8, seconds: u32, ramp: Limits) -> Stage
    ensures { result ≡ Called class (more seconds) ramp }
{
    Stage::Called {
        class,
        seconds: one_more(seconds),
        ramp,
    }
}

// A call that begins in this second, `before` being holding's lower limit in the second before.
#[tactic(auto, unfolding(crate::specs::State::begun_in))]
fn begun(before: Grains, x: FairSecond) -> Stage
    ensures { result ≡ begun_in before x.second }
{
    Stage::Called {
        class: x.second.class,
        seconds: 1,
        ramp: Limits {
            lower: before,
            upper: x.called_upper(),
        },
    }
}

impl Stage {
    #[tactic(auto, unfolding(crate::specs::State::holding_in))]
    pub(crate) fn is_holding(self) -> bool
        ensures { result ≡ holding_in self }
    {
        matches!(self, Stage::Holding)
    }

    // The stage at the next second, which has a set flag.
    #[tactic(auto, unfolding(crate::specs::State::flagged_in))]
    pub(crate) fn flagged(self, before: Grains, x: FairSecond) -> Stage
        ensures { result ≡ flagged_in self before x.second }
    {
        match self {
            Stage::Called {
                class,
                seconds,
                ramp,
            } => longer(class, seconds, ramp),
            Stage::Blank | Stage::Holding | Stage::Returning { .. } => begun(before, x),
        }
    }

    // The stage at the next second, which has none.
    #[tactic(auto, unfolding(crate::specs::State::unflagged_in))]
    pub(crate) fn unflagged(self) -> Stage
        ensures { result ≡ unflagged_in self }
    {
        match self {
            Stage::Called { seconds, ramp, .. } if seconds < HOUR => {
                Stage::Returning { since: 1, ramp }
            }
            Stage::Returning { since, ramp } if since < QUARTER_HOUR => Stage::Returning {
                since: since + 1,
                ramp,
            },
            _ => Stage::Holding,
        }
    }

    // The limits at second `x`, which is in this stage.
    #[tactic(auto, unfolding(crate::specs::State::limits_in, crate::specs::State::first_in, crate::specs::Calls::is_quick))]
    pub(crate) fn limits(self, x: FairSecond) -> Limits
        ensures { result ≡ limits_in self x.second }
    {
        match self {
            Stage::Blank | Stage::Holding => x.holding(),
            Stage::Called {
                class,
                seconds,
                ramp,
            } if class == QUICK && seconds <= QUARTER_HOUR => ramp,
            Stage::Called { .. } => x.called(),
            Stage::Returning { ramp, .. } => ramp,
        }
    }
}
