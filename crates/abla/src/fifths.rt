// AbLa's limits are carried in fifths of a kW, whatever the sheet is, so that 0.2 times a power is whole.
ghost use Rattle.std.specs.Prelude.{◌≡◌};
ghost use Rattle.std.specs.Int.{w32};
ghost use Rattle.std.proofs.Common.{SFits};
ghost use Rattle.power.specs.Units.{in_grains};
ghost use Rattle.power.specs.Inward.{published_of};
ghost use Rattle.abla.specs.Band.{per_kw, fifth_of};

use power::{Band, Grains, Kw, Limits, PerKw};

const PER_KW: PerKw = PerKw { grains: 5 };

pub(crate) fn in_fifths(k: Kw) -> Grains
    ensures { result.0 ≡ in_grains per_kw k.0 }
{
    k.in_grains(PER_KW)
}

// 0.2 times a power.
pub(crate) fn fifth_of(k: Kw) -> Grains
    ensures { result.0 ≡ fifth_of k.0 }
{
    k.percent(20, PER_KW)
}

// The band in whole kW, rounded inward.
pub(crate) fn published(l: Limits) -> Band
    requires { SFits w32 (published_of per_kw l).low.0 × SFits w32 (published_of per_kw l).high.0 }
    ensures { result ≡ published_of per_kw l }
{
    l.published(PER_KW)
}
