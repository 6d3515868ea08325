// Where a kind's actual value stands to its published band (01, "Sharing"), and how often it stood outside it.
ghost use Rattle.std.specs.Prelude.{◌≡◌, true, nat_abs, ◌-ℤ◌};
ghost use Rattle.std.specs.Int.Signed.{lt_z};
ghost use Rattle.row.specs.Side.{side_of};

use crate::KindRow;
use power::Kw;

// Within the band, or below or above it by so many kW.
#[derive(Clone, Copy)]
pub enum BandSide {
    Within,
    Below(u32),
    Above(u32),
}

// The seconds on one side of the band, and their kW added up.
#[derive(Clone, Copy)]
pub struct SideCount {
    pub seconds: u32,
    pub kw_seconds: u64,
}

#[derive(Clone, Copy)]
pub struct KindCounts {
    pub below: SideCount,
    pub above: SideCount,
}

// Three of a type: `plant/src/lib.rt` says why no generic struct stands here, at `Setpoints`.
#[derive(Clone, Copy)]
pub struct PlantCounts {
    pub fcr: KindCounts,
    pub afrr: KindCounts,
    pub mfrr: KindCounts,
}

impl KindRow {
    // The band's ends are within it.
    #[tactic(auto, unfolding(crate::specs::Side::side_of))]
    pub fn side(self) -> BandSide
        ensures { result ≡ side_of self }
    {
        let Kw(low) = self.band.low;
        let Kw(high) = self.band.high;
        let Kw(actual) = self.actual;
        if actual < low {
            return BandSide::Below(low.abs_diff(actual));
        }
        if high < actual {
            return BandSide::Above(actual.abs_diff(high));
        }
        BandSide::Within
    }
}
