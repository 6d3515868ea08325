// How often, and by how much, each kind of each plant stood outside its band: kept second after second beside a book.
#![tactic(auto)]

ghost use Rattle.std.specs.Prelude.{◌≡◌};
ghost use Rattle.record.specs.Record.{most_seconds};
ghost use Rattle.tally.specs.Tally.{zero, SideWithin, KindWithin, PlantWithin, TallyWithin, SideCounted, KindCounted, PlantCounted, TallyCounted};

use row::{BandSide, KindCounts, KindRow, PlantCounts, Row, SideCount};

// Of U, A and B. `BookRows` and `Book` have three of their own: alike in these names alone, since one has no method and the other a sheet and sums besides,
// so that one struct for any type would be no plainer.
#[derive(Clone, Copy)]
pub struct Tally {
    pub unit: PlantCounts,
    pub a: PlantCounts,
    pub b: PlantCounts,
}

// A second more on this side of the band.
fn once_more(c: SideCount, kw: u32) -> SideCount
    requires { SideWithin most_seconds c }
    ensures { SideCounted c 1 kw result }
{
    SideCount {
        seconds: c.seconds + 1,
        kw_seconds: c.kw_seconds + u64::from(kw),
    }
}

// With a second of the kind.
fn count_kind(c: KindCounts, k: KindRow) -> KindCounts
    requires { KindWithin most_seconds c }
    ensures { KindCounted c k result }
{
    let below = c.below;
    let above = c.above;
    match k.side() {
        BandSide::Within => c,
        BandSide::Below(kw) => KindCounts {
            below: once_more(below, kw),
            above,
        },
        BandSide::Above(kw) => KindCounts {
            below,
            above: once_more(above, kw),
        },
    }
}

fn count_plant(c: PlantCounts, x: Row) -> PlantCounts
    requires { PlantWithin most_seconds c }
    ensures { PlantCounted c x result }
{
    PlantCounts {
        fcr: count_kind(c.fcr, x.fcr),
        afrr: count_kind(c.afrr, x.afrr),
        mfrr: count_kind(c.mfrr, x.mfrr),
    }
}

impl Tally {
    // Before the first second.
    pub fn new() -> Tally
        ensures { result ≡ zero }
    {
        let none = SideCount {
            seconds: 0,
            kw_seconds: 0,
        };
        let kind = KindCounts {
            below: none,
            above: none,
        };
        let plant = PlantCounts {
            fcr: kind,
            afrr: kind,
            mfrr: kind,
        };
        Tally {
            unit: plant,
            a: plant,
            b: plant,
        }
    }

    // With the rows of an accepted second.
    pub fn with_second(self, unit: Row, a: Row, b: Row) -> Tally
        requires { TallyWithin most_seconds self }
        ensures { TallyCounted self unit a b result }
    {
        Tally {
            unit: count_plant(self.unit, unit),
            a: count_plant(self.a, a),
            b: count_plant(self.b, b),
        }
    }
}
