// Who sells what at the unit, and the values there. That the unit's row is sized stands in clauses: how large a row may be goes by the plant, and a type
// for each plant's row would be no plainer. So does that the powers of its record are in range, which its own numbers see to.
ghost use Rattle.std.specs.Prelude.{◌≡◌, ◌+ℤ◌};
ghost use Rattle.numbers.specs.Bounds.{Within};
ghost use Rattle.record.specs.Record.{record_of};
ghost use Rattle.plant.specs.Refusals.{most_power};
ghost use Rattle.sharing.specs.Sizes.{SizedRow};
ghost use Rattle.book.specs.Rows.{value_if, values_of, others, sold_by_a, sold_by_b};
ghost use Rattle.book.specs.State.{most_at_unit, PowersInRange, AddedFor};

use crate::sums::sum_of;
use plant::Added;
use power::Kw;
use record::KindBits;
use row::{KindRow, Row};

// The kinds whose bits are not set.
fn others(b: KindBits) -> KindBits
    ensures { result ≡ others b }
{
    KindBits {
        fcr: !b.fcr,
        afrr: !b.afrr,
        mfrr: !b.mfrr,
    }
}

fn value_if(sold: bool, k: KindRow) -> Kw
    ensures { result.0 ≡ value_if sold k }
{
    if sold { k.actual } else { Kw(0) }
}

// The actual values at the unit of the kinds whose bits are set.
#[tactic(auto, unfolding(crate::specs::Rows::values_of))]
fn values_of(b: KindBits, r: Row) -> Kw
    requires { SizedRow most_at_unit r }
    ensures { result.0 ≡ values_of b r }
{
    sum_of(
        value_if(b.fcr, r.fcr),
        value_if(b.afrr, r.afrr),
        value_if(b.mfrr, r.mfrr),
    )
}

// What sharing adds for a pool, where the bits are those of its kinds: to its working point the unit's, and to its measured that and its own values
// at the unit.
#[tactic(auto, using(crate::proofs::Sizes::added_small, crate::proofs::Sizes::added_fits))]
fn added_for(b: KindBits, point: Kw, r: Row) -> Added
    requires { Within most_power point.0 × SizedRow most_at_unit r }
    ensures { (result.measured.0 ≡ point.0 +ℤ values_of b r) × (result.point ≡ point) }
{
    Added {
        measured: point.plus(values_of(b, r)),
        point,
    }
}

// What sharing adds for A and for B, by the owner byte, the unit's bytes and its row.
pub(crate) fn added(owner: u8, unit: &[u8; record::SIZE], r: Row) -> (Added, Added)
    requires { PowersInRange (record_of unit.now) × SizedRow most_at_unit r }
    ensures { AddedFor (sold_by_a owner) unit.now r result.0 × AddedFor (sold_by_b owner) unit.now r result.1 }
{
    let point = record::fields_of(unit).working_point;
    let sold = KindBits::from(owner);
    (added_for(others(sold), point, r), added_for(sold, point, r))
}
