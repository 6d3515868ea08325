// The line of a plant for those who recompute the shares (02, W8): what was shared, and how each kind's share was rounded.
ghost use Rattle.std.specs.Prelude.{◌*◌};
ghost use Rattle.codec.specs.Lent.{HasRoom, Grown};
ghost use Rattle.line.specs.Widths.{row_room, rounding_width};
ghost use Rattle.line.specs.Shares.{rounding_text, roundings_text, shares_text};
ghost use Rattle.line.specs.Lined.{Lined};

use crate::number::{put_field, put_unsigned};
use crate::row_lines::put_start;
use crate::{PlantSecond, ROW_ROOM, check_room};
use codec::Lent;
use refusals::Refusal;
use row::{Rounding, Row};

// One kind's tolerance, rounded-down share, remainder and extra kW, each after a space.
#[inline(always)]
fn put_rounding(lent: &mut Lent, r: Rounding)
    requires { HasRoom rounding_width lent.old }
    ensures { Grown rounding_width lent.old lent.new (rounding_text r) }
{
    put_unsigned(lent, r.tolerance);
    put_unsigned(lent, r.floor);
    put_unsigned(lent, r.remainder);
    put_unsigned(lent, r.extra);
}

#[inline(always)]
fn put_roundings(lent: &mut Lent, x: Row)
    requires { HasRoom (3 * rounding_width) lent.old }
    ensures { Grown (3 * rounding_width) lent.old lent.new (roundings_text x) }
{
    put_rounding(lent, x.fcr.rounding);
    put_rounding(lent, x.afrr.rounding);
    put_rounding(lent, x.mfrr.rounding);
}

// The line of a plant's second: its letter, error and T, then what FCR, aFRR and mFRR had of the error.
pub fn plant_shares(buf: &mut [u8], x: PlantSecond) -> Result<usize, Refusal>
    ensures { Lined row_room buf.old buf.new result (shares_text x.second x.letter x.row) }
{
    check_room(buf, ROW_ROOM)?;
    let mut lent = Lent::new(buf);
    put_start(&mut lent, &x);
    put_field(&mut lent, x.row.error);
    put_unsigned(&mut lent, x.row.total);
    put_roundings(&mut lent, x.row);
    lent.put_byte(b'\n');
    Ok(lent.at)
}
