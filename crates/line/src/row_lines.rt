// The line of a plant with every figure of its row.
ghost use Rattle.codec.specs.Lent.{HasRoom, Grown};
ghost use Rattle.line.specs.Widths.{start_width, row_room, kind_width};
ghost use Rattle.line.specs.Text.{start_text};
ghost use Rattle.line.specs.Line.{kind_text, row_text};
ghost use Rattle.line.specs.Lined.{Lined};

use crate::number::{put_count, put_field};
use crate::{PlantSecond, check_room};
use codec::Lent;
use refusals::Refusal;
use row::KindRow;

// The least buffer that this line writer takes, and those of the shares and the short lines; no line needs more.
pub const ROW_ROOM: usize = 256;

// Each line of a plant's second begins with the second and the plant's letter.
#[inline(always)]
pub(crate) fn put_start(lent: &mut Lent, x: &PlantSecond)
    requires { HasRoom start_width lent.old }
    ensures { Grown start_width lent.old lent.new (start_text x.now.second x.now.letter) }
{
    put_count(lent, x.second);
    lent.put_byte(b' ');
    lent.put_byte(x.letter);
}

// One kind's setpoint, band, share and actual value, each after a space.
#[inline(always)]
fn put_kind(lent: &mut Lent, k: KindRow)
    requires { HasRoom kind_width lent.old }
    ensures { Grown kind_width lent.old lent.new (kind_text k) }
{
    put_field(lent, k.setpoint);
    put_field(lent, k.band.low);
    put_field(lent, k.band.high);
    put_field(lent, k.share);
    put_field(lent, k.actual);
}

// The line of a plant's second: its letter, every figure of FCR, aFRR and mFRR, then open. It begins and ends as the other lines do; one writer for all,
// over a closure that puts what is between, would hide the order in which a line is read.
pub fn plant_line(buf: &mut [u8], x: PlantSecond) -> Result<usize, Refusal>
    ensures { Lined row_room buf.old buf.new result (row_text x.second x.letter x.row) }
{
    check_room(buf, ROW_ROOM)?;
    let mut lent = Lent::new(buf);
    put_start(&mut lent, &x);
    put_kind(&mut lent, x.row.fcr);
    put_kind(&mut lent, x.row.afrr);
    put_kind(&mut lent, x.row.mfrr);
    put_field(&mut lent, x.row.open);
    lent.put_byte(b'\n');
    Ok(lent.at)
}
