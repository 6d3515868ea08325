// The lines that say which kind was short: those of a plant's second, and its counts over the whole book.
ghost use Rattle.std.specs.Prelude.{◌≡◌, ◌≤◌, length};
ghost use Rattle.codec.specs.Lent.{HasRoom, Grown};
ghost use Rattle.row.specs.Side.{side_of};
ghost use Rattle.line.specs.Widths.{row_room, name_width, outside_width, side_count_width, counts_width};
ghost use Rattle.line.specs.Short.{name_of, outside_text, side_text, short_text, side_count_text, kind_counts_text, counts_text};
ghost use Rattle.line.specs.Lined.{Lined};

use crate::number::{put_count, put_digits};
use crate::row_lines::put_start;
use crate::{PlantSecond, ROW_ROOM, check_room};
use codec::Lent;
use refusals::Refusal;
use row::{BandSide, KindCounts, KindRow, PlantCounts, SideCount};

#[derive(Clone, Copy)]
enum KindName {
    Fcr,
    Afrr,
    Mfrr,
}

impl KindName {
    // The kind's name, after a space.
    fn name(self) -> &'static [u8]
        ensures name { result.now ≡ name_of self }
        ensures most { length result.now ≤ name_width }
    {
        match self {
            KindName::Fcr => b" FCR",
            KindName::Afrr => b" aFRR",
            KindName::Mfrr => b" mFRR",
        }
    }
}

// The names of a band's sides, between spaces.
const BELOW: &[u8; 7] = b" below ";

const ABOVE: &[u8; 7] = b" above ";

// The line of a kind outside its band.
fn put_outside(lent: &mut Lent, x: &PlantSecond, kind: KindName, side: &[u8; 7], kw: u32)
    requires { HasRoom outside_width lent.old }
    ensures { Grown outside_width lent.old lent.new (outside_text x.now.second x.now.letter (name_of kind) side.now kw) }
{
    put_start(lent, x);
    lent.put_bytes(kind.name());
    lent.put_bytes(side);
    put_count(lent, kw);
    lent.put_byte(b'\n');
}

// Nothing for a kind within its band.
fn put_side(lent: &mut Lent, x: &PlantSecond, kind: KindName, k: KindRow)
    requires { HasRoom outside_width lent.old }
    ensures { Grown outside_width lent.old lent.new (side_text x.now.second x.now.letter (name_of kind) (side_of k)) }
{
    match k.side() {
        BandSide::Within => {}
        BandSide::Below(kw) => put_outside(lent, x, kind, BELOW, kw),
        BandSide::Above(kw) => put_outside(lent, x, kind, ABOVE, kw),
    }
}

// The lines of a plant's second: one for each kind outside its band, FCR, aFRR and mFRR in turn.
pub fn plant_short(buf: &mut [u8], x: PlantSecond) -> Result<usize, Refusal>
    ensures { Lined row_room buf.old buf.new result (short_text x.second x.letter x.row) }
{
    check_room(buf, ROW_ROOM)?;
    let mut lent = Lent::new(buf);
    put_side(&mut lent, &x, KindName::Fcr, x.row.fcr);
    put_side(&mut lent, &x, KindName::Afrr, x.row.afrr);
    put_side(&mut lent, &x, KindName::Mfrr, x.row.mfrr);
    Ok(lent.at)
}

// The name of a side, its seconds and its kW-seconds.
fn put_side_count(lent: &mut Lent, side: &[u8; 7], c: SideCount)
    requires { HasRoom side_count_width lent.old }
    ensures { Grown side_count_width lent.old lent.new (side_count_text side.now c) }
{
    lent.put_bytes(side);
    put_count(lent, c.seconds);
    lent.put_byte(b' ');
    put_digits(lent, c.kw_seconds);
}

fn put_kind_counts(lent: &mut Lent, letter: u8, kind: KindName, c: KindCounts)
    requires { HasRoom counts_width lent.old }
    ensures { Grown counts_width lent.old lent.new (kind_counts_text letter (name_of kind) c) }
{
    lent.put_byte(letter);
    lent.put_bytes(kind.name());
    put_side_count(lent, BELOW, c.below);
    put_side_count(lent, ABOVE, c.above);
    lent.put_byte(b'\n');
}

// The three lines of a plant's counts.
pub fn plant_counts(buf: &mut [u8], letter: u8, c: PlantCounts) -> Result<usize, Refusal>
    ensures { Lined row_room buf.old buf.new result (counts_text letter c) }
{
    check_room(buf, ROW_ROOM)?;
    let mut lent = Lent::new(buf);
    put_kind_counts(&mut lent, letter, KindName::Fcr, c.fcr);
    put_kind_counts(&mut lent, letter, KindName::Afrr, c.afrr);
    put_kind_counts(&mut lent, letter, KindName::Mfrr, c.mfrr);
    Ok(lent.at)
}
