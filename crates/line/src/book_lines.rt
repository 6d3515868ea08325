// The lines that the program prints: a second's, the sum line, and a refusal's.
ghost use Rattle.std.specs.Prelude.{◌+◌, length};
ghost use Rattle.codec.specs.Lent.{HasRoom, Grown};
ghost use Rattle.line.specs.Widths.{line_room, plant_width, sum_width};
ghost use Rattle.line.specs.Text.{named};
ghost use Rattle.line.specs.Line.{plant_text, second_text, sum_text, refusal_text};
ghost use Rattle.line.specs.Lined.{Lined};

use crate::check_room;
use crate::number::{put_count, put_field, put_number};
use codec::Lent;
use refusals::Refusal;
use row::{KwSeconds, Row, Sums};

// The least buffer that these line writers take.
const LEAST: usize = 200;

// A space, the letter, and each after a space the actual values of FCR, aFRR and mFRR, then open.
#[inline(always)]
fn put_plant(lent: &mut Lent, letter: u8, x: Row)
    requires { HasRoom plant_width lent.old }
    ensures { Grown plant_width lent.old lent.new (plant_text letter x) }
{
    lent.put_byte(b' ');
    lent.put_byte(letter);
    put_field(lent, x.fcr.actual);
    put_field(lent, x.afrr.actual);
    put_field(lent, x.mfrr.actual);
    put_field(lent, x.open);
}

#[inline(always)]
fn put_named(lent: &mut Lent, name: &[u8], v: KwSeconds)
    requires { HasRoom (length name.now + sum_width) lent.old }
    ensures { Grown (length name.now + sum_width) lent.old lent.new (named name.now v.0) }
{
    lent.put_bytes(name);
    put_number(lent, v.0);
}

// The line of a second: the unit's figures, then those of the pools A and B.
pub fn second_line(buf: &mut [u8], second: u32, u: Row, a: Row, b: Row) -> Result<usize, Refusal>
    ensures { Lined line_room buf.old buf.new result (second_text second u a b) }
{
    check_room(buf, LEAST)?;
    let mut lent = Lent::new(buf);
    put_count(&mut lent, second);
    put_plant(&mut lent, b'U', u);
    put_plant(&mut lent, b'A', a);
    put_plant(&mut lent, b'B', b);
    lent.put_byte(b'\n');
    Ok(lent.at)
}

// The sum line.
pub fn sum_line(buf: &mut [u8], s: Sums) -> Result<usize, Refusal>
    ensures { Lined line_room buf.old buf.new result (sum_text s) }
{
    check_room(buf, LEAST)?;
    let mut lent = Lent::new(buf);
    put_named(&mut lent, b"sum A ", s.a);
    put_named(&mut lent, b" B ", s.b);
    put_named(&mut lent, b" open ", s.open);
    put_named(&mut lent, b" due ", s.due);
    lent.put_byte(b'\n');
    Ok(lent.at)
}

// The line of a refusal: its number, which may be any byte, and the seconds accepted so far.
pub fn refusal_line(buf: &mut [u8], number: u8, seconds: u32) -> Result<usize, Refusal>
    ensures { Lined line_room buf.old buf.new result (refusal_text number seconds) }
{
    check_room(buf, LEAST)?;
    let mut lent = Lent::new(buf);
    lent.put_bytes(b"refused ");
    put_count(&mut lent, u32::from(number));
    lent.put_bytes(b" at ");
    put_count(&mut lent, seconds);
    lent.put_byte(b'\n');
    Ok(lent.at)
}
