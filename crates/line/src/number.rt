// Numbers in decimal. What puts a part of a line is inlined in that line's writer: so the place in the buffer stays in a register (docs/LOOK-BACK.md).
ghost use Rattle.std.specs.Prelude.{◌≡◌, ℤ, pos, length};
ghost use Rattle.std.specs.Int.Signed.{lt_z};
ghost use Rattle.codec.specs.Lent.{HasRoom, Grown};
ghost use Rattle.line.specs.Text.{digits, decimal, field, unsigned};
ghost use Rattle.line.specs.Widths.{count_width, field_width, unsigned_width};

use codec::Lent;
use itoa::write_digits;
use power::{Kw, Millihertz};

// A signed number of 32 bits with its unit.
pub trait Figure {
    ghost value: { Self → ℤ };

    fn number(self) -> i32
        ensures { result ≡ value self };
}

impl Figure for Kw {
    ghost value = { λ k. k.0 };

    fn number(self) -> i32 {
        self.0
    }
}

impl Figure for Millihertz {
    ghost value = { λ f. f.0 };

    fn number(self) -> i32 {
        self.0
    }
}

// How many digits a number has.
fn count_digits(n: u64) -> usize
    ensures { result ≡ length (digits n) }
{
    if n < 10 {
        return 1;
    }
    if n < 100 {
        return 2;
    }
    count_digits(n / 100) + 2
}

// A number's digits, which the library writes where they go: from a buffer of its own they would have to be copied.
#[inline(always)]
pub(crate) fn put_digits(lent: &mut Lent, n: u64)
    requires { HasRoom (length (digits n)) lent.old }
    ensures { Grown (length (digits n)) lent.old lent.new (digits n) }
{
    let end = lent.at + count_digits(n);
    write_digits(n, lent.buf, end);
    lent.at = end;
}

// Whether a minus sign stands before it.
fn is_negative(n: i64) -> bool
    ensures { result ≡ lt_z n (pos 0) }
{
    n < 0
}

// A number in decimal.
#[inline(always)]
pub(crate) fn put_number(lent: &mut Lent, n: i64)
    requires { HasRoom (length (decimal n)) lent.old }
    ensures { Grown (length (decimal n)) lent.old lent.new (decimal n) }
{
    let size = n.unsigned_abs();
    if is_negative(n) {
        lent.put_byte(b'-');
        put_digits(lent, size);
    } else {
        put_digits(lent, size);
    }
}

// A refusal number, or a number of seconds.
#[inline(always)]
pub fn put_count(lent: &mut Lent, n: u32)
    requires { HasRoom count_width lent.old }
    ensures { Grown count_width lent.old lent.new (digits n) }
{
    put_digits(lent, u64::from(n));
}

// A space and a number that has no sign.
#[inline(always)]
pub(crate) fn put_unsigned(lent: &mut Lent, n: u32)
    requires { HasRoom unsigned_width lent.old }
    ensures { Grown unsigned_width lent.old lent.new (unsigned n) }
{
    lent.put_byte(b' ');
    put_count(lent, n);
}

// A space and the figure's number.
#[inline(always)]
pub fn put_field<T: Figure>(lent: &mut Lent, x: T)
    requires { HasRoom field_width lent.old }
    ensures { Grown field_width lent.old lent.new (field (T.value x)) }
{
    lent.put_byte(b' ');
    put_number(lent, i64::from(x.number()));
}
