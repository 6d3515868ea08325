// Check and spare bytes of a block.
ghost use Rattle.std.specs.Prelude.{◌≡◌, ◌-◌, ◌≤◌, length, take};
ghost use Rattle.codec.specs.Little.{le4};
ghost use Rattle.codec.specs.Lent.{HasRoom, Grown};
ghost use Rattle.block.specs.Places.{check_at};
ghost use Rattle.block.specs.Bytes.{all_zero, zeros};
ghost use Rattle.block.specs.Check.{check_of};

use crate::CHECK_AT;
use codec::Lent;

// 1, and each byte before the check times its place, counted from 1.
pub(crate) fn check_of(s: &[u8]) -> u32
    requires { check_at ≤ length s.now }
    ensures { result ≡ check_of s.now }
{
    let mut sum: u32 = 1;
    for (i, b) in s[..CHECK_AT].iter().enumerate() {
        sum += (i as u32 + 1) * u32::from(*b);
    }
    sum
}

// Whether the bytes are all 0.
pub(crate) fn is_zero(s: &[u8]) -> bool
    ensures { result ≡ all_zero s.now }
{
    s.iter().all(|b| *b == 0)
}

// Zeros up to byte end - 1.
pub(crate) fn put_zeros(lent: &mut Lent, end: usize)
    requires { (lent.old.at ≤ end) × (end ≤ length lent.old.buf.now) }
    ensures { Grown (end - lent.old.at) lent.old lent.new (zeros (end - lent.old.at)) }
{
    lent.buf[lent.at..end].fill(0);
    lent.at = end;
}

// The check of what is put.
pub(crate) fn put_check(lent: &mut Lent)
    requires { HasRoom 4 lent.old × (lent.old.at ≡ check_at) }
    ensures { Grown 4 lent.old lent.new (le4 (check_of (take check_at lent.old.buf.now))) }
{
    let check = check_of(lent.filled());
    lent.put_u32(check);
}
