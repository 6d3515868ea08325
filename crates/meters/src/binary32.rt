// The bits of a binary32 number.
ghost use Rattle.std.specs.Prelude.{◌≡◌};
ghost use Rattle.std.specs.Float.{binary32};
ghost use Rattle.std.specs.Float.Ieee.{of_bits};

// The weight of the sign.
pub(crate) const SIGN: u32 = 0x8000_0000;

// The bits of an infinity: without the sign, a finite number has smaller ones and a NaN larger ones.
pub(crate) const INFINITY: u32 = 0x7f80_0000;

// The number of any bits: `from_bits` is not defined at those of a NaN.
pub fn of_bits(bits: u32) -> f32
    ensures { result ≡ of_bits binary32 bits }
{
    if bits % SIGN <= INFINITY {
        f32::from_bits(bits)
    } else {
        0.0 / 0.0
    }
}
