// The deviation of a usable reading: in Hz, where nothing is lost, and then in whole mHz.
ghost use Rattle.std.specs.Prelude.{◌≡◌, ◌*◌, ◌^◌, ◌≤◌, ◌<◌, true};
ghost use Rattle.power.specs.Units.{most_deviation};
ghost use Rattle.meters.specs.Binary32.{exact, hertz, size_of, nearest_whole, in_mhz};
ghost use Rattle.meters.specs.Meters.{fair_reading, exact_deviation, LessFifty, IsDeviation};

use crate::Reading;
use crate::binary32::SIGN;
use power::Millihertz;

// The frequency that a deviation is from, in Hz.
const NOMINAL: f32 = 50.0;

// Of a binary32's bits: the weight of the exponent's field.
const FIELD: u32 = 0x0080_0000;

// Two of the exponent's fields: that of 2 ^ -11 Hz, below which a number is less than half a mHz, and the one at which the digits count whole Hz.
const HALF_MHZ: u32 = 116;

const WHOLE: u32 = 150;

// f - 50 Hz; from 45 to 55 Hz nothing is lost.
fn less_fifty(f: f32) -> f32
    ensures { LessFifty f result }
{
    f - NOMINAL
}

// The deviation in Hz of a reading within its range.
pub(crate) fn of_reading(reading: Reading) -> f32
    requires { fair_reading reading ≡ true }
    ensures { IsDeviation (exact_deviation reading) result }
{
    match reading {
        Reading::Frequency(f) => less_fifty(f),
        Reading::Deviation(d) => d,
        Reading::Failed => 0.0,
    }
}

// n / d to the nearest whole number, a tie to the even one.
#[tactic(auto, using(numbers::proofs::Test::tests), unfolding(crate::specs::Binary32::nearest_whole))]
fn nearest(n: u64, d: u64) -> u64
    requires { (n < 2 ^ 34) × (0 < d) × (d ≤ 2 ^ 34) }
    ensures { result ≡ nearest_whole n d }
{
    let whole = n / d;
    let twice = n % d * 2;
    if twice < d {
        return whole;
    }
    if d < twice {
        return whole + 1;
    }
    whole + whole % 2
}

// A size of up to 5 Hz in whole mHz, by its bits: the digits with the leading one, times 1,000, over a power of two.
fn size_in_mhz(bits: u32) -> u64
    requires { (bits < 2 ^ 31) × (size_of bits ≤ hertz 5) }
    ensures { (result ≡ nearest_whole (size_of bits * 1000) (hertz 1)) × (result ≤ most_deviation) }
{
    let field = bits / FIELD;
    if field < HALF_MHZ {
        return 0;
    }
    let digits = u64::from(FIELD + bits % FIELD);
    nearest(digits * 1000, 1 << (WHOLE - field))
}

// A deviation of up to 5 Hz in whole mHz.
pub(crate) fn in_mhz(d: f32) -> Millihertz
    requires { fair_reading (Reading.Deviation d) ≡ true }
    ensures { result.0 ≡ in_mhz (exact d) }
{
    let bits = d.to_bits();
    let size = size_in_mhz(bits % SIGN) as i32;
    if bits < SIGN {
        Millihertz(size)
    } else {
        Millihertz(-size)
    }
}
