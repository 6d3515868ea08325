// Frequency meters with binary32 output (02, W6): which meter of up to four counts, and its deviation in whole mHz.
#![tactic(auto)]

mod binary32;
mod deviation;

ghost use Rattle.std.specs.Prelude.{◌≡◌, true, pos, neg_ℤ};
ghost use Rattle.meters.specs.Binary32.{finite, hertz};
ghost use Rattle.meters.specs.Meters.{between, fair_reading, fair_accuracy, usable, smaller, of_two, counting, said_of, said_at, says};

pub use binary32::of_bits;
use power::Millihertz;
use refusals::Refusal;

// The meters that serve a plant at most.
pub const MOST_METERS: usize = 4;

// What a meter sends, in Hz.
#[derive(Clone, Copy)]
pub enum Reading {
    Frequency(f32),
    Deviation(f32),
    Failed,
}

// A reading and the meter's stated accuracy in Hz.
#[derive(Clone, Copy)]
pub struct Meter {
    pub reading: Reading,
    pub accuracy: f32,
}

// The range of a usable frequency in Hz, and that of a usable deviation either way.
const LEAST_FREQUENCY: f32 = 45.0;

const MOST_FREQUENCY: f32 = 55.0;

const MOST_DEVIATION: f32 = 5.0;

// A frequency from 45 to 55 Hz.
fn is_frequency(f: f32) -> bool
    ensures { result ≡ between (pos (hertz 45)) (pos (hertz 55)) f }
{
    LEAST_FREQUENCY <= f && f <= MOST_FREQUENCY
}

// A deviation from -5 to 5 Hz.
fn is_deviation(d: f32) -> bool
    ensures { result ≡ between (neg_ℤ (pos (hertz 5))) (pos (hertz 5)) d }
{
    -MOST_DEVIATION <= d && d <= MOST_DEVIATION
}

#[tactic(auto, unfolding(crate::specs::Meters::fair_reading))]
fn is_fair_reading(reading: Reading) -> bool
    ensures { result ≡ fair_reading reading }
{
    match reading {
        Reading::Frequency(f) => is_frequency(f),
        Reading::Deviation(d) => is_deviation(d),
        Reading::Failed => false,
    }
}

// Finite and above 0.
fn is_fair_accuracy(a: f32) -> bool
    ensures { result ≡ fair_accuracy a }
{
    a.is_finite() && 0.0 < a
}

#[tactic(auto, unfolding(crate::specs::Meters::usable))]
fn is_usable(m: Meter) -> bool
    ensures { result ≡ usable m }
{
    is_fair_reading(m.reading) && is_fair_accuracy(m.accuracy)
}

// Whether accuracy figure a is smaller than b.
fn is_smaller(a: f32, b: f32) -> bool
    requires { (finite a ≡ true) × (finite b ≡ true) }
    ensures { result ≡ smaller a b }
{
    a < b
}

// Which of two meters counts.
#[tactic(auto, using(crate::proofs::Choice::choosing))]
fn of_two(earlier: Meter, later: Meter) -> Meter
    ensures { result ≡ of_two earlier later }
{
    if !is_usable(later) {
        return earlier;
    }
    if !is_usable(earlier) {
        return later;
    }
    if is_smaller(later.accuracy, earlier.accuracy) {
        later
    } else {
        earlier
    }
}

// Which of all counts: a failed one where none is usable, as the definition `counting` has it.
fn of_all(meters: &[Meter]) -> Meter
    ensures { result ≡ counting meters.now }
{
    let failed = Meter {
        reading: Reading::Failed,
        accuracy: 0.0,
    };
    meters.iter().copied().fold(failed, of_two)
}

// The deviation of the meter that counts of those that serve a plant; 27 where there are none or too many of them, 28 where none is usable.
pub fn choose(meters: &[Meter]) -> Result<Millihertz, Refusal>
    ensures { says result ≡ said_of meters.now }
{
    if !(1..=MOST_METERS).contains(&meters.len()) {
        return Err(Refusal::MeterCount);
    }
    let best = of_all(meters);
    if !is_usable(best) {
        return Err(Refusal::NoUsableMeter);
    }
    Ok(deviation::in_mhz(deviation::of_reading(best.reading)))
}

// The same of `count` meters that stand in the first places. More meters than places are refused by their number alone, so any number may be given.
#[tactic(auto, using(crate::proofs::Answers::too_many))]
pub fn choose_counted(meters: [Meter; MOST_METERS], count: usize) -> Result<Millihertz, Refusal>
    ensures { says result ≡ said_at meters count }
{
    let Some(first) = meters.get(..count) else {
        return Err(Refusal::MeterCount);
    };
    choose(first)
}
