// A record of meters, and what choosing answers to it. The form is in specs/Records.antt.
ghost use Rattle.std.specs.Prelude.{◌≡◌, ◌+◌, ◌≤◌, take};
ghost use Rattle.meters.specs.Meters.{most_meters, says};
ghost use Rattle.choose_meter.specs.Records.{record_size, meter_size, reading_of, meter_at, meters_in, said_in};

use meters::{Meter, Reading};
use power::Millihertz;
use refusals::Refusal;

pub(crate) const SIZE: usize = 64;

// Any byte may name a form; those of none are a meter that failed.
#[tactic(auto, unfolding(crate::specs::Records::reading_of))]
fn reading_of(form: u8, value: f32) -> Reading
    ensures { result ≡ reading_of form value }
{
    match form {
        0 => Reading::Frequency(value),
        1 => Reading::Deviation(value),
        _ => Reading::Failed,
    }
}

// By its place, as the form gives it.
#[tactic(auto, unfolding(crate::specs::Records::meter_at))]
fn meter_at(s: &[u8; SIZE], at: usize) -> Meter
    requires { at + meter_size ≤ record_size }
    ensures { result ≡ meter_at s.now at }
{
    let value = meters::of_bits(codec::read_u32(s, at + 1));
    Meter {
        reading: reading_of(s[at], value),
        accuracy: meters::of_bits(codec::read_u32(s, at + 5)),
    }
}

// The meters that can count.
fn first_four(s: &[u8; SIZE]) -> [Meter; meters::MOST_METERS]
    ensures { result ≡ take most_meters (meters_in s.now) }
{
    [
        meter_at(s, 1),
        meter_at(s, 10),
        meter_at(s, 19),
        meter_at(s, 28),
    ]
}

// The answer to a record of any bytes.
pub(crate) fn answer_to(s: &[u8]) -> Result<Millihertz, Refusal>
    ensures { says result ≡ said_in s.now }
{
    let Ok(s) = <&[u8; SIZE]>::try_from(s) else {
        return Err(Refusal::Length);
    };
    meters::choose_counted(first_four(s), usize::from(s[0]))
}
