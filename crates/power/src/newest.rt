// A kind's past: its setpoints, newest first.
ghost use Rattle.std.specs.Prelude.{◌≡◌, ◌∷◌, ◌-◌, ◌≤◌, length, take};

use crate::kilowatts::Kw;

// A second later: `s` stands before the others, of which the oldest is dropped.
pub fn push_newest(past: &mut [Kw], s: Kw)
    requires { 1 ≤ length past.old }
    ensures { past.new ≡ s ∷ take (length past.old - 1) past.old }
{
    past.rotate_right(1);
    past[0] = s;
}
