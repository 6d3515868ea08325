// Reads records of meters from standard input and prints what choosing answers (02, W6), a line each: `0` and the deviation in mHz, or the refusal
// number; 12 for a last record that is cut short. What is printed is `printed` of specs/Printed.antt.
#![tactic(auto)]

mod held;
mod lines;
mod records;

ghost use Rattle.std.specs.Prelude.{OnOk};
ghost use Rattle.sending.specs.Session.{AllSent};
ghost use Rattle.choose_meter.specs.Printed.{printed};

use held::Held;
use sending::Failure;
use std::io;
use std::io::{Read, Write};

fn answer_all<R: Read, W: Write>(input: &mut R, output: &mut W) -> Result<(), Failure>
    ensures { OnOk result (AllSent printed (R.remaining input.old) (W.contents output.old) (W.contents output.new)) }
{
    sending::run(&mut Held::new(), input, output)
}

fn main(rt: HostRuntime) {
    if let Err(failure) = answer_all(&mut rt.stdin(), &mut io::writer(&rt)) {
        sending::say(&rt, failure);
    }
}
