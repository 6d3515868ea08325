// A book read from an input, taken and printed as its bytes come. What is sent is `printed` of the bytes that the input gives (crate `printed`).
#![tactic(auto)]

mod run;

ghost use Rattle.std.specs.Prelude.{OnOk};
ghost use Rattle.sending.specs.Session.{AllSent};
ghost use Rattle.printed.specs.Printed.{printed};

use report::Form;
use run::Run;
use sending::Failure;
use sheet::FairSheet;
use std::io;
use std::io::{Read, Write};

// Sends what is printed of the book that the input gives under a sheet whose figures are in range.
pub fn send_book<R: Read, W: Write>(
    input: &mut R,
    output: &mut W,
    sheet: FairSheet,
    form: Form,
) -> Result<(), Failure>
    ensures { OnOk result (AllSent (printed sheet.figures form) (R.remaining input.old) (W.contents output.old) (W.contents output.new)) }
{
    sending::run(&mut Run::new(sheet, form), input, output)
}

// Sends it to standard output.
pub fn print_book<R: Read>(
    rt: &(impl Print + Eprint),
    input: &mut R,
    sheet: FairSheet,
    form: Form,
) {
    if let Err(failure) = send_book(input, &mut io::writer(rt), sheet, form) {
        sending::say(rt, failure);
    }
}
