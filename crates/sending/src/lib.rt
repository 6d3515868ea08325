// What the programs share that read standard input and send text as its bytes come: turn after turn, until the input ends. A read or a write that
// fails ends the run, and standard error says so.
#![tactic(auto)]

ghost use Rattle.std.specs.Prelude.{List, [], ℕ, ◌≤◌, length, Some, IfOk, OnOk, IsTrue, IsFalse};
ghost use Rattle.std.specs.Io.KnownBytes.{Appends, ReadConsumes};
ghost use Rattle.sending.specs.Failure.{failure_text};
ghost use Rattle.sending.specs.Session.{Went, Ended, AllSent};

use std::error::Error;
use std::io::{ErrorKind, Read, Write};
use std::{fmt, io};

// What ends a run before its input does.
#[derive(Clone, Copy, Debug, PartialEq, Eq)]
pub enum Failure {
    Input,
    Output,
    // The reader of the pipe has gone.
    ReaderGone,
}

impl fmt::Display for Failure {
    ghost output = { λ failure. Some (failure_text failure) };

    fn fmt<W: fmt::Write>(&self, f: &mut fmt::Formatter<W>) -> fmt::Result {
        match self {
            Failure::Input => write!(f, "the input could not be read"),
            Failure::Output => write!(f, "the output could not be written"),
            Failure::ReaderGone => write!(f, "nobody reads the output"),
        }
    }
}

impl Error for Failure {}

// One read; where no byte comes, the input has ended.
pub fn receive<R: Read>(input: &mut R, buf: &mut [u8]) -> Result<usize, Failure>
    ensures bound { IfOk result (λ n. n ≤ length buf.new) }
    ensures bytes { ReadConsumes (R.remaining input.old) (R.remaining input.new) result buf.new }
{
    input.read(buf).map_err(|_| Failure::Input)
}

fn of_write(error: io::Error) -> Failure {
    if error.kind() == ErrorKind::BrokenPipe {
        Failure::ReaderGone
    } else {
        Failure::Output
    }
}

// All of the text.
pub fn send<W: Write>(output: &mut W, text: &[u8]) -> Result<(), Failure>
    ensures { OnOk result (Appends (W.contents output.old) (W.contents output.new) text.now) }
{
    output.write_all(text).map_err(of_write)
}

// On standard error, by its `Display`; where that fails, nothing is left to be done. Where the reader of a pipe has gone, nobody asks.
pub fn say(rt: &impl Eprint, failure: Failure) {
    if failure != Failure::ReaderGone {
        let _ = rt.eprintln(failure);
    }
}

// What a program prints of its input, as the bytes come.
pub trait Session {
    // What is printed from here on, where these bytes follow.
    ghost rest: { Self → List ℕ → List ℕ };

    // One read, and what is printed of its bytes; whether the input goes on: a bool, since its two laws ask just that.
    fn turn<R: Read, W: Write>(&mut self, input: &mut R, output: &mut W) -> Result<bool, Failure>
        ensures went { IfOk result (λ more. IsTrue more → Went (rest self.old) (rest self.new) (R.remaining input.old) (R.remaining input.new) (W.contents output.old) (W.contents output.new)) }
        ensures ended { IfOk result (λ more. IsFalse more → Ended (rest self.old) (rest self.new) (R.remaining input.old) (W.contents output.old) (W.contents output.new)) };

    // What is printed where the input ends.
    fn finish<W: Write>(&mut self, output: &mut W) -> Result<(), Failure>
        ensures { OnOk result (Appends (W.contents output.old) (W.contents output.new) (rest self.old [])) };
}

// No input is longer; each turn reads at least one byte.
const MOST_TURNS: u64 = u64::MAX;

// Turn after turn, to the end of the input.
pub fn run<S: Session, R: Read, W: Write>(
    session: &mut S,
    input: &mut R,
    output: &mut W,
) -> Result<(), Failure>
    ensures { OnOk result (AllSent (S.rest session.old) (R.remaining input.old) (W.contents output.old) (W.contents output.new)) }
{
    for _ in 0..MOST_TURNS {
        if !session.turn(input, output)? {
            return session.finish(output);
        }
    }
    Ok(())
}
