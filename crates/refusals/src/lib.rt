// Why a second, a block or a sheet is turned down (01, "When a book is turned down"; 02): each refusal with its number.
#![tactic(auto)]

ghost use Rattle.std.specs.Prelude.{◌≡◌};
ghost use Rattle.std.specs.Prelude.{Some};
ghost use Rattle.std.specs.Fmt.{decimal};
ghost use Rattle.refusals.specs.Refusals.{number_of};

use std::error::Error;
use std::fmt;

// Each stands for its number in the documents.
#[derive(Clone, Copy, Debug, PartialEq, Eq)]
pub enum Refusal {
    // The book has its 90,000 seconds.
    BookFull = 1,
    HeldPower = 2,
    Deviation = 3,
    // Measured or working point.
    Power = 4,
    AfrrSetpoint = 5,
    Status = 6,
    Call = 7,
    CallTarget = 8,
    CallEnd = 9,
    NinthLeftover = 10,
    // A kind off whose setpoint isn't 0; aFRR's and mFRR's are 24 and 25.
    FcrOff = 11,
    // Of the bytes handed over, or of the buffer for a block.
    Length = 12,
    Check = 13,
    FirstBytes = 14,
    Version = 15,
    Owner = 16,
    BookSeconds = 17,
    SpareByte = 18,
    BlockNumber = 19,
    BlockSeconds = 20,
    // Bytes after the last block.
    BytesLeft = 21,
    // The buffer for a line.
    LineRoom = 22,
    // The bytes of the seconds to be written.
    SecondsBytes = 23,
    AfrrOff = 24,
    MfrrOff = 25,
    // Between two quarter hours a kind goes on, or off without a fault.
    StatusChange = 26,
    MeterCount = 27,
    NoUsableMeter = 28,
    // The closing book doesn't end with a quarter hour.
    BookLength = 29,
    SheetFigure = 30,
    LoadFields = 31,
    LoadPoint = 32,
    LoadSignal = 33,
}

impl Refusal {
    // Its number.
    pub fn number(self) -> u8
        ensures { result ≡ number_of self }
    {
        self as u8
    }
}

impl fmt::Display for Refusal {
    ghost output = { λ e. Some (decimal (number_of e)) };

    fn fmt<W: fmt::Write>(&self, f: &mut fmt::Formatter<W>) -> fmt::Result {
        write!(f, "{}", self.number())
    }
}

impl Error for Refusal {}
