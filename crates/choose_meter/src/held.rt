// The bytes of the input as they come, and the lines of their records.
ghost use Rattle.std.specs.Prelude.{◌<◌, ◌≡◌, ◌++◌, List, [], ℕ, take};
ghost use Rattle.choose_meter.specs.Records.{record_size};
ghost use Rattle.choose_meter.specs.Printed.{printed};

use crate::lines::{PIECE, ROOM, keep, put_lines, put_rest};
use codec::Lent;
use sending::{Failure, Session, receive, send};
use std::io::{Read, Write};
use std::marker::Model;

// The bytes that are held at once, of which the first `filled` are a record begun, and room for their lines. A read fills a slice, and the kit's
// ArrayVec lends none past its length: with it, the record begun would stand apart, and the first record of a piece be joined of two parts.
#[derive(Drop)]
pub(crate) struct Held {
    bytes: [u8; PIECE],
    filled: usize,
    out: [u8; ROOM],
}

// Seen as the bytes of the record begun.
impl Model for Held {
    ghost Value = { List ℕ };

    ghost view = { λ h. take h.filled h.bytes };

    ghost invariant = { λ h. h.filled < record_size };
}

impl Held {
    pub(crate) fn new() -> Held
        ensures { result ≡ [] }
    {
        Held {
            bytes: [0; PIECE],
            filled: 0,
            out: [0; ROOM],
        }
    }
}

impl Session for Held {
    ghost rest = { λ h next. printed (h ++ next) };

    fn turn<R: Read, W: Write>(&mut self, input: &mut R, output: &mut W) -> Result<bool, Failure> {
        let filled = self.filled;
        let n = receive(input, &mut self.bytes[filled..])?;
        if n == 0 {
            return Ok(false);
        }
        let mut lines = Lent::new(&mut self.out);
        put_lines(&mut lines, &self.bytes[..filled + n]);
        send(output, lines.filled())?;
        let filled = keep(&mut self.bytes, filled + n);
        self.filled = filled;
        Ok(true)
    }

    // The line of a record cut short.
    fn finish<W: Write>(&mut self, output: &mut W) -> Result<(), Failure> {
        let mut line = Lent::new(&mut self.out);
        put_rest(&mut line, &self.bytes[..self.filled]);
        send(output, line.filled())
    }
}
