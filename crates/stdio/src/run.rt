// A book's run: its bytes are read where the last piece stood, taken, and their text is sent.
ghost use Rattle.std.specs.Prelude.{◌≡◌};
ghost use Rattle.pieces.specs.Pieces.{unread};
ghost use Rattle.stdio.specs.Rest.{rest_of};

use pieces::{PIECE, PIECE_ROOM, Reading};
use report::Form;
use sending::{Failure, Session, receive, send};
use sheet::FairSheet;
use std::io::{Read, Write};
use std::marker::Model;

// Where the book stands, the bytes that are held at once, and room for their text.
#[derive(Drop)]
pub(crate) struct Run {
    reading: Reading,
    bytes: [u8; PIECE],
    out: [u8; PIECE_ROOM],
}

// Seen as where the book stands.
impl Model for Run {
    ghost use Rattle.pieces.specs.Pieces.{Reading as Place};
    ghost use Rattle.pieces.specs.Placed.{placed};

    ghost Value = { Place };

    ghost view = { λ r. placed r.reading };
}

impl Run {
    // Before the first byte, under a sheet whose figures are in range.
    pub(crate) fn new(sheet: FairSheet, form: Form) -> Run
        ensures { result ≡ unread sheet.figures form }
    {
        Run {
            reading: Reading::new(sheet, form),
            bytes: [0; PIECE],
            out: [0; PIECE_ROOM],
        }
    }
}

impl Session for Run {
    ghost rest = { rest_of };

    // Where no more bytes are wanted, the input counts as ended.
    fn turn<R: Read, W: Write>(&mut self, input: &mut R, output: &mut W) -> Result<bool, Failure> {
        let wanted = self.reading.wanted();
        if wanted == 0 {
            return Ok(false);
        }
        let n = receive(input, &mut self.bytes[..wanted])?;
        if n == 0 {
            return Ok(false);
        }
        let used = self.reading.take(&self.bytes[..n], &mut self.out);
        send(output, &self.out[..used])?;
        Ok(true)
    }

    // The last line.
    fn finish<W: Write>(&mut self, output: &mut W) -> Result<(), Failure> {
        let end = self.reading.last_line(&mut self.out);
        send(output, &self.out[..end])
    }
}
