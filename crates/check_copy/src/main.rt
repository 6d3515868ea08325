// Writes the book on standard input anew, block after block, up to the first that the reader refuses (02, W1); seconds are not judged. The
// copy of a book with nothing wrong in its form is the book (specs/Claims.antt).
#![tactic(auto)]

ghost use Rattle.std.specs.Prelude.{◌≡◌, ◌≤◌, IfSome};
ghost use Rattle.record.specs.Record.{most_seconds};
ghost use Rattle.block.specs.Header.{header_says};
ghost use Rattle.block.specs.Block.{block_says};
ghost use Rattle.check_copy.specs.Copy.{header_copy, block_copy};

use block::{Header, SIZE};
use refusals::Refusal;
use std::io::Read;

// The header, written anew into the buffer.
fn copy_header(bytes: &[u8], buf: &mut [u8; SIZE]) -> Result<Header, Refusal>
    ensures { record { said = header_says result; buffer = buf.new } ≡ header_copy buf.old bytes.now }
{
    let header = block::read_header(bytes)?;
    block::write_header(buf, header).unwrap();
    Ok(header)
}

// Block n of a book of `seconds` seconds, written anew into the buffer; how many seconds it has.
fn copy_block(bytes: &[u8], seconds: u32, n: u32, buf: &mut [u8; SIZE]) -> Result<usize, Refusal>
    ensures { record { said = block_says result; buffer = buf.new } ≡ block_copy buf.old bytes.now seconds n }
{
    let held = block::read_block(bytes, seconds, n)?;
    block::write_block(buf, n, held.as_flattened()).unwrap();
    Ok(held.len())
}

// A book on its way from `input` to standard output: the block read last, and the same written anew.
#[derive(Drop)]
struct Copier<R> {
    input: R,
    bytes: [u8; SIZE],
    anew: [u8; SIZE],
}

impl<R: Read> Copier<R> {
    // Sends the header anew; the seconds that it gives, none where it is refused or can't be sent.
    fn send_header(&mut self, rt: &impl Print) -> Option<u32>
        ensures { IfSome result (λ seconds. seconds ≤ most_seconds) }
    {
        let len = full_read::read_full(&mut self.input, &mut self.bytes);
        let header = copy_header(&self.bytes[..len], &mut self.anew).ok()?;
        rt.write_all(&self.anew).ok()?;
        Some(header.seconds)
    }

    // Sends block n anew; none where it is refused or can't be sent.
    fn send_block(&mut self, rt: &impl Print, seconds: u32, n: u32) -> Option<()> {
        let len = full_read::read_full(&mut self.input, &mut self.bytes);
        copy_block(&self.bytes[..len], seconds, n, &mut self.anew).ok()?;
        rt.write_all(&self.anew).ok()
    }

    // Sends the book, up to what is refused or can't be sent.
    fn send(&mut self, rt: &impl Print) -> Option<()> {
        let seconds = self.send_header(rt)?;
        for n in 1..=block::last_block(seconds) {
            self.send_block(rt, seconds, n)?;
        }
        Some(())
    }
}

fn main(rt: HostRuntime) {
    let mut copier = Copier {
        input: rt.stdin(),
        bytes: [0; SIZE],
        anew: [0; SIZE],
    };
    // It ends without a word, however far it came.
    copier.send(&rt);
}
