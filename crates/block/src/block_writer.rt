// A later block written into a lent buffer (02, W1), field after field, the check last.
ghost use Rattle.std.specs.Prelude.{◌≡◌, ◌*◌, ◌≤◌, length};
ghost use Rattle.block.specs.Places.{per_block, second_size};
ghost use Rattle.block.specs.Layout.{block_bytes};
ghost use Rattle.block.specs.Writing.{written_says, block_written};

use crate::bytes::{put_check, put_zeros};
use crate::later_block::{BODY_AT, PER_BLOCK, SECOND};
use crate::{CHECK_AT, SIZE};
use codec::Lent;
use refusals::Refusal;

// A later block's fields and their check.
fn put_block(block: &mut [u8; SIZE], n: u32, seconds: &[u8])
    requires { length seconds.now ≤ second_size * per_block }
    ensures { block.new ≡ block_bytes n seconds.now }
{
    let mut lent = Lent::new(block);
    lent.put_u32(n);
    lent.put_byte((seconds.len() / SECOND) as u8);
    put_zeros(&mut lent, BODY_AT);
    lent.put_bytes(seconds);
    put_zeros(&mut lent, CHECK_AT);
    put_check(&mut lent);
}

// Block n of a book, of the bytes of its seconds. Where a rule stands against it, the first that does, and the buffer stays as it was.
#[tactic(auto, unfolding(crate::specs::Writing::write_block_number))]
pub fn write_block(buf: &mut [u8], n: u32, seconds: &[u8]) -> Result<(), Refusal>
    ensures { record { said = written_says result; buffer = buf.new } ≡ block_written buf.old n seconds.now }
{
    let block = buf.as_mut_array().ok_or(Refusal::Length)?;
    if n == 0 {
        return Err(Refusal::BlockNumber);
    }
    let count = seconds.len() / SECOND;
    if seconds.len() % SECOND != 0 || count == 0 || count > PER_BLOCK {
        return Err(Refusal::SecondsBytes);
    }
    put_block(block, n, seconds);
    Ok(())
}
