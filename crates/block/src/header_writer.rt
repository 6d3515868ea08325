// The header written into a lent buffer (02, W1), field after field, the check last.
ghost use Rattle.std.specs.Prelude.{◌≡◌};
ghost use Rattle.block.specs.Layout.{header_bytes};
ghost use Rattle.block.specs.Writing.{written_says, header_written};

use crate::bytes::{put_check, put_zeros};
use crate::header_block::{NAME, VERSION};
use crate::{CHECK_AT, Header, SIZE};
use codec::Lent;
use refusals::Refusal;

// The header's fields and their check.
fn put_header(block: &mut [u8; SIZE], header: Header)
    ensures { block.new ≡ header_bytes header.owner header.seconds }
{
    let mut lent = Lent::new(block);
    lent.put_bytes(NAME);
    lent.put_u16(VERSION);
    lent.put_byte(header.owner);
    lent.put_byte(0);
    lent.put_u32(header.seconds);
    put_zeros(&mut lent, CHECK_AT);
    put_check(&mut lent);
}

// A book's header. Where a rule stands against it, the first that does, and the buffer stays as it was.
#[tactic(auto, unfolding(crate::specs::Writing::write_header_number, crate::specs::Header::fields_number))]
pub fn write_header(buf: &mut [u8], header: Header) -> Result<(), Refusal>
    ensures { record { said = written_says result; buffer = buf.new } ≡ header_written buf.old header.owner header.seconds }
{
    let block = buf.as_mut_array().ok_or(Refusal::Length)?;
    header.check()?;
    put_header(block, header);
    Ok(())
}
