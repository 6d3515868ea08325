// The header: 0-3 'RLIW', 4-5 version 1, 6 owner, 8-11 seconds in the book. All else is 0.
ghost use Rattle.std.specs.Prelude.{◌≡◌};
ghost use Rattle.codec.specs.Little.{u32_at};
ghost use Rattle.refusals.specs.Refusals.{number_in};
ghost use Rattle.block.specs.Header.{name, fields_number, header_of, header_says};

use crate::bytes::{check_of, is_zero};
use crate::{CHECK_AT, Header, SIZE};
use refusals::Refusal;

pub(crate) const NAME: &[u8; 4] = b"RLIW";

const NAME_AT: usize = 0;

const VERSION_AT: usize = 4;

pub(crate) const VERSION: u16 = 1;

const OWNER_AT: usize = 6;

// The spare byte before the seconds in the book.
const SPARE_AT: usize = 7;

const BOOK_SECONDS_AT: usize = 8;

// The first byte past the fields.
const END: usize = BOOK_SECONDS_AT + 4;

// The first four bytes, as a number.
fn first_bytes() -> u32
    ensures { result ≡ u32_at name 0 }
{
    codec::read_u32(NAME, 0)
}

impl Header {
    // The first rule that its fields break.
    #[tactic(auto, using(std::proofs::lemmas::Bool::Decides::nat_tests), unfolding(crate::specs::Header::fields_number))]
    pub(crate) fn check(self) -> Result<(), Refusal>
        ensures { number_in result ≡ fields_number self.owner self.seconds }
    {
        if self.owner > record::ALL_KINDS {
            return Err(Refusal::Owner);
        }
        if self.seconds == 0 || self.seconds > record::MOST_SECONDS {
            return Err(Refusal::BookSeconds);
        }
        Ok(())
    }
}

// Owner and seconds of the header, or the first rule that it breaks.
#[tactic(auto, using(std::proofs::lemmas::Bool::Decides::nat_tests), unfolding(crate::specs::Header::header_number, crate::specs::Header::fields_number))]
pub fn read_header(s: &[u8]) -> Result<Header, Refusal>
    ensures { header_says result ≡ header_of s.now }
{
    if s.len() != SIZE {
        return Err(Refusal::Length);
    }
    if codec::read_u32(s, CHECK_AT) != check_of(s) {
        return Err(Refusal::Check);
    }
    if codec::read_u32(s, NAME_AT) != first_bytes() {
        return Err(Refusal::FirstBytes);
    }
    if codec::read_u16(s, VERSION_AT) != VERSION {
        return Err(Refusal::Version);
    }
    let header = Header {
        owner: s[OWNER_AT],
        seconds: codec::read_u32(s, BOOK_SECONDS_AT),
    };
    header.check()?;
    if s[SPARE_AT] != 0 || !is_zero(&s[END..CHECK_AT]) {
        return Err(Refusal::SpareByte);
    }
    Ok(header)
}
