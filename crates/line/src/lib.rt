// The lines of a book as text (01, "Blocks and text"), into a buffer that the caller lends. A buffer with too little room gets 22
// and stays as it was; else the answer is the line's length and the bytes past the line stay (specs/Lined.antt). And numbers for lines of other
// crates.
#![tactic(auto)]

mod book_lines;
mod number;
mod row_lines;
mod share_lines;
mod short_lines;

ghost use Rattle.std.specs.Prelude.{◌≡◌, nat_lt, length, if◌then◌else◌};
ghost use Rattle.refusals.specs.Refusals.{number_in};

pub use book_lines::{refusal_line, second_line, sum_line};
pub use number::{Figure, put_count, put_field};
use refusals::Refusal;
use row::Row;
pub use row_lines::{ROW_ROOM, plant_line};
pub use share_lines::plant_shares;
pub use short_lines::{plant_counts, plant_short};

// A plant's row in a second, with the letter that its lines name it by: any byte, since the writers put what they get and know no plants (D69).
#[derive(Clone, Copy)]
pub struct PlantSecond {
    pub second: u32,
    pub letter: u8,
    pub row: Row,
}

// Turns down a buffer of fewer than `least` bytes.
fn check_room(buf: &[u8], least: usize) -> Result<(), Refusal>
    ensures { number_in result ≡ (if nat_lt (length buf.now) least then 22 else 0) }
{
    if buf.len() < least {
        return Err(Refusal::LineRoom);
    }
    Ok(())
}
