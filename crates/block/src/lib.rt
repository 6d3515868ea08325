// A book's header and its later blocks (01, "Blocks and text"), 512 bytes each. Read from any slice: the answer is the block's
// fields or the first rule that it breaks (specs/Header.antt, specs/Block.antt); a block is accepted exactly when it has the layout of
// specs/Layout.antt (specs/Claims.antt). Written into a lent buffer (02, W1): specs/Writing.antt.
#![tactic(auto)]

mod block_writer;
mod bytes;
mod header_block;
mod header_writer;
mod later_block;

pub use block_writer::write_block;
pub use header_block::read_header;
pub use header_writer::write_header;
pub use later_block::{PER_BLOCK, body, last_block, read_block, second};

// The bytes of a block, and the place of its check.
pub const SIZE: usize = 512;

pub const CHECK_AT: usize = 508;

// What the header gives: the owner byte, and the seconds in the book. The owner is a byte: any may come, and one above 7 is refused (D69).
#[derive(Clone, Copy, Debug, PartialEq, Eq)]
pub struct Header {
    pub owner: u8,
    pub seconds: u32,
}
