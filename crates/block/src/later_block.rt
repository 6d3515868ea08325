// A later block: 0-3 block number from 1, 4 seconds in it, from 16 on 108 bytes a second: U, A, B. All else is 0.
ghost use Rattle.std.specs.Prelude.{◌≡◌, ◌≤◌, ◌<◌, length, IfOk};
ghost use Rattle.record.specs.Record.{most_seconds};
ghost use Rattle.block.specs.Places.{block_size, per_block};
ghost use Rattle.block.specs.Block.{due_in, count_of, block_of, block_says, count_told, seconds_from, SecondIn};
ghost use Rattle.block.specs.Layout.{body_of};
ghost use Rattle.block.specs.Book.{last_block};

use crate::bytes::{check_of, is_zero};
use crate::{CHECK_AT, SIZE};
use refusals::Refusal;

const NUMBER_AT: usize = 0;

const COUNT_AT: usize = 4;

const COUNT_END: usize = COUNT_AT + 1;

// The first second's place, and the bytes of a second.
pub(crate) const BODY_AT: usize = 16;

pub(crate) const SECOND: usize = record::BOOK_SIZE;

// The seconds of a block that is not the last.
pub const PER_BLOCK: usize = 4;

// The number of the last block of a book. Asked in a clause: a header to be written may give any number of seconds, so `Header` says nothing of them.
pub fn last_block(seconds: u32) -> u32
    requires { seconds ≤ most_seconds }
    ensures { (result ≡ last_block seconds) × (result ≤ most_seconds) }
{
    seconds.div_ceil(PER_BLOCK as u32)
}

// How many seconds block n of the book has: 4, fewer in the last, none after it.
fn due(seconds: u32, n: u32) -> usize
    requires { 0 < n }
    ensures { (result ≡ due_in seconds n) × (result ≤ per_block) }
{
    let before = PER_BLOCK * (n as usize - 1);
    let left = (seconds as usize).saturating_sub(before);
    left.min(PER_BLOCK)
}

// The seconds of block n, a part of the caller's slice, read with the header's seconds and n, the number next in turn; or the first rule that the
// block breaks.
#[tactic(auto, using(std::proofs::lemmas::Bool::Decides::nat_tests, crate::proofs::Seconds::chunks), unfolding(crate::specs::Block::block_number))]
pub fn read_block(s: &[u8], seconds: u32, n: u32) -> Result<&[[u8; record::BOOK_SIZE]], Refusal>
    ensures count { block_says (count_told result) ≡ block_of s.now seconds n }
    ensures each { IfOk result (λ seconds. seconds.now ≡ seconds_from s.now 0 (count_of s.now)) }
{
    if s.len() != SIZE {
        return Err(Refusal::Length);
    }
    if codec::read_u32(s, CHECK_AT) != check_of(s) {
        return Err(Refusal::Check);
    }
    if codec::read_u32(s, NUMBER_AT) != n || n == 0 {
        return Err(Refusal::BlockNumber);
    }
    let count = due(seconds, n);
    if count == 0 {
        return Err(Refusal::BlockNumber);
    }
    if usize::from(s[COUNT_AT]) != count {
        return Err(Refusal::BlockSeconds);
    }
    let end = BODY_AT + SECOND * count;
    if !is_zero(&s[COUNT_END..BODY_AT]) || !is_zero(&s[end..CHECK_AT]) {
        return Err(Refusal::SpareByte);
    }
    let (seconds, _) = body(s, count).as_chunks();
    Ok(seconds)
}

// The bytes of second i of a block, counted from 0: U, A, B. Of any 512 bytes, so also of a block that `read_block` refuses.
pub fn second(s: &[u8], i: usize) -> &[u8]
    requires { (length s.now ≡ block_size) × (i < per_block) }
    ensures { SecondIn s.now i result.now }
{
    let from = BODY_AT + SECOND * i;
    &s[from..from + SECOND]
}

// The bytes of a block's first `count` seconds, of any 512 bytes.
pub fn body(s: &[u8], count: usize) -> &[u8]
    requires { (length s.now ≡ block_size) × (count ≤ per_block) }
    ensures { result.now ≡ body_of s.now count }
{
    &s[BODY_AT..BODY_AT + SECOND * count]
}
