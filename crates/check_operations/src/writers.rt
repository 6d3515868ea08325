// The writers' answers, and the buffer after each (02, W1).
ghost use Rattle.std.specs.Prelude.{◌≤◌};
ghost use Rattle.std.specs.Fn.{FnOnceReturnsAtMut};
ghost use Rattle.refusals.specs.Refusals.{number_in};
ghost use Rattle.block.specs.Writing.{header_written, block_written};
ghost use Rattle.check_operations.specs.Numbers.{Wrote};

use crate::Outcome;
use block::{Header, write_block, write_header};
use refusals::Refusal;
use std::io;

// The most bytes of seconds.
const MOST_BYTES: usize = 260 * record::BOOK_SIZE;

// From one byte to the next, in what a buffer holds before, and in the bytes of seconds.
const BUFFER: u8 = 7;

const SECONDS: u8 = 13;

// Byte i is 3 and i times the step, below 251.
fn fill(bytes: &mut [u8], step: u8) {
    let mut next = 3;
    for byte in bytes {
        *byte = next;
        next = ((u16::from(next) + u16::from(step)) % 251) as u8;
    }
}

// The sum of each byte times its place, counted from 1. No buffer here is so long that it wraps.
fn weight(bytes: &[u8]) -> u64 {
    let mut sum: u64 = 0;
    for (i, byte) in bytes.iter().enumerate() {
        sum = sum.wrapping_add((i as u64 + 1).wrapping_mul(u64::from(*byte)));
    }
    sum
}

// What a writer answers, and the weight of the buffer after it.
fn written<F: FnOnce(&mut [u8]) -> Result<(), Refusal>>(
    buf: &mut [u8],
    write: F,
) -> (Result<(), Refusal>, u64)
    requires { F.IsAlwaysCallable write }
    ensures { FnOnceReturnsAtMut F.FnOnce write buf.old result.0 buf.new }
{
    let answer = write(buf);
    (answer, weight(buf))
}

fn ask<F: FnOnce(&mut [u8]) -> Result<(), Refusal>>(
    rt: &impl Print,
    what: &str,
    buf: &mut [u8],
    write: F,
) -> io::Result<()>
    requires { F.IsAlwaysCallable write }
{
    let (answer, weight) = written(buf, write);
    println!(rt; "{what} {} {weight}", Outcome(answer))
}

// Into a buffer that is filled with other bytes first.
fn ask_of<F: FnOnce(&mut [u8]) -> Result<(), Refusal>>(
    rt: &impl Print,
    what: &str,
    buf: &mut [u8],
    write: F,
) -> io::Result<()>
    requires { F.IsAlwaysCallable write }
{
    fill(buf, BUFFER);
    ask(rt, what, buf, write)
}

// The header writer. No contract can speak of what is printed, so this one says which number is answered and what the buffer holds after it.
#[tactic(auto, using(crate::proofs::Asked::wrote))]
fn ask_header_writer(buf: &mut [u8], owner: u8, seconds: u32) -> Result<(), Refusal>
    ensures { Wrote (number_in result) buf.new (header_written buf.old owner seconds) }
{
    write_header(buf, Header { owner, seconds })
}

// The block writer likewise.
#[tactic(auto, using(crate::proofs::Asked::wrote))]
fn ask_block_writer(buf: &mut [u8], n: u32, seconds: &[u8]) -> Result<(), Refusal>
    ensures { Wrote (number_in result) buf.new (block_written buf.old n seconds.now) }
{
    write_block(buf, n, seconds)
}

fn header(rt: &impl Print, what: &str, buf: &mut [u8], owner: u8, seconds: u32) -> io::Result<()> {
    ask_of(
        rt,
        what,
        buf,
        |buf|
            ensures { Wrote (number_in result) buf.new (header_written buf.old owner seconds) }
        { ask_header_writer(buf, owner, seconds) },
    )
}

// Block n of so many bytes of seconds.
fn block(rt: &impl Print, what: &str, buf: &mut [u8], n: u32, bytes: usize) -> io::Result<()>
    requires { bytes ≤ 28080 }
{
    let mut seconds = [0u8; MOST_BYTES];
    fill(&mut seconds, SECONDS);
    let seconds = &seconds[..bytes];
    ask_of(
        rt,
        what,
        buf,
        |buf|
            ensures { Wrote (number_in result) buf.new (block_written buf.old n seconds.entry.now) }
        { ask_block_writer(buf, n, seconds) },
    )
}

pub(crate) fn headers(rt: &impl Print) -> io::Result<()> {
    header(rt, "write-header", &mut [0; 512], 2, 1)?;
    header(rt, "write-header-most", &mut [0; 512], 7, 90000)?;
    header(rt, "write-header-12-short", &mut [0; 511], 2, 1)?;
    header(rt, "write-header-12-long", &mut [0; 513], 2, 1)?;
    header(rt, "write-header-12-empty", &mut [0; 0], 2, 1)?;
    header(rt, "write-header-12-before-16", &mut [0; 511], 8, 1)?;
    header(rt, "write-header-12-before-17", &mut [0; 513], 2, 0)?;
    header(rt, "write-header-16", &mut [0; 512], 8, 1)?;
    header(rt, "write-header-16-largest", &mut [0; 512], 255, 1)?;
    header(rt, "write-header-16-before-17", &mut [0; 512], 8, 0)?;
    header(rt, "write-header-17-none", &mut [0; 512], 7, 0)?;
    header(rt, "write-header-17-one-more", &mut [0; 512], 0, 90001)?;
    header(rt, "write-header-17-largest", &mut [0; 512], 0, 4294967295)
}

pub(crate) fn blocks(rt: &impl Print) -> io::Result<()> {
    block(rt, "write-block-one", &mut [0; 512], 1, 108)?;
    block(rt, "write-block-two", &mut [0; 512], 22500, 216)?;
    block(rt, "write-block-three", &mut [0; 512], 16909060, 324)?;
    block(rt, "write-block-four", &mut [0; 512], 4294967295, 432)?;
    block(rt, "write-block-12-short", &mut [0; 511], 1, 108)?;
    block(rt, "write-block-12-long", &mut [0; 513], 1, 108)?;
    block(rt, "write-block-12-empty", &mut [0; 0], 1, 108)?;
    block(rt, "write-block-12-before-19", &mut [0; 511], 0, 108)?;
    block(rt, "write-block-12-before-23", &mut [0; 513], 1, 107)?;
    block(rt, "write-block-19", &mut [0; 512], 0, 108)?;
    block(rt, "write-block-19-before-23", &mut [0; 512], 0, 0)?;
    block(rt, "write-block-23-none", &mut [0; 512], 1, 0)?;
    block(rt, "write-block-23-less", &mut [0; 512], 1, 107)?;
    block(rt, "write-block-23-more", &mut [0; 512], 1, 109)?;
    block(rt, "write-block-23-one-byte-more", &mut [0; 512], 1, 433)?;
    block(rt, "write-block-23-five", &mut [0; 512], 1, 540)?;
    block(rt, "write-block-23-many", &mut [0; 512], 1, 28080)
}

// Three blocks one after the other into one buffer: none leaves a byte of the one before it.
pub(crate) fn one_buffer(rt: &impl Print) -> io::Result<()> {
    let mut buf = [0u8; block::SIZE];
    fill(&mut buf, BUFFER);
    let mut four = [0u8; block::PER_BLOCK * record::BOOK_SIZE];
    fill(&mut four, SECONDS);
    ask(
        rt,
        "write-block-first-of-two",
        &mut buf,
        |buf| ask_block_writer(buf, 1, &four),
    )?;
    let mut one = [0u8; record::BOOK_SIZE];
    fill(&mut one, SECONDS);
    ask(
        rt,
        "write-block-over-it",
        &mut buf,
        |buf| ask_block_writer(buf, 2, &one),
    )?;
    ask(
        rt,
        "write-header-over-it",
        &mut buf,
        |buf| ask_header_writer(buf, 5, 5),
    )
}
