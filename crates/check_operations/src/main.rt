// What the operations answer where no book can lead: one line each. Those of the writers: writers.rt.
#![tactic(auto)]

mod writers;

ghost use Rattle.std.specs.Prelude.{◌≡◌, ◌<◌};
ghost use Rattle.refusals.specs.Refusals.{number_in};
ghost use Rattle.plant.specs.State.{Ready};
ghost use Rattle.check_operations.specs.Numbers.{plant_number, book_number, line_number, blank_block, blank_number};

use block::read_block;
use book::{Book, BookRefusal};
use line::sum_line;
use plant::PlantState;
use refusals::Refusal;
use row::{KwSeconds, Sums};
use sheet::FairSheet;
use std::{fmt, io};

// The seconds of the book that a block is read for: it has one block.
const SECONDS: u32 = block::PER_BLOCK as u32;

// A plant after that many seconds of 0 alone: no kind is on, so each is accepted while a book may be longer.
fn after_blank(sheet: FairSheet, seconds: u32) -> PlantState
    ensures { Ready sheet.figures result }
{
    let blank = [0u8; record::SIZE];
    let mut state = PlantState::new();
    for _ in 0..seconds {
        let _ = state.second(sheet, &blank);
    }
    state
}

fn ask_plant(sheet: FairSheet, mut state: PlantState, bytes: &[u8]) -> Result<(), Refusal>
    requires { Ready sheet.figures state }
    ensures { number_in result ≡ plant_number sheet.figures state bytes.now }
{
    state.second(sheet, bytes)?;
    Ok(())
}

// A fresh book.
fn ask_book(sheet: FairSheet, owner: u8, bytes: &[u8]) -> Result<(), Refusal>
    ensures { number_in result ≡ book_number sheet.figures owner bytes.now }
{
    Book::new(sheet)
        .second(owner, bytes)
        .map_err(BookRefusal::refusal)?;
    Ok(())
}

fn ask_sum_line(buf: &mut [u8], sums: Sums) -> Result<(), Refusal>
    ensures { number_in result ≡ line_number buf.old sums }
{
    sum_line(buf, sums)?;
    Ok(())
}

// A block with no second in it, its number and its check.
fn blank_block(number: u8) -> [u8; block::SIZE]
    requires { number < 255 }
    ensures { result ≡ blank_block number }
{
    let mut bytes = [0u8; block::SIZE];
    bytes[0] = number;
    bytes[block::CHECK_AT] = 1 + number;
    bytes
}

// The block reader, with such a block whose number is the next.
fn ask_block(number: u8) -> Result<(), Refusal>
    requires { number < 255 }
    ensures { number_in result ≡ blank_number number }
{
    let bytes = blank_block(number);
    read_block(&bytes, SECONDS, u32::from(number))?;
    Ok(())
}

// In words what came of an operation.
#[derive(Clone, Copy)]
struct Outcome(Result<(), Refusal>);

impl fmt::Display for Outcome {
    fn fmt<W: fmt::Write>(&self, f: &mut fmt::Formatter<W>) -> fmt::Result {
        match self.0 {
            Ok(()) => write!(f, "accepted"),
            Err(refusal) => write!(f, "refused {refusal}"),
        }
    }
}

fn report(rt: &impl Print, what: &str, answer: Result<(), Refusal>) -> io::Result<()> {
    println!(rt; "{what} {}", Outcome(answer))
}

fn plant_after_all(rt: &impl Print) -> io::Result<()> {
    let record = [0u8; record::SIZE];
    let sheet = FairSheet::default();
    let state = after_blank(sheet, record::MOST_SECONDS);
    report(rt, "plant-second-90001", ask_plant(sheet, state, &record))
}

fn owner_8(rt: &impl Print) -> io::Result<()> {
    let second = [0u8; record::BOOK_SIZE];
    report(
        rt,
        "book-second-owner-8",
        ask_book(FairSheet::default(), 8, &second),
    )
}

fn buffer_199(rt: &impl Print) -> io::Result<()> {
    let mut buffer = [0u8; 199];
    let zero = KwSeconds(0);
    let sums = Sums {
        a: zero,
        b: zero,
        open: zero,
        due: zero,
    };
    report(rt, "line-buffer-199", ask_sum_line(&mut buffer, sums))
}

fn plant_short(rt: &impl Print) -> io::Result<()> {
    let record = [0u8; 35];
    let answer = ask_plant(FairSheet::default(), PlantState::new(), &record);
    report(rt, "plant-second-35-bytes", answer)
}

fn book_short(rt: &impl Print) -> io::Result<()> {
    let second = [0u8; 107];
    report(
        rt,
        "book-second-107-bytes",
        ask_book(FairSheet::default(), 0, &second),
    )
}

fn main(rt: HostRuntime) -> io::Result<()> {
    plant_after_all(&rt)?;
    owner_8(&rt)?;
    buffer_199(&rt)?;
    report(&rt, "block-number-0", ask_block(0))?;
    report(&rt, "block-none-due", ask_block(5))?;
    plant_short(&rt)?;
    book_short(&rt)?;
    writers::headers(&rt)?;
    writers::blocks(&rt)?;
    writers::one_buffer(&rt)
}
