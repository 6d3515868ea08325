// A block run second by second: the text that it adds, what is kept after it, and its refusal.
ghost use Rattle.std.specs.Prelude.{◌≡◌, ◌≤◌, length};
ghost use Rattle.codec.specs.Lent.{HasRoom};
ghost use Rattle.book.specs.State.{fresh};
ghost use Rattle.tally.specs.Tally.{zero};
ghost use Rattle.block.specs.Places.{per_block};
ghost use Rattle.report.specs.Text.{second_room, block_room};
ghost use Rattle.report.specs.Kept.{Kept as Held, keep, KeptReady};
ghost use Rattle.report.specs.Running.{verdict_told, second_in, seconds_in, block_in, Adds};

use crate::Form;
use crate::lines::add_second;
use book::{Book, BookRefusal};
use codec::Lent;
use record::BOOK_SIZE;
use refusals::Refusal;
use sheet::FairSheet;
use std::marker::Model;
use tally::Tally;

// How a book is run: the form of its lines, and what its header gives.
#[derive(Clone, Copy)]
pub struct Plan {
    pub form: Form,
    pub owner: u8,
    pub seconds: u32,
}

// What is kept of the accepted seconds: the book, and how often each kind stood outside its band.
#[derive(Clone, Copy)]
pub struct Kept {
    pub book: Book,
    pub tally: Tally,
}

// Seen as its two fields. The book is ready, and no count is larger than its seconds allow.
impl Model for Kept {
    ghost Value = { Held };

    ghost view = { λ k. keep k.book k.tally };

    ghost invariant = { λ k. KeptReady (keep k.book k.tally) };

    ghost inverse = { λ v. record { book = v.book; tally = v.tally } };
}

impl Kept {
    // Before the first second, under a sheet whose figures are in range.
    pub fn new(sheet: FairSheet) -> Kept
        ensures { result ≡ keep (fresh sheet.figures) zero }
    {
        Kept {
            book: Book::new(sheet),
            tally: Tally::new(),
        }
    }

    // One book second: its lines, or its refusal. The plan stays a parameter: what is kept moves on from second to second, the plan never does.
    pub fn run_second(&mut self, plan: Plan, bytes: &[u8], text: &mut Lent) -> Result<(), Refusal>
        requires { HasRoom second_room text.old }
        ensures { Adds second_room text.old text.new self.new (verdict_told result) (second_in plan self.old bytes.now) }
    {
        let second = self.book.unit.seconds;
        let rows = self
            .book
            .second(plan.owner, bytes)
            .map_err(BookRefusal::refusal)?;
        self.tally = self.tally.with_second(rows.unit, rows.a, rows.b);
        add_second(text, plan.form, second, rows);
        Ok(())
    }

    // The seconds of a block, until one is refused.
    fn run_seconds(
        &mut self,
        plan: Plan,
        seconds: &[[u8; BOOK_SIZE]],
        text: &mut Lent,
    ) -> Result<(), Refusal>
        requires { (length seconds.now ≤ per_block) × HasRoom block_room text.old }
        ensures { Adds block_room text.old text.new self.new (verdict_told result) (seconds_in plan self.old seconds.now) }
    {
        for second in seconds {
            self.run_second(plan, second, text)?;
        }
        Ok(())
    }

    // Block n as it was read: its seconds are run, or it is refused.
    pub fn run_block(
        &mut self,
        plan: Plan,
        n: u32,
        block: &[u8],
        text: &mut Lent,
    ) -> Result<(), Refusal>
        requires { HasRoom block_room text.old }
        ensures { Adds block_room text.old text.new self.new (verdict_told result) (block_in plan n self.old block.now) }
    {
        let seconds = block::read_block(block, plan.seconds, n)?;
        self.run_seconds(plan, seconds, text)
    }
}
