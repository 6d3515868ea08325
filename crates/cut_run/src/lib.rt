// The seconds of a book that is handed over once, before second `at` is judged (02, W7): up to there they are run as in every book, from there on
// in the next book, with the delivery ends of their calls in its seconds.
#![tactic(auto)]

ghost use Rattle.std.specs.Prelude.{◌≡◌, ◌≤◌, false, length};
ghost use Rattle.codec.specs.Lent.{HasRoom};
ghost use Rattle.block.specs.Places.{per_block};
ghost use Rattle.line.specs.Widths.{row_room};
ghost use Rattle.report.specs.Text.{second_room};
ghost use Rattle.report.specs.Running.{verdict_told};
ghost use Rattle.book.specs.Cut.{bytes_back};
ghost use Rattle.cut.specs.Running.{handed_in, before_in, judged_in, cut_second_in, cut_seconds_in, cut_block_in};
ghost use Rattle.cut_run.specs.Adding.{cut_room, cut_block_room, CutAdds};

use codec::Lent;
use record::BOOK_SIZE;
use refusals::Refusal;
use report::{Kept, Plan, TextLine};
use tally::Tally;

// How a book is run, the second before which it is handed over, what is kept in the book that is open, and whether that one was handed over. The
// flag guards no value: what is kept is whole before the handover and after it.
#[derive(Clone, Copy)]
pub struct Cut {
    pub plan: Plan,
    pub at: u32,
    pub kept: Kept,
    pub handed: bool,
}

// A book second with the delivery ends of U's, A's and B's calls moved back.
fn bytes_back(bytes: &[u8; BOOK_SIZE], seconds: u32) -> [u8; BOOK_SIZE]
    ensures { result ≡ bytes_back seconds bytes.now }
{
    let mut moved = *bytes;
    let (unit, pools) = moved.split_first_chunk_mut().unwrap();
    let (a, b) = pools.split_first_chunk_mut().unwrap();
    record::move_back(unit, seconds);
    record::move_back(a, seconds);
    record::move_back(b.as_mut_array().unwrap(), seconds);
    moved
}

impl Cut {
    // The first book's sum line, and its handover.
    fn hand_over(&mut self, text: &mut Lent) -> Result<(), Refusal>
        requires { (self.old.handed ≡ false) × HasRoom row_room text.old }
        ensures { CutAdds row_room text.old text.new self.old self.new (verdict_told result) (handed_in self.old.kept) }
    {
        report::add(text, TextLine::Sums(self.kept.book.sums));
        self.kept.book.hand_over()?;
        self.kept.tally = Tally::new();
        self.handed = true;
        Ok(())
    }

    // Before a second is judged: where it is second `at`, the handover.
    fn before(&mut self, text: &mut Lent) -> Result<(), Refusal>
        requires { HasRoom row_room text.old }
        ensures { CutAdds row_room text.old text.new self.old self.new (verdict_told result) (before_in self.old.at self.old.kept self.old.handed) }
    {
        if self.handed || self.kept.book.unit.seconds != self.at {
            return Ok(());
        }
        self.hand_over(text)
    }

    // The second itself, in the book that is open: in the next one with its calls' ends moved back.
    fn judge(&mut self, bytes: &[u8; BOOK_SIZE], text: &mut Lent) -> Result<(), Refusal>
        requires { HasRoom second_room text.old }
        ensures { CutAdds second_room text.old text.new self.old self.new (verdict_told result) (judged_in self.old.plan self.old.at self.old.kept self.old.handed bytes.now) }
    {
        if self.handed {
            let moved = bytes_back(bytes, self.at);
            self.kept.run_second(self.plan, &moved, text)
        } else {
            self.kept.run_second(self.plan, bytes, text)
        }
    }

    // One second, with what comes before it.
    fn second(&mut self, bytes: &[u8; BOOK_SIZE], text: &mut Lent) -> Result<(), Refusal>
        requires { HasRoom cut_room text.old }
        ensures { CutAdds cut_room text.old text.new self.old self.new (verdict_told result) (cut_second_in self.old.plan self.old.at self.old.kept self.old.handed bytes.now) }
    {
        self.before(text)?;
        self.judge(bytes, text)
    }

    // The seconds of a block, until one is refused or the handover is. A loop beside that of `report`: one for both would ask for a closure that holds
    // the cut and the text, which is no plainer.
    fn seconds(&mut self, seconds: &[[u8; BOOK_SIZE]], text: &mut Lent) -> Result<(), Refusal>
        requires { (length seconds.now ≤ per_block) × HasRoom cut_block_room text.old }
        ensures { CutAdds cut_block_room text.old text.new self.old self.new (verdict_told result) (cut_seconds_in self.old.plan self.old.at self.old.kept self.old.handed seconds.now) }
    {
        for second in seconds {
            self.second(second, text)?;
        }
        Ok(())
    }

    // Block n as it was read: its seconds are run, or it is refused.
    pub fn block(&mut self, n: u32, bytes: &[u8], text: &mut Lent) -> Result<(), Refusal>
        requires { HasRoom cut_block_room text.old }
        ensures { CutAdds cut_block_room text.old text.new self.old self.new (verdict_told result) (cut_block_in self.old.plan self.old.at n self.old.kept self.old.handed bytes.now) }
    {
        let seconds = block::read_block(bytes, self.plan.seconds, n)?;
        self.seconds(seconds, text)
    }
}
