// A book block after block: the header, the later blocks with the number next in turn, and bytes after the last; then the last line (01, "Blocks and
// text"). A `Standing` says where the book stands between two blocks. Bytes that come in pieces are crate `pieces`.
#![tactic(auto)]

ghost use Rattle.std.specs.Prelude.{◌≤◌, ◌≡◌, true};
ghost use Rattle.codec.specs.Lent.{HasRoom};
ghost use Rattle.refusals.specs.Refusals.{number_in};
ghost use Rattle.record.specs.Record.{most_seconds};
ghost use Rattle.block.specs.Book.{past_last};
ghost use Rattle.block.specs.Header.{header_number};
ghost use Rattle.report.specs.Text.{block_room, text_of};
ghost use Rattle.report.specs.Running.{verdict_told, block_in};
ghost use Rattle.standing.specs.Standing.{verdict_in, start, kept_by, is_due, bytes_due, header_by, later_by, beyond_by, standing_in, last_by, last_line_in, end_of, Advances};

use block::Header;
use book::Book;
use codec::Lent;
use refusals::Refusal;
use report::{Form, Kept, Plan, TextLine};
use sheet::FairSheet;

// Where a book stands between two of its blocks: `next` is the number of the block next in turn, 0 for the header. Before the header the plan
// has no seconds, so that block 0 is the last one due and one rule serves the header too; it never has more than a book may have. The verdict has
// a refusal's number, any byte, as `line::refusal_line` takes it (D69). Clauses see it by `stood`.
#[derive(Clone, Copy)]
pub struct Standing {
    pub plan: Plan,
    pub next: u32,
    pub kept: Kept,
    pub verdict: Result<(), u8>,
    ghost few: { plan.seconds ≤ most_seconds },
}

// What bytes after the last block say.
pub fn past_last(bytes: &[u8]) -> Result<(), Refusal>
    ensures { number_in result ≡ past_last bytes.now }
{
    if bytes.is_empty() {
        Ok(())
    } else {
        Err(Refusal::BytesLeft)
    }
}

// The sum line, or the refusal that ends the text.
#[tactic(auto, using(crate::proofs::Steps::last_told))]
pub fn last_line(verdict: Result<(), Refusal>, book: &Book) -> TextLine
    ensures { text_of result ≡ last_by (verdict_told verdict) book.now }
{
    last_line_by_number(verdict.map_err(Refusal::number), book)
}

// The sum line, or the refusal that ends the text by its number, which is any byte.
pub fn last_line_by_number(verdict: Result<(), u8>, book: &Book) -> TextLine
    ensures { text_of result ≡ last_by (verdict_in verdict) book.now }
{
    match verdict {
        Ok(()) => TextLine::Sums(book.sums),
        Err(number) => TextLine::Refusal {
            number,
            seconds: book.unit.seconds,
        },
    }
}

impl Standing {
    ghost use Rattle.standing.specs.Stood.{stood};

    // Sheet and form stay two parameters: the sheet goes into the book, the form into the plan.
    #[tactic(auto, unfolding(crate::specs::Standing::start))]
    pub fn new(sheet: FairSheet, form: Form) -> Standing
        ensures { stood result ≡ start sheet.figures form }
    {
        Standing {
            plan: Plan {
                form,
                owner: 0,
                seconds: 0,
            },
            next: 0,
            kept: Kept::new(sheet),
            verdict: Ok(()),
        }
    }

    // Whether a block is due.
    #[tactic(auto, unfolding(crate::specs::Standing::is_due), using(crate::proofs::Steps::due_ok, crate::proofs::Steps::due_err))]
    pub fn is_due(&self) -> bool
        ensures { result ≡ is_due (stood self.now) }
    {
        self.verdict.is_ok() && self.next <= block::last_block(self.plan.seconds)
    }

    // The bytes of the blocks that are due.
    #[tactic(auto, unfolding(crate::specs::Standing::bytes_due))]
    pub fn bytes_due(&self) -> usize
        requires { is_due (stood self.now) ≡ true }
        ensures { result ≡ bytes_due (stood self.now) }
    {
        let left = block::last_block(self.plan.seconds) + 1 - self.next;
        left as usize * block::SIZE
    }

    // The header gives owner and seconds.
    #[tactic(auto, using(crate::proofs::Steps::header_taken))]
    fn header(&mut self, bytes: &[u8])
        ensures { stood self.new ≡ (header_by (header_number bytes.now) (stood self.old) bytes.now).standing }
    {
        match block::read_header(bytes) {
            Ok(Header { owner, seconds }) => {
                self.plan.owner = owner;
                self.plan.seconds = seconds;
                self.next = 1;
            }
            Err(refusal) => self.verdict = Err(refusal.number()),
        }
    }

    // A later block: its seconds are run, or it is refused.
    fn later(&mut self, bytes: &[u8], text: &mut Lent)
        requires { HasRoom block_room text.old × (self.old.next ≤ most_seconds) }
        ensures { Advances block_room text.old text.new (stood self.new) (later_by (block_in self.old.plan self.old.next (kept_by (stood self.old)) bytes.now) (stood self.old)) }
    {
        let ran = self.kept.run_block(self.plan, self.next, bytes, text);
        self.verdict = ran.map_err(Refusal::number);
        self.next += 1;
    }

    // Bytes that no block is due for: after the last block they are refused, after a refusal nothing counts.
    #[tactic(auto, using(crate::proofs::Steps::told_ok, crate::proofs::Steps::past_last_told))]
    pub fn beyond(&mut self, bytes: &[u8])
        ensures { stood self.new ≡ (beyond_by (verdict_in self.old.verdict) (stood self.old) bytes.now).standing }
    {
        if self.verdict.is_ok() {
            self.verdict = past_last(bytes).map_err(Refusal::number);
        }
    }

    // The next block, of any bytes: its text follows the text in the lent buffer.
    #[tactic(auto, using(crate::proofs::Steps::due_few, crate::proofs::Steps::later_is))]
    pub fn block(&mut self, bytes: &[u8], text: &mut Lent)
        requires { HasRoom block_room text.old }
        ensures { Advances block_room text.old text.new (stood self.new) (standing_in (stood self.old) bytes.now) }
    {
        if !self.is_due() {
            self.beyond(bytes);
        } else if self.next == 0 {
            self.header(bytes);
        } else {
            self.later(bytes, text);
        }
    }

    // What the end of the bytes says: a block that is due and isn't whole gets 12.
    #[tactic(auto, unfolding(crate::specs::Standing::end_of))]
    fn end(&self) -> Result<(), u8>
        ensures { verdict_in result ≡ end_of (stood self.now) }
    {
        if self.is_due() {
            return Err(Refusal::Length.number());
        }
        self.verdict
    }

    // The sum line, or the refusal.
    #[tactic(auto, unfolding(crate::specs::Standing::last_line_in))]
    pub fn last_line(&self) -> TextLine
        ensures { text_of result ≡ last_line_in (stood self.now) }
    {
        last_line_by_number(self.end(), &self.kept.book)
    }
}

#[cfg(test)]
mod tests {
    use super::*;
    use row::{KwSeconds, Sums};
    use std::test::Fail;

    #[test]
    fn last_line_is_of_the_verdict(rt: HostRuntime) -> Result<(), Fail> {
        let mut book = Book::new(FairSheet::default());
        book.sums = Sums {
            a: KwSeconds(-79),
            b: KwSeconds(30),
            open: KwSeconds(0),
            due: KwSeconds(-49),
        };
        let mut buf = [0; 2 * line::ROW_ROOM];
        let mut text = Lent::new(&mut buf);
        report::add(&mut text, last_line(Ok(()), &book));
        report::add(&mut text, last_line(Err(Refusal::Check), &book));
        assert_eq!(rt;
            text.filled(),
            b"sum A -79 B 30 open 0 due -49\nrefused 13 at 0\n".as_slice()
        );
        Ok(())
    }
}
