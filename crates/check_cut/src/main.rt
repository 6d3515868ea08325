// For the gate alone (02, W7): reads a count of 4 bytes, the lowest first, and a book; prints the book's rows, handed over before that second is
// judged, and the sum line of each part, under the default sheet. What is printed is `cut_printed` of crate `cut`. A read or write that fails ends it.
#![tactic(auto)]

ghost use Rattle.std.specs.Prelude.{◌≡◌, ◌≤◌, IfErr};
ghost use Rattle.refusals.specs.Refusals.{told};
ghost use Rattle.record.specs.Record.{most_seconds};
ghost use Rattle.check_cut.specs.declared.Stop.TheVariants.{Refused, Unsent};
ghost use Rattle.check_cut.specs.Running.{Opens, IsStart, AfterBlock};

use block::{Header, SIZE};
use codec::Lent;
use cut_run::Cut;
use refusals::Refusal;
use report::{Form, Kept, Plan};
use sheet::FairSheet;
use std::io::Read;

// Room for the text of a block: a second's three rows, and a sum line before each.
const ROOM: usize = block::PER_BLOCK * 4 * line::ROW_ROOM;

// Why no later block is read: the book is refused, or a block's text can't be sent.
#[derive(Clone, Copy, Debug, PartialEq, Eq)]
enum Stop {
    Refused(Refusal),
    Unsent,
}

impl From<Refusal> for Stop {
    ghost from_gives = { λ refusal stop. stop ≡ Refused refusal };

    fn from(refusal: Refusal) -> Stop {
        Stop::Refused(refusal)
    }
}

// What the header gives.
fn open(bytes: &[u8]) -> Result<Plan, Refusal>
    ensures { Opens bytes.now (told result) }
{
    let Header { owner, seconds } = block::read_header(bytes)?;
    Ok(Plan {
        form: Form::Figures,
        owner,
        seconds,
    })
}

// Before the header, which gives owner and seconds.
fn start(at: u32) -> Cut
    ensures { IsStart at result }
{
    Cut {
        plan: Plan {
            form: Form::Figures,
            owner: 0,
            seconds: 0,
        },
        at,
        kept: Kept::new(FairSheet::default()),
        handed: false,
    }
}

fn send(rt: &impl Print, text: &[u8]) -> Result<(), Stop>
    ensures { IfErr result (λ stop. stop ≡ Unsent) }
{
    rt.write_all(text).map_err(|_| Stop::Unsent)
}

// A book on its way from `input` to standard output: how far it came, the block read last, and room for a block's text.
#[derive(Drop)]
struct Printer<R> {
    input: R,
    cut: Cut,
    bytes: [u8; SIZE],
    out: [u8; ROOM],
}

impl<R: Read> Printer<R> {
    // Reads block n, runs it and sends its text.
    fn block(&mut self, rt: &impl Print, n: u32) -> Result<(), Stop>
        ensures { AfterBlock n self.old.cut self.new.cut result }
    {
        let len = full_read::read_full(&mut self.input, &mut self.bytes);
        let mut text = Lent::new(&mut self.out);
        let verdict = self.cut.block(n, &self.bytes[..len], &mut text);
        send(rt, text.filled())?;
        Ok(verdict?)
    }

    // Block after block, until one is refused or its text can't be sent.
    fn blocks(&mut self, rt: &impl Print) -> Result<(), Stop>
        requires { self.old.cut.plan.seconds ≤ most_seconds }
    {
        for n in 1..=block::last_block(self.cut.plan.seconds) {
            self.block(rt, n)?;
        }
        Ok(())
    }

    // The header, the blocks after it, and what follows the last one.
    fn book(&mut self, rt: &impl Print) -> Result<(), Stop> {
        let len = full_read::read_full(&mut self.input, &mut self.bytes);
        self.cut.plan = open(&self.bytes[..len])?;
        self.blocks(rt)?;
        let len = full_read::read_full(&mut self.input, &mut self.bytes);
        Ok(standing::past_last(&self.bytes[..len])?)
    }
}

// The last line is printed where all text before it was sent.
fn main(rt: HostRuntime) {
    let mut count = [0; 4];
    full_read::read_full(&mut rt.stdin(), &mut count);
    let mut printer = Printer {
        input: rt.stdin(),
        cut: start(codec::read_u32(&count, 0)),
        bytes: [0; SIZE],
        out: [0; ROOM],
    };
    let verdict = match printer.book(&rt) {
        Ok(()) => Ok(()),
        Err(Stop::Refused(refusal)) => Err(refusal.number()),
        Err(Stop::Unsent) => return,
    };
    let line = standing::last_line_by_number(verdict, &printer.cut.kept.book);
    let mut text = Lent::new(&mut printer.out);
    report::add(&mut text, line);
    let _ = send(&rt, text.filled());
}
