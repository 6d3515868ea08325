// The book second (01, "Book second"): the unit first, then A, then B; and a whole lent list of book seconds.
#![tactic(auto)]

mod list;
mod sums;
mod unit;

ghost use Rattle.std.specs.Prelude.{◌≡◌, ◌%◌, eqb, length};
ghost use Rattle.refusals.specs.Refusals.{told, number_in};
ghost use Rattle.record.specs.Record.{size};
ghost use Rattle.mfrr.specs.Signal.{quarter_hour};
ghost use Rattle.book.specs.declared.BookRefusal.TheVariants.{Form, Of};
ghost use Rattle.book.specs.Answers.{refusal_in, book_told};
ghost use Rattle.book.specs.Refusals.{form_number};
ghost use Rattle.book.specs.HandOver.{HandedOver};
ghost use Rattle.book.specs.Open.{OpenedUnder, OpenedOrDefault};
ghost use Rattle.book.specs.State.{second_of, fresh, Ready, PlantsStepped, Stepped};

pub use list::run;
use plant::PlantState;
use refusals::Refusal;
use row::{KwSeconds, Row, Sums};
use sheet::{FairSheet, Sheet};
use sums::{due_in, with_second};
use unit::added;

// The plants of a book.
#[derive(Clone, Copy, Debug, PartialEq, Eq)]
pub enum Plant {
    U,
    A,
    B,
}

// The sheet, the states of the three plants, and the kept sums. That it is `Ready` stands in clauses and is no invariant of the type: the
// definitions make a book of any sheet and any past, and all of them speak of this struct, so that a record of the same fields beside it, as `Kept` of
// `report` has it, would be no plainer.
#[derive(Clone, Copy)]
pub struct Book {
    pub sheet: Sheet,
    pub unit: PlantState,
    pub a: PlantState,
    pub b: PlantState,
    pub sums: Sums,
}

// What `Book::open_or_default` gives: whether the book opened under the sheet, and a book either way.
#[derive(Clone, Copy)]
pub struct BookOpening {
    pub answer: Result<(), Refusal>,
    pub book: Book,
}

// The rows of U, A and B in an accepted second.
#[derive(Clone, Copy)]
pub struct BookRows {
    pub unit: Row,
    pub a: Row,
    pub b: Row,
}

// Why a book second is turned down: by its form, which names no plant, or by one of its plants.
#[derive(Clone, Copy, Debug, PartialEq, Eq)]
pub enum BookRefusal {
    Form(Refusal),
    Of { plant: Plant, refusal: Refusal },
}

// The kept sums of a book that opens.
const NO_SUMS: Sums = Sums {
    a: KwSeconds(0),
    b: KwSeconds(0),
    open: KwSeconds(0),
    due: KwSeconds(0),
};

impl Plant {
    // This plant turns the second down.
    fn refuses(self, refusal: Refusal) -> BookRefusal
        ensures { result ≡ Of self refusal }
    {
        BookRefusal::Of {
            plant: self,
            refusal,
        }
    }
}

impl BookRefusal {
    pub fn refusal(self) -> Refusal
        ensures { result ≡ refusal_in self }
    {
        match self {
            BookRefusal::Form(refusal) => refusal,
            BookRefusal::Of { refusal, .. } => refusal,
        }
    }
}

// A refusal that comes alone is one by the form.
impl From<Refusal> for BookRefusal {
    ghost from_gives = { λ refusal e. e ≡ Form refusal };

    fn from(refusal: Refusal) -> BookRefusal {
        Self::Form(refusal)
    }
}

// A book second is of 108 bytes, and its owner at most 7.
#[tactic(auto, unfolding(crate::specs::Refusals::form_number))]
fn check_form(owner: u8, bytes: &[u8]) -> Result<(), Refusal>
    ensures { number_in result ≡ form_number (second_of owner bytes.now) }
{
    if bytes.len() != record::BOOK_SIZE {
        return Err(Refusal::Length);
    }
    if record::ALL_KINDS < owner {
        return Err(Refusal::Owner);
    }
    Ok(())
}

// Whether so many seconds are whole quarter hours.
fn is_whole(seconds: u32) -> bool
    ensures { result ≡ eqb (seconds % quarter_hour) 0 }
{
    seconds % mfrr::QUARTER_HOUR == 0
}

impl Book {
    // A fresh book under a sheet, unless one of its figures is outside its range.
    pub fn open(sheet: Sheet) -> Result<Self, Refusal>
        ensures { OpenedUnder sheet (told result) }
    {
        Ok(Book::new(FairSheet::try_from(sheet)?))
    }

    // A fresh book under a sheet; beside 30 one under the default sheet, which nobody asked for, so that a caller has a book to go on with.
    #[tactic(auto, using(crate::proofs::Opening::opened_under, crate::proofs::Opening::refused_under))]
    pub fn open_or_default(sheet: Sheet) -> BookOpening
        ensures { OpenedOrDefault sheet (record { answer = told result.answer; book = result.book }) }
    {
        match Book::open(sheet) {
            Ok(book) => BookOpening {
                answer: Ok(()),
                book,
            },
            Err(refusal) => BookOpening {
                answer: Err(refusal),
                book: Book::new(FairSheet::default()),
            },
        }
    }

    // A fresh book under a sheet whose figures are in range.
    #[tactic(auto, using(crate::proofs::Sizes::sums_none), unfolding(crate::specs::State::fresh))]
    pub fn new(sheet: FairSheet) -> Self
        ensures { (result ≡ fresh sheet.figures) × Ready result }
    {
        Book {
            sheet: sheet.figures,
            unit: PlantState::new(),
            a: PlantState::new(),
            b: PlantState::new(),
            sums: NO_SUMS,
        }
    }

    // Hands the closing book over (02, W7): the next book opens with the plants' states, nothing counted and nothing kept. The seconds that this one
    // accepted have to be a multiple of 900; else it stays as it was.
    pub fn hand_over(&mut self) -> Result<(), Refusal>
        requires { Ready self.old }
        ensures { HandedOver self.old (record { answer = told result; book = self.new }) }
    {
        if !is_whole(self.unit.seconds) {
            return Err(Refusal::BookLength);
        }
        self.unit = self.unit.handed_over();
        self.a = self.a.handed_over();
        self.b = self.b.handed_over();
        self.sums = NO_SUMS;
        Ok(())
    }

    // A book second of any owner byte and any bytes. One that is turned down leaves the book as it was. The owner byte is the header's and the bytes are
    // the second's, so they stay two parameters.
    #[tactic(auto, using(crate::proofs::Form::whole))]
    pub fn second(&mut self, owner: u8, bytes: &[u8]) -> Result<BookRows, BookRefusal>
        requires { Ready self.old }
        ensures { Stepped self.old (second_of owner bytes.now) (record { answer = book_told result; book = self.new }) }
    {
        check_form(owner, bytes)?;
        let (parts, _) = bytes.as_chunks::<{ record::SIZE }>();
        self.plants(owner, &parts[0], &parts[1], &parts[2])
    }

    // The unit first, then A, then B, by `let .. else` on each plant's answer (01, "What form each place needs"): the first refusal leaves the old
    // book. A pool's working point has the unit's working point added; its measured has that and the pool's own values at the unit.
    fn plants(
        &mut self,
        owner: u8,
        unit: &[u8; record::SIZE],
        a: &[u8; record::SIZE],
        b: &[u8; record::SIZE],
    ) -> Result<BookRows, BookRefusal>
        requires { Ready self.old }
        ensures { PlantsStepped self.old owner unit.now a.now b.now (record { answer = book_told result; book = self.new }) }
    {
        let mut next = *self;
        let sheet = FairSheet {
            figures: self.sheet,
        };
        let unit_answer = next.unit.second(sheet, unit);
        let Ok(unit_row) = unit_answer else {
            return Err(Plant::U.refuses(unit_answer.unwrap_err()));
        };
        let (a_added, b_added) = added(owner, unit, unit_row);
        let a_answer = next.a.second_with(sheet, a, a_added);
        let Ok(a_row) = a_answer else {
            return Err(Plant::A.refuses(a_answer.unwrap_err()));
        };
        let b_answer = next.b.second_with(sheet, b, b_added);
        let Ok(b_row) = b_answer else {
            return Err(Plant::B.refuses(b_answer.unwrap_err()));
        };
        let rows = BookRows {
            unit: unit_row,
            a: a_row,
            b: b_row,
        };
        next.sums = with_second(self.sums, rows, due_in(unit, a, b));
        *self = next;
        Ok(rows)
    }
}
