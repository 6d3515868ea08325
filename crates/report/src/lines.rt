// The lines of a second and the last line, put after the text that waits in a lent buffer.
ghost use Rattle.codec.specs.Lent.{HasRoom, Grown};
ghost use Rattle.line.specs.Lined.{Lined};
ghost use Rattle.line.specs.Widths.{row_room};
ghost use Rattle.report.specs.Text.{text_of, room_of, lines_of, tally_text, counts_of, second_room, PlantsPut};

use crate::Form;
use book::BookRows;
use codec::Lent;
use line::PlantSecond;
use refusals::Refusal;
use row::{PlantCounts, Row, Sums};
use tally::Tally;

// The lines that are printed.
#[derive(Clone, Copy)]
pub enum TextLine {
    Second {
        second: u32,
        unit: Row,
        a: Row,
        b: Row,
    },
    Plant(PlantSecond),
    Sums(Sums),
    Refusal {
        // A byte, as `line` takes it (D69).
        number: u8,
        seconds: u32,
    },
    Short(PlantSecond),
    Counts {
        // A byte, as `line` takes it (D69).
        letter: u8,
        counts: PlantCounts,
    },
    Shares(PlantSecond),
}

fn write(buf: &mut [u8], text: TextLine) -> Result<usize, Refusal>
    ensures { Lined (room_of text) buf.old buf.new result (text_of text) }
{
    match text {
        TextLine::Second { second, unit, a, b } => line::second_line(buf, second, unit, a, b),
        TextLine::Plant(x) => line::plant_line(buf, x),
        TextLine::Sums(sums) => line::sum_line(buf, sums),
        TextLine::Refusal { number, seconds } => line::refusal_line(buf, number, seconds),
        TextLine::Short(x) => line::plant_short(buf, x),
        TextLine::Counts { letter, counts } => line::plant_counts(buf, letter, counts),
        TextLine::Shares(x) => line::plant_shares(buf, x),
    }
}

// A line more.
pub fn add(text: &mut Lent, line: TextLine)
    requires { HasRoom row_room text.old }
    ensures { Grown row_room text.old text.new (text_of line) }
{
    let n = write(&mut text.buf[text.at..], line).unwrap();
    text.at += n;
}

// The lines of U, A and B, one after the other, each as `line` gives it from its letter and what is told of the plant.
fn add_plants<T, F: Fn(u8, T) -> TextLine>(text: &mut Lent, plants: (T, T, T), line: F)
    requires callable { F.IsAlwaysCallable line }
    requires room { HasRoom second_room text.old }
    ensures { PlantsPut (F.post line) plants.0 plants.1 plants.2 text.old text.new }
{
    let (unit, a, b) = plants;
    add(text, line(b'U', unit));
    add(text, line(b'A', a));
    add(text, line(b'B', b));
}

// What stands before the last line: in the short form the counts, else nothing.
pub fn add_counts(text: &mut Lent, form: Form, tally: Tally)
    requires { HasRoom second_room text.old }
    ensures { Grown second_room text.old text.new (counts_of form tally) }
{
    match form {
        Form::Short => {
            let plants = (tally.unit, tally.a, tally.b);
            add_plants(text, plants, |letter, counts| {
                TextLine::Counts { letter, counts }
            });
        }
        Form::Line | Form::Figures | Form::Shares => (),
    }
}

// The lines of U, A and B in an accepted second, each the variant `line` of its row.
fn add_rows<F: Fn(PlantSecond) -> TextLine>(text: &mut Lent, second: u32, rows: BookRows, line: F)
    requires callable { F.IsAlwaysCallable line }
    requires room { HasRoom second_room text.old }
    ensures { PlantsPut (λ letter row. F.post line (record { second = second; letter = letter; row = row })) rows.unit rows.a rows.b text.old text.new }
{
    let BookRows { unit, a, b } = rows;
    add_plants(text, (unit, a, b), |letter, row| {
        line(PlantSecond {
            second,
            letter,
            row,
        })
    });
}

// The lines of an accepted second.
pub(crate) fn add_second(text: &mut Lent, form: Form, second: u32, rows: BookRows)
    requires { HasRoom second_room text.old }
    ensures { Grown second_room text.old text.new (lines_of form second rows.unit rows.a rows.b) }
{
    match form {
        Form::Line => {
            let BookRows { unit, a, b } = rows;
            add(text, TextLine::Second { second, unit, a, b });
        }
        Form::Figures => add_rows(text, second, rows, TextLine::Plant),
        Form::Short => add_rows(text, second, rows, TextLine::Short),
        Form::Shares => add_rows(text, second, rows, TextLine::Shares),
    }
}
