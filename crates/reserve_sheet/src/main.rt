// Prints the book on standard input with every figure of every row, as `reserve_rows` does, under the sheet whose 16 bytes stand before it; or why that
// sheet is turned down. What is printed is `sheet_printed` of specs/Printed.antt.
#![tactic(auto)]

ghost use Rattle.std.specs.Prelude.{◌≡◌, length};
ghost use Rattle.reserve_sheet.specs.Form.{sheet_size, sheet_of, spare_set, figures_told, read_of};

use codec::Lent;
use power::Kw;
use refusals::Refusal;
use report::{Form, TextLine};
use sheet::{FairSheet, Sheet};

// The bytes of a sheet.
const SIZE: usize = 16;

#[tactic(auto, unfolding(crate::specs::Form::sheet_of))]
fn sheet_of(s: &[u8; SIZE]) -> Sheet
    ensures { result ≡ sheet_of s.now }
{
    Sheet {
        fcr_floor: u32::from(s[0]),
        afrr_floor: u32::from(s[1]),
        excess: u32::from(s[2]),
        least_range: Kw(codec::read_i32(s, 8)),
        fcr_reaction: u32::from(s[3]),
        afrr_reaction: u32::from(s[4]),
    }
}

fn is_spare_set(s: &[u8; SIZE]) -> bool
    ensures { result ≡ spare_set s.now }
{
    s[5..8] != [0; 3] || s[12..16] != [0; 4]
}

// The sheet of any bytes, its figures in range; or 12 for another length, 18 for a spare byte and 30 for a figure outside its range.
fn read(s: &[u8]) -> Result<FairSheet, Refusal>
    ensures { figures_told result ≡ read_of s.now }
{
    let Ok(s) = s.try_into() else {
        return Err(Refusal::Length);
    };
    if is_spare_set(s) {
        return Err(Refusal::SpareByte);
    }
    FairSheet::try_from(sheet_of(s))
}

fn refuse(rt: &impl Print, refusal: Refusal) {
    let mut out = [0; line::ROW_ROOM];
    let mut text = Lent::new(&mut out);
    report::add(
        &mut text,
        TextLine::Refusal {
            number: refusal.number(),
            seconds: 0,
        },
    );
    let _ = rt.write_all(text.filled());
}

fn main(rt: HostRuntime) {
    let mut bytes = [0; SIZE];
    let n = full_read::read_full(&mut rt.stdin(), &mut bytes);
    match read(&bytes[..n]) {
        Ok(sheet) => stdio::print_book(&rt, &mut rt.stdin(), sheet, Form::Figures),
        Err(refusal) => refuse(&rt, refusal),
    }
}
