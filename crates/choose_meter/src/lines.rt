// Lines into a lent buffer: one answer's, those of the whole records of a piece, and that of a record cut short (specs/Printed.antt).
ghost use Rattle.std.specs.Prelude.{◌≡◌, ◌≤◌, ◌<◌, length, take};
ghost use Rattle.codec.specs.Lent.{HasRoom, Grown};
ghost use Rattle.meters.specs.Meters.{says};
ghost use Rattle.choose_meter.specs.Records.{record_size, said_in};
ghost use Rattle.choose_meter.specs.Printed.{line_text, printed, whole_text, rest_of, line_width, piece_size, piece_room};

use crate::records;
use codec::Lent;
use power::Millihertz;
use refusals::Refusal;

// The bytes that are held at once, and the room that their lines ask for, 14 bytes each.
pub(crate) const PIECE: usize = RECORDS * records::SIZE;

pub(crate) const ROOM: usize = RECORDS * 14;

const RECORDS: usize = 256;

fn put_answer(lent: &mut Lent, answer: Result<Millihertz, Refusal>)
    requires { HasRoom line_width lent.old }
    ensures { Grown line_width lent.old lent.new (line_text (says answer)) }
{
    match answer {
        Ok(f) => {
            lent.put_byte(b'0');
            line::put_field(lent, f);
        }
        Err(refusal) => line::put_count(lent, u32::from(refusal.number())),
    }
    lent.put_byte(b'\n');
}

// The line of a record of any bytes.
fn put_line(lent: &mut Lent, bytes: &[u8])
    requires { HasRoom line_width lent.old }
    ensures { Grown line_width lent.old lent.new (line_text (said_in bytes.now)) }
{
    put_answer(lent, records::answer_to(bytes));
}

// The lines of the whole records.
pub(crate) fn put_lines(lent: &mut Lent, bytes: &[u8])
    requires { (length bytes.now ≤ piece_size) × HasRoom piece_room lent.old }
    ensures { Grown piece_room lent.old lent.new (whole_text bytes.now) }
{
    for record in bytes.chunks_exact(records::SIZE) {
        put_line(lent, record);
    }
}

// Of the first n bytes, those after the whole records come to the front; how many they are.
#[tactic(auto, using(crate::proofs::Laws::rest_is))]
pub(crate) fn keep(bytes: &mut [u8], n: usize) -> usize
    requires { n ≤ length bytes.old }
    ensures begun { take result bytes.new ≡ rest_of (take n bytes.old) }
    ensures short { result < record_size }
{
    let whole = n / records::SIZE * records::SIZE;
    bytes.copy_within(whole..n, 0);
    n - whole
}

// The line of a record that the input ends in; nothing where it ends before one.
#[tactic(auto, using(crate::proofs::Laws::cut_short))]
pub(crate) fn put_rest(lent: &mut Lent, bytes: &[u8])
    requires { (length bytes.now < record_size) × HasRoom line_width lent.old }
    ensures { Grown line_width lent.old lent.new (printed bytes.now) }
{
    if !bytes.is_empty() {
        put_line(lent, bytes);
    }
}
