// The four sums of a book: A's and B's actual values, open, and due.
ghost use Rattle.std.specs.Prelude.{◌≡◌, ◌+ℤ◌};
ghost use Rattle.numbers.specs.Bounds.{Within};
ghost use Rattle.record.specs.Record.{most_seconds, record_of};
ghost use Rattle.sharing.specs.Sizes.{SizedRow};
ghost use Rattle.book.specs.Seconds.{difference, due_from};
ghost use Rattle.book.specs.Sums.{actuals_of, open_of};
ghost use Rattle.book.specs.State.{most_summand, most_at_unit, most_at_pool, sums_with, PowersInRange, SumsReady, Summed};

use crate::BookRows;
use power::Kw;
use record::{Record, SIZE};
use row::{Row, Sums};

// The sum of three powers of a second.
pub(crate) fn sum_of(x: Kw, y: Kw, z: Kw) -> Kw
    requires { Within most_summand x.0 × Within most_summand y.0 × Within most_summand z.0 }
    ensures { result.0 ≡ x.0 +ℤ (y.0 +ℤ z.0) }
{
    x.plus(y.plus(z))
}

// The actual values of all kinds in a pool's row.
fn actuals_of(r: Row) -> Kw
    requires { SizedRow most_at_pool r }
    ensures { result.0 ≡ actuals_of r }
{
    sum_of(r.fcr.actual, r.afrr.actual, r.mfrr.actual)
}

// The open of every plant's row.
fn open_of(rows: BookRows) -> Kw
    requires { SizedRow most_at_unit rows.unit × SizedRow most_at_pool rows.a × SizedRow most_at_pool rows.b }
    ensures { result.0 ≡ open_of rows.unit rows.a rows.b }
{
    sum_of(rows.unit.open, rows.a.open, rows.b.open)
}

// Measured - working point of a record.
fn difference(x: Record) -> Kw
    requires { PowersInRange x }
    ensures { (result.0 ≡ difference x) × Within most_at_unit result.0 }
{
    x.measured.minus(x.working_point)
}

// What is due in a second, read from its bytes: U, A and B, each once.
pub(crate) fn due_in(u: &[u8; SIZE], a: &[u8; SIZE], b: &[u8; SIZE]) -> Kw
    requires { PowersInRange (record_of u.now) × PowersInRange (record_of a.now) × PowersInRange (record_of b.now) }
    ensures { result.0 ≡ due_from u.now a.now b.now }
{
    sum_of(
        difference(record::fields_of(u)),
        difference(record::fields_of(a)),
        difference(record::fields_of(b)),
    )
}

// The sums with a second more.
#[tactic(auto, unfolding(crate::specs::State::sums_with))]
pub(crate) fn with_second(sums: Sums, rows: BookRows, due: Kw) -> Sums
    requires { SumsReady most_seconds sums × Summed rows.unit rows.a rows.b due.0 }
    ensures { result ≡ sums_with sums rows.unit rows.a rows.b due.0 }
{
    Sums {
        a: sums.a.plus(actuals_of(rows.a)),
        b: sums.b.plus(actuals_of(rows.b)),
        open: sums.open.plus(open_of(rows)),
        due: sums.due.plus(due),
    }
}
