// A block of a book run second by second (01, "Blocks and text"): `Kept::run_block` says what text its seconds add to a lent buffer, which book
// and counts they leave, and the verdict, for any bytes; `Kept::run_second` says it of one second. `add` puts one line, `add_counts` the lines of
// counts. A whole book is crate `pieces`.
#![tactic(auto)]

mod lines;
mod run;

pub use lines::{TextLine, add, add_counts};
pub use run::{Kept, Plan};

// What a second is printed as: one line with the actual values; a line a plant with every figure of its row; a line for each kind outside its
// band, and at the end how often each was; or a line a plant with what was shared and how each share was rounded. Each `match` over it is over
// all forms.
#[derive(Clone, Copy)]
pub enum Form {
    Line,
    Figures,
    Short,
    Shares,
}
