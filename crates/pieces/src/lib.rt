// What is printed of a book (01, "Blocks and text"), from its bytes in pieces of any size: nothing here reads or writes. A `Reading` says where
// the book stands; `take` takes the next bytes and puts their text into a lent buffer; `last_line` ends the text where the bytes end. One after
// the other these texts are `printed` of all the bytes, however they were cut (crate `printed`).
#![tactic(auto)]

mod reading;

pub use reading::{PIECE, PIECE_ROOM, Reading};
