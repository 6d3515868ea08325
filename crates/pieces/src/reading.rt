// A book taken in pieces of any size: whole blocks are run where they lie, and the bytes of one that comes in parts are gathered in an array.
ghost use Rattle.std.specs.Prelude.{◌≤◌, ◌<◌, ◌≡◌, ◌%◌, [], true, length};
ghost use Rattle.codec.specs.Put.{Put};
ghost use Rattle.codec.specs.Lent.{HasRoom};
ghost use Rattle.block.specs.Places.{block_size};
ghost use Rattle.report.specs.Text.{block_room};
ghost use Rattle.standing.specs.Standing.{is_due};
ghost use Rattle.pieces.specs.Pieces.{bytes_in, last_in, unread, piece_size, piece_room, end_room, Fitting, Chunked, Takes, Wanted};

use codec::Lent;
use report::Form;
use sheet::FairSheet;
use standing::Standing;

// The most bytes that are taken at once, and the room that their text asks for, three lines a second. That no more come is a clause of `take`,
// `take_parts` and `take_blocks`: a piece is part of what a reader read, and a type of its own would be made and undone in that one call.
pub const PIECE: usize = PIECE_BLOCKS * block::SIZE;

pub const PIECE_ROOM: usize = (PIECE_BLOCKS + 2) * 3 * line::ROW_ROOM * block::PER_BLOCK;

const PIECE_BLOCKS: usize = 32;

// Where a book stands as its bytes come: the first `filled` bytes of `part` are those of the next block that are there, never a whole one. It is
// `Copy`, which the kit's `ArrayVec` isn't. Clauses see it by `placed`: a Model would give up `Copy`, since what is there doesn't give the
// bytes after it back.
#[derive(Clone, Copy)]
pub struct Reading {
    pub standing: Standing,
    pub part: [u8; block::SIZE],
    pub filled: usize,
    ghost short: { filled < block_size },
}

impl Reading {
    ghost use Rattle.pieces.specs.Placed.{placed};

    // Before the first byte, under a sheet whose figures are in range.
    pub fn new(sheet: FairSheet, form: Form) -> Reading
        ensures { placed result ≡ unread sheet.figures form }
    {
        Reading {
            standing: Standing::new(sheet, form),
            part: [0; block::SIZE],
            filled: 0,
        }
    }

    // How many bytes are to be read next, at most: none after a refusal, one past the last block.
    #[tactic(auto, unfolding(crate::specs::Pieces::wanted_in), using(standing::proofs::Steps::told_ok, standing::proofs::Steps::told_err, standing::proofs::Steps::due_block))]
    pub fn wanted(&self) -> usize
        ensures { Wanted (placed self.now) result }
    {
        if self.standing.verdict.is_err() {
            return 0;
        }
        if !self.standing.is_due() {
            return 1;
        }
        (self.standing.bytes_due() - self.filled).min(PIECE)
    }

    // More bytes of the block that is due; where it is whole then, it is run.
    fn fill(&mut self, bytes: &[u8], text: &mut Lent)
        requires { Fitting (placed self.old) bytes.now × (is_due (placed self.old).standing ≡ true) × HasRoom block_room text.old }
        ensures { Chunked block_room (placed self.old) bytes.now text.old text.new (placed self.new) }
    {
        let end = self.filled + bytes.len();
        self.part[self.filled..end].copy_from_slice(bytes);
        if end < block::SIZE {
            self.filled = end;
        } else {
            self.standing.block(&self.part, text);
            self.filled = 0;
        }
    }

    // Bytes of the block next in turn, or ones that none is due for.
    fn chunk(&mut self, bytes: &[u8], text: &mut Lent)
        requires { Fitting (placed self.old) bytes.now × HasRoom block_room text.old }
        ensures { Chunked block_room (placed self.old) bytes.now text.old text.new (placed self.new) }
    {
        if self.standing.is_due() {
            self.fill(bytes, text);
        } else {
            self.standing.beyond(bytes);
            self.filled = 0;
        }
    }

    // Whole blocks, where none was begun before them.
    fn take_blocks(&mut self, bytes: &[u8], text: &mut Lent)
        requires { ((placed self.old).part ≡ []) × (length bytes.now % block_size ≡ 0) × (length bytes.now ≤ piece_size) × HasRoom piece_room text.old }
        ensures { Chunked piece_room (placed self.old) bytes.now text.old text.new (placed self.new) × ((placed self.new).part ≡ []) }
    {
        for block in bytes.chunks_exact(block::SIZE) {
            self.standing.block(block, text);
        }
    }

    // Bytes where a block was begun before them.
    fn take_parts(&mut self, bytes: &[u8], text: &mut Lent)
        requires { (length bytes.now ≤ piece_size) × HasRoom piece_room text.old }
        ensures { Chunked piece_room (placed self.old) bytes.now text.old text.new (placed self.new) }
    {
        let mut rest = bytes;
        while !rest.is_empty() {
            let (next, after) = rest.split_at(rest.len().min(block::SIZE - self.filled));
            self.chunk(next, text);
            rest = after;
        }
    }

    // The next bytes of the book, of any number up to a piece; answers where their text ends, which begins at the buffer's first byte.
    // The buffer is lent for this call alone, so it comes as it is and no `Lent` stays with the caller; `last_line` likewise.
    pub fn take(&mut self, bytes: &[u8], out: &mut [u8]) -> usize
        requires { (length bytes.now ≤ piece_size) × (piece_room ≤ length out.old) }
        ensures { Takes piece_room out.old out.new result (placed self.new) (bytes_in (placed self.old).standing (placed self.old).part bytes.now) }
    {
        let mut text = Lent::new(out);
        if self.filled != 0 {
            self.take_parts(bytes, &mut text);
            return text.at;
        }
        let (blocks, rest) = bytes.split_at(bytes.len() / block::SIZE * block::SIZE);
        self.take_blocks(blocks, &mut text);
        if !rest.is_empty() {
            self.chunk(rest, &mut text);
        }
        text.at
    }

    // The last line, where the bytes end here, after the counts that stand before it.
    pub fn last_line(&self, out: &mut [u8]) -> usize
        requires { piece_room ≤ length out.old }
        ensures { Put end_room out.old out.new 0 result (last_in (placed self.now).standing) }
    {
        let mut text = Lent::new(out);
        report::add_counts(&mut text, self.standing.plan.form, self.standing.kept.tally);
        report::add(&mut text, self.standing.last_line());
        text.at
    }
}
