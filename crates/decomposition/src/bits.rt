ghost use Rattle.std.specs.Prelude.{◌≡◌, ℕ, ◌<◌, ◌||◌, false, length, replicate, IfOk, nat_eq};
ghost use Rattle.model.specs.declared.sizes.TheConstants.{STATE_PLACES};
ghost use Rattle.decomposition.specs.Bits.{bit_in, bit_at, Marks};

use model::STATE_PLACES;
use std::alloc::{AllocError, Global};
use table::MOST_STATES;

// How many words of 64 bits a row has.
const WORDS: usize = STATE_PLACES / 64;

// A row of bits, one for each state that a table may have: a row is added to another word by word.
pub(crate) type Row = [u64; WORDS];

// Whether a bit of a row is set. A column is no `u8`: columns and rows are the states of a table, which are `u32`.
pub(crate) fn bit_in(row: &Row, column: u32) -> bool
    requires { column < MOST_STATES }
    ensures { result ≡ bit_in row.now column }
{
    (row[column as usize / 64] >> (column % 64)) & 1 == 1
}

// Sets in a row each bit that is set in another. The other's words are read by their places: over `iter_mut().zip(other)`,
// which was tried, nothing is known of the words after the loop.
pub(crate) fn add_row(row: &mut Row, other: &Row)
    ensures { (t : ℕ) → t < MOST_STATES → bit_in row.new t ≡ (bit_in row.old t || bit_in other.now t) }
{
    for (j, word) in row.iter_mut().enumerate() {
        *word |= other[j];
    }
}

// A square of bits: a row for each state that a table may have.
#[derive(Drop)]
pub(crate) struct Square {
    pub(crate) rows: Vec<Row>,
    ghost size: { length rows.items ≡ STATE_PLACES },
}

impl Square {
    // One with all bits clear.
    pub(crate) fn new(heap: Global) -> Result<Square, AllocError>
        ensures { IfOk result (λ square. square.rows.items ≡ replicate STATE_PLACES (replicate WORDS 0)) }
    {
        Ok(Square {
            rows: vec![in heap; [0; WORDS]; STATE_PLACES]?,
        })
    }

    // Whether a bit is set.
    pub(crate) fn bit(&self, row: u32, column: u32) -> bool
        requires row { row < MOST_STATES }
        requires column { column < MOST_STATES }
        ensures { result ≡ bit_at self.now.rows.items row column }
    {
        bit_in(&self.rows[row as usize], column)
    }

    // Sets a bit.
    pub(crate) fn set(&mut self, row: u32, column: u32)
        requires row { row < MOST_STATES }
        requires column { column < MOST_STATES }
        ensures { Marks self.old.rows.items self.new.rows.items row (λ t. nat_eq t column) }
    {
        self.rows[row as usize][column as usize / 64] |= 1 << (column % 64);
    }

    // Clears all bits.
    pub(crate) fn clear(&mut self)
        ensures { (r t : ℕ) → bit_at self.new.rows.items r t ≡ false }
    {
        self.rows.fill([0; WORDS]);
    }
}
