// Whether a cell of a library table has a truth table: whether its groups are those that the generator makes of one.
//
// Open to others: `is_generated`, which has no condition. specs/Words.antt says what it answers, by the numbers of the table;
// proofs/Laws.antt what that says of a table that holds the cells of an accepted library.
#![tactic(auto)]

mod bits;
mod groups;

ghost use Rattle.std.specs.Prelude.{◌≡◌};
ghost use Rattle.truth_cells.specs.Words.{generated_at};

use crate::bits::bits_of;
use crate::groups::{group_place, has_groups};
use library_table::cells::{count, pins_of};

const MOST_PINS: u32 = 4;

// Whether the table has such a cell, and its groups are those of a truth table of at most four pins.
pub fn is_generated(library: &[u32], cell: u32) -> bool
    ensures { result ≡ generated_at library.now cell }
{
    if count(library) <= cell {
        return false;
    }
    let n = pins_of(library, cell);
    if MOST_PINS < n {
        return false;
    }
    let pins = n as usize;
    let bits = bits_of(library, group_place(cell, sizes::CC_GROUP + 1), pins);
    has_groups(library, cell, pins, &bits[..2usize.pow(n)])
}
