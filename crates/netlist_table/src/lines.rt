// What a netlist table says of its lines (specs/Lines.antt), over any table: a place past its end counts as 0.
//
// Open to others: `driver_of`, `mentioned` and `highest`. Module `unchecked` is for loops over lines that stand in the table.
ghost use Rattle.std.specs.Prelude.{◌≡◌, get_or};
ghost use Rattle.sizes.specs.Places.{driver_place};
ghost use Rattle.netlist_table.specs.Lines.{mention_at, highest_mentioned};

use table::{used, word};

pub mod unchecked;

// What drives a line: 0 nothing, 1 an input, 2 a gate, 3 nothing, and it is declared open. A number, not an enum: the call is
// open, and this number of any table is its equation (docs/PROVED.md).
pub fn driver_of(table: &[u32], l: u32) -> u32
    ensures { result ≡ get_or table.now (driver_place l) 0 }
{
    word(table, l as usize)
}

// Whether a line stands anywhere in the netlist.
pub fn mentioned(table: &[u32], l: u32) -> bool
    ensures { result ≡ mention_at table.now l }
{
    word(table, sizes::MENTIONS_AT + l as usize) != 0
}

// The highest line that stands anywhere in the netlist, 0 where none does.
pub fn highest(table: &[u32]) -> usize
    ensures { result ≡ highest_mentioned table.now }
{
    used(table, sizes::MENTIONS_AT + 1, sizes::LINES)
}
