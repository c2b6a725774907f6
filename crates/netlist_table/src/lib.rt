// The netlist table: its statements, and what the table says of its gates and lines. Module `netlist_admission::kinds` stores a
// statement.
//
// Open to others: `line_bad` and `some_range`. Modules `gates` and `lines`: what a table says of its gates and lines, for all
// that read it.
#![tactic(auto)]

ghost use Rattle.std.specs.Prelude.{◌≡◌};
ghost use Rattle.netlist_table.specs.Netlist.{line_bad};
ghost use Rattle.netlist_table.specs.Admission.{some_ranged};

use table::word;

pub mod gates;
pub mod lines;

// "kind (0 input, 1 output, 2 gate)", and 3 open (K5)
pub const INPUT: u32 = 0;

pub const OUTPUT: u32 = 1;

pub const GATE: u32 = 2;

pub const OPEN: u32 = 3;

// "Record lists have no ranges" (K10): a kind for lines of text alone.
pub const RANGE: u32 = 4;

// Which rules are in force: the old ones, by which nothing declares a line open and no input has a range, or the new ones (K5,
// K10).
#[derive(Clone, Copy)]
pub enum Rules {
    Old,
    New,
}

// One statement over plain numbers, not checked yet: its kind, its cell's place in the library, its line,
// the lines of as many pins as a gate has at most, 0 after the last, how many pins it has, which may be
// more (13), and whether a pin's line is out of range. What has no good form is none of these.
#[derive(Clone, Copy)]
pub struct RawStatement {
    // A number, not an enum: `admit` answers 10 for one that is not known (D39), and a wrong program of `netlist_admission`
    // asks that of it.
    pub kind: u32,
    pub cell: u32,
    pub line: u32,
    pub pins: [u32; sizes::PINS],
    pub count: usize,
    // A flag, not an `Option` of the pins: of those past the last that a gate may have, which are not stored, one may be bad,
    // too.
    pub bad: bool,
}

// Whether a line number is out of range.
#[tactic(auto, unfolding(crate::specs::Netlist::line_bad))]
pub fn line_bad(l: u32) -> bool
    ensures { result ≡ line_bad l }
{
    l < 1 || sizes::LINES < l as usize
}

// Whether some line has a range: one number of the table says so.
pub fn some_range(table: &[u32]) -> bool
    ensures { result ≡ some_ranged table.now }
{
    word(table, sizes::RANGED_AT) != 0
}
