// What a netlist table says of its gates (specs/Gates.antt), as module `cells` of crate `library_table` has it of a library
// table's cells. Gates count from 0, in netlist order.
//
// Over any table, a place past its end counting as 0: `count`, which is open to others, and `cell_of` and `line_of`, which ask
// for a gate that there may be. `place_of` is where a gate stands. Module `unchecked` is for the loops of the sweeps.
ghost use Rattle.std.specs.Prelude.{◌≡◌, ◌^◌, ◌<◌};
ghost use Rattle.sizes.specs.Places.{gate_place};
ghost use Rattle.sizes.specs.Sizes as Size;
ghost use Rattle.netlist_table.specs.Gates.{count_held, gate_cell, gate_line};

use table::word;

pub mod unchecked;

// Where the numbers of a gate stand.
pub fn place_of(gate: usize) -> usize
    requires { gate_place gate < 2 ^ 64 }
    ensures { result ≡ gate_place gate }
{
    sizes::GATES_AT + gate * sizes::GATE_WORDS
}

// How many gates the table has, no more than there may be. (No twin of `library_table::cells::count`, which answers any number
// that stands there.)
pub fn count(table: &[u32]) -> usize
    ensures { result ≡ count_held table.now }
{
    (word(table, 0) as usize).min(sizes::GATES)
}

// The cell of a gate, from 0 in library order.
pub fn cell_of(table: &[u32], gate: usize) -> u32
    requires { gate < Size.gates }
    ensures { result ≡ gate_cell table.now gate }
{
    word(table, place_of(gate))
}

// Line i of a gate: the one that it drives, 0, or the one that its pin i reads.
pub fn line_of(table: &[u32], gate: usize, i: usize) -> usize
    requires { (gate < Size.gates) × (i < Size.gate_lines) }
    ensures { result ≡ gate_line table.now gate i }
{
    word(table, place_of(gate) + 1 + i) as usize
}
