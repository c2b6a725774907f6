// The same of a gate that stands in the table: each function asks for the places that it reads, and tests no bounds.
ghost use Rattle.std.specs.Prelude.{◌≡◌, ◌+◌, ◌≤◌, ◌<◌, length};
ghost use Rattle.sizes.specs.Places.{gate_place};
ghost use Rattle.sizes.specs.Sizes as Size;
ghost use Rattle.netlist_table.specs.Gates.{gate_count, gate_cell, gate_line, gate_lines};

use super::place_of;

// The count of gates, as it stands there.
pub fn count(table: &[u32]) -> usize
    requires { 1 ≤ length table.now }
    ensures { result ≡ gate_count table.now }
{
    table[0] as usize
}

// The cell of a gate.
pub fn cell_of(table: &[u32], gate: usize) -> u32
    requires { gate_place gate < length table.now }
    ensures { result ≡ gate_cell table.now gate }
{
    table[place_of(gate)]
}

// Line i of a gate.
pub fn line_of(table: &[u32], gate: usize, i: usize) -> usize
    requires { gate_place gate + 1 + i < length table.now }
    ensures { result ≡ gate_line table.now gate i }
{
    table[place_of(gate) + 1 + i] as usize
}

// All lines of a gate: the one that it drives, then those that its pins read, 0 after the last. Number by number:
// `copy_from_slice` takes half as long again here, and the sweeps call this at each visit.
pub fn lines_of(table: &[u32], gate: usize) -> [u32; sizes::GATE_LINES]
    requires { gate_place gate + Size.gate_words ≤ length table.now }
    ensures { result ≡ gate_lines table.now gate }
{
    let at = place_of(gate) + 1;
    let mut lines = [0u32; sizes::GATE_LINES];
    for i in 0..sizes::GATE_LINES {
        lines[i] = table[at + i];
    }
    lines
}
