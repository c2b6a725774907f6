// A gate of an accepted netlist, out of the tables: where its cell's groups stand, what its columns cost, and
// the least row sum of a group. Its cell and its lines are read by module `gates` of crate `netlist_table`.
//
// For the crates above, each with what it asks of the tables (specs/Fits.antt), since the loop of the
// sweeps tests no bounds: `least_sum`, `least_wired`, `least_of`, `is_way`, `read_sum`, `cell_place`, and
// modules `gather` and `turns`; and `observing_place`, of the numbers table.
//
// Rows are added up in crate `sweep_sums`.
//
// What a function takes of a gate, a group and a row it takes one by one, in registers: nearly each takes other parts of them,
// and a struct would be laid into memory for each call, in the sweeps' innermost loop.
#![tactic(auto)]

pub mod gather;
mod places;
pub mod turns;

ghost use Rattle.std.specs.Prelude.{true, ◌≡◌, ◌≤◌, ◌<◌, length};
ghost use Rattle.std.proofs.Math.Option.{some};
ghost use Rattle.sizes.specs.Places.{cell_place, gate_place};
ghost use Rattle.cost.specs.Cost.{never};
ghost use Rattle.cost.specs.Kind.{kind_index};
ghost use Rattle.plans.specs.Sweep.{least};
ghost use Rattle.sweep_sums.specs.Columns.{ColumnsFit};
ghost use Rattle.sweep_sums.specs.Sums.{sum_number, sum_kind, Summed};
ghost use Rattle.netlist_table.specs.Gates.{gate_cell};
ghost use Rattle.sweep_wires.specs.Wires.{SettingRow};
ghost use Rattle.sweep_groups.specs.Tables.{read_row, has_way, group_columns};
ghost use Rattle.sweep_groups.specs.Sums.{lesser_row, dominated};
ghost use Rattle.sweep_groups.specs.Fits.{ReadFits, SumFits, LeastFits};

use cost::{Kind, NEVER};
use library_table::cells;
use netlist_table::gates::unchecked::{cell_of, lines_of};
pub use places::observing_place;
use sweep_sums::{Sum, lesser_row, no_sum};
use sweep_wires::{needs_both, once};

// The lesser of a row's sum and of the best so far, the row read as one of one wire.
fn lesser_wired(
    lines: &[u32; sizes::GATE_LINES],
    pins: usize,
    costs: &[u32; sizes::COLUMNS],
    depth: u32,
    columns: u32,
    best: Sum,
) -> Sum
    requires { SettingRow pins columns }
    ensures { Summed (sum_kind best) (lesser_row costs.now depth
        (read_row true lines.now pins columns) (sum_number best)) result }
{
    if needs_both(lines, pins, columns) {
        return best;
    }
    lesser_row(costs, depth, once(lines, pins, columns), best)
}

// Whether a row is a way at its gate.
pub fn is_way(wired: bool, lines: &[u32; sizes::GATE_LINES], pins: usize, columns: u32) -> bool
    requires { ReadFits wired pins columns }
    ensures { result ≡ has_way (read_row wired lines.now pins columns) }
{
    !(wired && needs_both(lines, pins, columns))
}

// A row's sum, of a kind, the row read as its gate's rows are; never where it is no way.
pub fn read_sum(
    wired: bool,
    kind: Kind,
    lines: &[u32; sizes::GATE_LINES],
    pins: usize,
    costs: &[u32; sizes::COLUMNS],
    depth: u32,
    columns: u32,
) -> Sum
    requires { ReadFits wired pins columns × ColumnsFit columns costs.now }
    ensures { Summed (kind_index kind) (lesser_row costs.now depth
        (read_row wired lines.now pins columns) never) result }
{
    let none = no_sum(kind);
    if wired {
        return lesser_wired(lines, pins, costs, depth, columns, none);
    }
    lesser_row(costs, depth, columns, none)
}

// Whether a row's sum is at least another row's, whatever the costs.
fn is_dominated(depth: u32, columns: u32, other: u32, others: u32) -> bool
    ensures { result ≡ dominated depth columns other others }
{
    columns & others == others && other <= depth
}

// "the least row sum of its group", over the costs of the columns, of a kind. A row that the one summed last
// dominates is not summed.
pub fn least_sum(kind: Kind, library: &[u32], group: usize, costs: &[u32; sizes::COLUMNS]) -> Sum
    requires { SumFits (kind_index kind) library.now group costs.now }
    ensures { Summed (kind_index kind) (least costs.now (group_columns some library.now group)) result }
{
    let mut best = no_sum(kind);
    let mut depth = NEVER;
    let mut columns = 0;
    for row in (0..library[group] as usize).rev() {
        let at = group + 1 + sizes::ROW_WORDS * row;
        let next_depth = library[at];
        let next_columns = library[at + 1];
        if !is_dominated(next_depth, next_columns, depth, columns) {
            best = lesser_row(costs, next_depth, next_columns, best);
            depth = next_depth;
            columns = next_columns;
        }
    }
    best
}

// The same of a group whose rows are read as those of one wire.
pub fn least_wired(
    kind: Kind,
    library: &[u32],
    group: usize,
    lines: &[u32; sizes::GATE_LINES],
    pins: usize,
    costs: &[u32; sizes::COLUMNS],
) -> Sum
    requires { LeastFits true (kind_index kind) library.now group pins costs.now }
    ensures { Summed (kind_index kind) (least costs.now (group_columns
        (read_row true lines.now pins) library.now group)) result }
{
    let mut lowest = no_sum(kind);
    for row in (0..library[group] as usize).rev() {
        let at = group + 1 + sizes::ROW_WORDS * row;
        let columns = library[at + 1];
        if !needs_both(lines, pins, columns) {
            lowest = lesser_row(costs, library[at], once(lines, pins, columns), lowest);
        }
    }
    lowest
}

// The same of a group of a gate. How its rows are read was decided for the gate, not here. Only the sweeps
// call it, so that the compiler puts it into their loop.
pub fn least_of(
    wired: bool,
    kind: Kind,
    library: &[u32],
    group: usize,
    lines: &[u32; sizes::GATE_LINES],
    pins: usize,
    costs: &[u32; sizes::COLUMNS],
) -> Sum
    requires { LeastFits wired (kind_index kind) library.now group pins costs.now }
    ensures { Summed (kind_index kind) (least costs.now (group_columns
        (read_row wired lines.now pins) library.now group)) result }
{
    if wired {
        return least_wired(kind, library, group, lines, pins, costs);
    }
    least_sum(kind, library, group, costs)
}

// Where a gate's cell starts in the library table.
pub fn cell_place(netlist: &[u32], gate: usize) -> usize
    requires { gate_place gate < length netlist.now }
    ensures { result ≡ cell_place (gate_cell netlist.now gate) }
{
    cells::cell_place(cell_of(netlist, gate))
}
