// The row of a group by which a visit lowers its number: the least row sum, the first row that comes to it, the row as it is
// written, and the columns by which it asks.
//
// For the crates above: `least_in`, `first_row`, `as_written` and `asking_columns`, over the library table and the costs of a
// gate's columns. specs/Rows.antt has what they answer.
ghost use Rattle.std.specs.Prelude.{◌≡◌};
ghost use Rattle.cost.specs.Kind.{kind_index};
ghost use Rattle.plans.specs.Sweep.{least};
ghost use Rattle.sweep_sums.specs.Sums.{Summed};
ghost use Rattle.sweep_groups.specs.Fits.{ReadFits, LeastFits};
ghost use Rattle.sweep_groups.specs.Tables.{read_row, group_columns};
ghost use Rattle.plan_marks.specs.Rows.{as_written, asking_columns, FirstOf};

use cost::Kind;
use library_table::Heading;
use sweep_groups::{is_way, least_sum, least_wired, read_sum};
use sweep_sums::{Sum, is_lower};
use sweep_wires::once;

// The least row sum of a group, as `least_of` of crate `sweep_groups` has it, which the sweeps of an analysis alone call.
pub fn least_in(
    wired: bool,
    kind: Kind,
    library: &[u32],
    group: usize,
    lines: &[u32; sizes::GATE_LINES],
    pins: usize,
    costs: &[u32; sizes::COLUMNS],
) -> Sum
    requires { LeastFits wired (kind_index kind) library.now group pins costs.now }
    ensures { Summed (kind_index kind) (least costs.now (group_columns
        (read_row wired lines.now pins) library.now group)) result }
{
    if wired {
        return least_wired(kind, library, group, lines, pins, costs);
    }
    least_sum(kind, library, group, costs)
}

// The first row of a group, from 0, that comes to the least row sum.
pub fn first_row(
    wired: bool,
    kind: Kind,
    library: &[u32],
    group: usize,
    lines: &[u32; sizes::GATE_LINES],
    pins: usize,
    costs: &[u32; sizes::COLUMNS],
    lowest: Sum,
) -> usize
    requires { LeastFits wired (kind_index kind) library.now group pins costs.now
        × Summed (kind_index kind) (least costs.now (group_columns (read_row wired lines.now pins) library.now group))
        lowest }
    ensures { FirstOf (read_row wired lines.now pins) library.now group
        costs.now result }
{
    let rows = library[group] as usize;
    for row in 0..rows {
        let at = group + 1 + sizes::ROW_WORDS * row;
        let depth = library[at];
        let columns = library[at + 1];
        if is_way(wired, lines, pins, columns) {
            let sum = read_sum(wired, kind, lines, pins, costs, depth, columns);
            if !is_lower(lowest, sum) {
                return row;
            }
        }
    }
    rows
}

// A row as its entry writes it, by its cell's heading.
pub fn as_written(heading: u32, depth: u32, columns: u32) -> u32
    ensures { result ≡ as_written heading depth columns }
{
    let depths = Heading::told(heading).depths();
    columns.wrapping_mul(depths).wrapping_add(depth)
}

// The columns by which a row asks that is a way.
pub fn asking_columns(
    wired: bool,
    lines: &[u32; sizes::GATE_LINES],
    pins: usize,
    columns: u32,
) -> u32
    requires { ReadFits wired pins columns }
    ensures { result ≡ asking_columns wired lines.now pins columns }
{
    if wired {
        return once(lines, pins, columns);
    }
    columns
}
