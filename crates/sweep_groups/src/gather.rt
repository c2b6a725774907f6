// What the columns of a gate's rows ask for, read out of the numbers table: each column's cost by its
// bit, so that every row of the gate is summed over them.
ghost use Rattle.std.specs.Prelude.{◌+◌, ◌*◌};
ghost use Rattle.cost.specs.Kind.{kind_index};
ghost use Rattle.sweep_groups.specs.Tables.{role_columns};
ghost use Rattle.sweep_groups.specs.Fits.{Gathered, GatherFits, LineCostsFit};

use super::places::{observing_place, setting_place};
use super::turns::{AsRole, Role};
use cost::Kind;

// The costs of so many lines at 1 and at 0, from that of the last pin back.
fn line_costs(
    kind: Kind,
    lines: &[u32; sizes::GATE_LINES],
    pins: usize,
    numbers: &[u32],
    count: usize,
    costs: &mut [u32; sizes::COLUMNS],
)
    requires { LineCostsFit (kind_index kind) lines.now pins numbers.now count costs.old }
    ensures { Gathered (2 * count) (kind_index kind) lines.now pins numbers.now
        costs.new }
{
    for back in 0..count {
        let place = setting_place(kind, lines[pins - back], 0);
        costs[2 * back] = numbers[place + 1];
        costs[2 * back + 1] = numbers[place];
    }
}

// The costs of the columns that the rows of a visit may name, gathered anew where they are stale: the
// pins' where lines are set, where they are observed the output's too.
pub fn column_costs<R: AsRole>(
    stale: bool,
    role: R,
    kind: Kind,
    lines: &[u32; sizes::GATE_LINES],
    pins: usize,
    numbers: &[u32],
    costs: &mut [u32; sizes::COLUMNS],
)
    requires { GatherFits stale (R.number role) (kind_index kind) lines.now pins numbers.now costs.old }
    ensures { Gathered (role_columns (R.number role) pins) (kind_index kind) lines.now pins numbers.now
        costs.new }
{
    if !stale {
        return;
    }
    match role.as_role() {
        Role::Setting => line_costs(kind, lines, pins, numbers, pins, costs),
        Role::Observing => {
            line_costs(kind, lines, pins, numbers, pins + 1, costs);
            costs[2 * pins + 2] = numbers[observing_place(kind, lines[0])];
        }
    }
}
