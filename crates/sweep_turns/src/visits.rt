// One visit of a sweep, document 01, "Sweeps": it renews one number, by the row sums of a group.
//
// For the crates above: `visit` and `store`, with what they ask of the tables (specs/VisitFits.antt), since the
// loop of the sweeps tests no bounds. specs/Order.antt has the visits of a gate in their order, specs/Renewed.antt what
// visits leave.
//
// All goes by a role, setting (CC, SC) or observing (CO, SO), and by a kind, combinational (CC, CO) or sequential
// (SC, SO).
ghost use Rattle.std.specs.Prelude.{◌≡◌, true, ◌+◌, ◌*◌, ◌≤◌, get_or};
ghost use Rattle.cost.specs.Cost.{never};
ghost use Rattle.cost.specs.Kind.{kind_index};
ghost use Rattle.sweep_sums.specs.Sums.{sum_number};
ghost use Rattle.sweep_groups.specs.Tables.{group_visit};
ghost use Rattle.sweep_turns.specs.VisitFits.{StoreFits, VisitFits, CostsOf};
ghost use Rattle.sweep_turns.specs.Renewed.{Stored, Led, Renewed};

use cost::{Kind, NEVER};
use sweep_groups::least_of;
use sweep_groups::turns::{AsRole, Role};
use sweep_sums::{Sum, is_lower, lesser_of, number_of, sum_of};

// Stores a sum at a place of its kind, and says whether another number stood there.
pub fn store(numbers: &mut [u32], place: usize, sum: Sum) -> bool
    requires { StoreFits place sum numbers.old }
    ensures { Stored place (sum_number sum) numbers.old numbers.new result }
{
    let number = number_of(sum);
    if numbers[place] == number {
        return false;
    }
    numbers[place] = number;
    true
}

// Whether no row sum is below a number: where lines are observed, the cost of the gate's output observed
// is a term of each. A raw number above never is no cost yet: its visit makes one of it.
fn lowest_already<R: AsRole>(role: R, kind: Kind, number: u32, observed: u32) -> bool
    ensures { result ≡ true → (R.number role ≡ 0 → ⊥) × (number ≤ observed) × (number ≤ never) }
{
    match role.as_role() {
        Role::Setting => false,
        Role::Observing => {
            number <= NEVER && !is_lower(sum_of(kind, observed), sum_of(kind, number))
        }
    }
}

// Renews the number at a place by the row sums of a group, over the costs of its columns; whether it
// changed. Sums that cannot be below the number are not taken.
pub fn visit<R: AsRole>(
    role: R,
    kind: Kind,
    library: &[u32],
    group: usize,
    wired: bool,
    lines: &[u32; sizes::GATE_LINES],
    costs: &[u32; sizes::COLUMNS],
    numbers: &mut [u32],
    place: usize,
    pins: usize,
) -> bool
    requires { VisitFits wired (kind_index kind) library.now group costs.now numbers.old place pins }
    ensures { CostsOf (kind_index kind) library.now group lines.now pins
        numbers.old costs.now
        → Led (R.number role) (get_or costs.now (2 * pins + 2) 0) numbers.old
        (group_visit wired (kind_index kind) lines.now pins library.now group place)
        → Renewed
        (group_visit wired (kind_index kind) lines.now pins library.now group place)
        numbers.old numbers.new result }
{
    if lowest_already(role, kind, numbers[place], costs[2 * pins + 2]) {
        return false;
    }
    let least = least_of(wired, kind, library, group, lines, pins, costs);
    let sum = lesser_of(numbers[place], least);
    store(numbers, place, sum)
}
