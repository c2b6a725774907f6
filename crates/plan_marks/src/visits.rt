// The visits that set lines, of one kind, with marks of the visit at which each number was last lowered and of the row by which
// it was.
//
// For the crates above: `visit_gate`, one gate's visits, which wake the gates that need them. specs/Marks.antt has how what is
// remembered stands in the table of marks.
//
// A visit that does not lower its number leaves it: where lines are set that comes to the same as "becomes the least row sum"
// (`traces_agree` of crate `plans`).
ghost use Rattle.std.specs.Prelude.{[], ◌∷◌, ◌≡◌, ◌+◌, ◌^◌, ◌≤◌, ◌<◌, length, get_or};
ghost use Rattle.std.proofs.lemmas.List.Edits.{sets};
ghost use Rattle.sizes.specs.Sizes as Size;
ghost use Rattle.sizes.specs.Places.{mark_place};
ghost use Rattle.cost.specs.Kind.{kind_index};
ghost use Rattle.sweep_turns.specs.Order.{gate_visits};
ghost use Rattle.sweep_turns.specs.Wakes.{ChangesWoken};
ghost use Rattle.plan_marks.specs.Visits.{Fits, GateFits, turn_visit, Traced};

use crate::rows::{as_written, asking_columns, first_row, least_in};
use cost::Kind;
use netlist_table::gates::{place_of, unchecked};
use sweep_groups::cell_place;
use sweep_groups::gather::column_costs;
use sweep_groups::turns::{Role, visit_group, visit_place};
use sweep_links::awake::wake_readers;
use sweep_links::circuit::Circuit;
use sweep_links::is_tied;
use sweep_sums::lesser_of;
use sweep_turns::visits::store;
use table::word;

// Notes the visit of a line at a value, with the row that it took as it is written, the columns by which
// it asks, and where the line of the gate's last pin stands.
fn note(
    marks: &mut [u32; sizes::MARKS],
    line: u32,
    value: usize,
    visit: u32,
    row: u32,
    columns: u32,
    last: u32,
)
    requires { (line ≤ Size.lines) × (value ≤ 1) × (length marks.old ≡ Size.marks) }
    ensures { marks.new ≡ sets marks.old (mark_place line value)
        (visit ∷ row ∷ columns ∷ last ∷ []) }
{
    let at = (line as usize * sizes::VALUES + value) * sizes::MARK_WORDS;
    marks[at] = visit;
    marks[at + 1] = row;
    marks[at + 2] = columns;
    marks[at + 3] = last;
}

// A visit to a gate's output at a value, at a time: lowers its number to the least row sum, and notes
// the row, which is looked for only then. Whether it was lowered.
fn visit(
    kind: Kind,
    circuit: &Circuit,
    gate: usize,
    value: usize,
    clock: u32,
    numbers: &mut [u32; sizes::NUMBERS],
    marks: &mut [u32; sizes::MARKS],
) -> bool
    requires { Fits (kind_index kind) circuit.now.library.now circuit.now.netlist.now numbers.old marks.old
        × (gate < get_or circuit.now.netlist.now 0 0) × (value ≤ 1) × (clock + 1 < 2 ^ 32) }
    ensures { Traced (kind_index kind) circuit.now.library.now circuit.now.netlist.now
        (turn_visit (kind_index kind) circuit.now.library.now circuit.now.netlist.now gate value ∷ []) clock
        numbers.old marks.old numbers.new marks.new result }
{
    let cell = cell_place(circuit.netlist, gate);
    let pins = circuit.library[cell + sizes::PINS_AT] as usize;
    let lines = unchecked::lines_of(circuit.netlist, gate);
    let mut costs = [0u32; sizes::COLUMNS];
    column_costs(true, Role::Setting, kind, &lines, pins, numbers, &mut costs);
    let group = cell
        + sizes::GROUPS_AT
        + visit_group(Role::Setting, kind, value) * sizes::GROUP_WORDS;
    let place = visit_place(Role::Setting, kind, &lines, pins, value);
    let wired = is_tied(circuit.links, gate);
    let lowest = least_in(wired, kind, circuit.library, group, &lines, pins, &costs);
    let sum = lesser_of(numbers[place], lowest);
    if !store(numbers, place, sum) {
        return false;
    }
    let first = first_row(
        wired,
        kind,
        circuit.library,
        group,
        &lines,
        pins,
        &costs,
        lowest,
    );
    let row = group + 1 + sizes::ROW_WORDS * first;
    let columns = word(circuit.library, row + 1);
    let written = as_written(
        word(circuit.library, cell + sizes::HEADING_AT),
        word(circuit.library, row),
        columns,
    );
    let asking = asking_columns(wired, &lines, pins, columns);
    note(
        marks,
        lines[0],
        value,
        clock + 1,
        written,
        asking,
        (place_of(gate) + 1 + pins) as u32,
    );
    true
}

// A gate's two visits from a time on, "the output's 0 before its 1"; where one lowers its number, the gates that read
// the line are woken. Whether one did.
pub fn visit_gate(
    kind: Kind,
    circuit: &Circuit,
    gate: usize,
    clock: u32,
    numbers: &mut [u32; sizes::NUMBERS],
    marks: &mut [u32; sizes::MARKS],
    awake: &mut [u64; sizes::AWAKE_WORDS],
) -> bool
    requires { GateFits (kind_index kind) circuit.now.library.now circuit.now.netlist.now numbers.old marks.old
        gate clock }
    ensures traced { Traced (kind_index kind) circuit.now.library.now circuit.now.netlist.now
        (gate_visits 0 (kind_index kind) circuit.now.library.now circuit.now.netlist.now gate) clock
        numbers.old marks.old numbers.new marks.new result }
    ensures wakes { ChangesWoken 0 (kind_index kind) circuit.now.library.now circuit.now.netlist.now awake.old
        numbers.old awake.new numbers.new }
{
    let at_zero = visit(kind, circuit, gate, 0, clock, numbers, marks);
    let at_one = visit(kind, circuit, gate, 1, clock + 1, numbers, marks);
    if !(at_zero | at_one) {
        return false;
    }
    wake_readers(
        awake,
        circuit.links,
        unchecked::line_of(circuit.netlist, gate, 0),
    );
    true
}
