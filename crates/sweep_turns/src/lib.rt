// One gate's turn in a sweep, document 01, "Sweeps": the visits of the gate, each of which renews one
// number, and the gates that a changed number wakes.
//
// For the crates above: `visit_gate`, with what it asks of the tables (specs/Fits.antt), since the loop of the sweeps
// tests no bounds. A visit itself is made by module `visits`.
//
// All goes by a role, setting (CC, SC) or observing (CO, SO), and by a kind, combinational (CC, CO) or sequential
// (SC, SO).
#![tactic(auto)]

pub mod visits;

ghost use Rattle.std.specs.Prelude.{◌≡◌, true, false, List, ℕ, ◌+◌, ◌*◌, ◌≤◌, ◌<◌, get_or};
ghost use Rattle.sizes.specs.Sizes as Size;
ghost use Rattle.cost.specs.Kind.{kind_index};
ghost use Rattle.sweep_groups.specs.Roles.{role_index};
ghost use Rattle.sweep_links.specs.Lines.{Chained, Driven};
ghost use Rattle.sweep_turns.specs.Fits.{TurnFits, WakeFits, GateVisitsFit, GateReadFits};
ghost use Rattle.sweep_turns.specs.Order.{read_visit, gate_visits};
ghost use Rattle.sweep_turns.specs.Renewed.{Led, Renewed, Swept};
ghost use Rattle.sweep_turns.specs.Wakes.{OwnUnread, LineWoken, ChangesWoken, DrivenOnce};

use crate::visits::visit;
use cost::Kind;
use netlist_table::gates::unchecked;
use sweep_groups::cell_place;
use sweep_groups::gather::column_costs;
use sweep_groups::turns::Role::{Observing, Setting};
use sweep_groups::turns::{Role, visit_group, visit_place};
use sweep_links::awake::{wake_driver, wake_readers};
use sweep_links::circuit::Circuit;
use sweep_links::is_tied;

// Where a number of a line changed, wakes the gates that need it: where lines are set those that read
// the line, where they are observed the one that drives it.
fn wake_needing(
    role: Role,
    changed: bool,
    line: u32,
    gates: usize,
    links: &[sizes::Link; sizes::LINKS],
    awake: &mut [u64; sizes::AWAKE_WORDS],
)
    requires { WakeFits (role_index role) line gates links.now }
    ensures { (netlist : List ℕ) → Chained netlist gates links.now
        → Driven netlist gates links.now → DrivenOnce netlist gates
        → LineWoken (role_index role) netlist gates line changed awake.old awake.new }
{
    if !changed {
        return;
    }
    match role {
        Setting => wake_readers(awake, links, line as usize),
        Observing => wake_driver(awake, links, gates, line as usize),
    }
}

// One visit of a gate, out of what was read of it: where its cell starts, its lines and its pins; one by one, in registers,
// since this is the sweeps' innermost loop.
fn visit_in_turn(
    role: Role,
    kind: Kind,
    library: &[u32],
    cell: usize,
    wired: bool,
    lines: &[u32; sizes::GATE_LINES],
    pins: usize,
    costs: &[u32; sizes::COLUMNS],
    numbers: &mut [u32],
    i: usize,
) -> bool
    requires { TurnFits (role_index role) (kind_index kind) library.now cell wired lines.now pins costs.now numbers.old i }
    ensures { Led (role_index role) (get_or costs.now (2 * pins + 2) 0) numbers.old
        (read_visit (role_index role) (kind_index kind) library.now cell wired lines.now pins i)
        → Renewed
        (read_visit (role_index role) (kind_index kind) library.now cell wired lines.now pins i)
        numbers.old numbers.new result }
{
    let group = cell + sizes::GROUPS_AT + visit_group(role, kind, i) * sizes::GROUP_WORDS;
    let place = visit_place(role, kind, lines, pins, i);
    visit(
        role, kind, library, group, wired, lines, costs, numbers, place, pins,
    )
}

// Whether a number of a gate's own line changed, and one of its pins reads the line.
fn own_read(changed: bool, lines: &[u32; sizes::GATE_LINES], pins: usize) -> bool
    requires { pins ≤ Size.pins }
    ensures { result ≡ false → changed ≡ true → OwnUnread lines.now pins }
{
    if !changed {
        return false;
    }
    for i in 1..=pins {
        if lines[i] == lines[0] {
            return true;
        }
    }
    false
}

// Whether the number of a pin's line changed, and the line is the gate's own.
fn own_observed(changed: bool, lines: &[u32; sizes::GATE_LINES], i: usize) -> bool
    requires { i < Size.pins }
    ensures { result ≡ false → changed ≡ true
        → get_or lines.now (i + 1) 0 ≡ get_or lines.now 0 0 → ⊥ }
{
    changed && lines[i + 1] == lines[0]
}

// A gate's visits where lines are set, "the output's 0 before its 1"; whether a number changed. The costs of its
// columns are gathered once, and again where a pin reads the gate's own line: the output's 1 then sees its 0. The
// gates that read the line are woken once, behind both visits.
fn set_gate(
    kind: Kind,
    circuit: &Circuit,
    numbers: &mut [u32],
    awake: &mut [u64; sizes::AWAKE_WORDS],
    gate: usize,
    cell: usize,
    pins: usize,
) -> bool
    requires { GateReadFits 0 (kind_index kind) circuit.now.library.now circuit.now.netlist.now
        numbers.old gate cell pins }
    ensures swept { Swept
        (gate_visits 0 (kind_index kind) circuit.now.library.now circuit.now.netlist.now gate)
        numbers.old numbers.new result }
    ensures wakes { ChangesWoken 0 (kind_index kind) circuit.now.library.now circuit.now.netlist.now
        awake.old numbers.old awake.new numbers.new }
{
    let gates = unchecked::count(circuit.netlist);
    let lines = unchecked::lines_of(circuit.netlist, gate);
    let wired = is_tied(circuit.links, gate);
    let mut costs = [0u32; sizes::COLUMNS];
    let mut stale = true;
    let mut changed = false;
    for i in 0..sizes::VALUES {
        column_costs(stale, Setting, kind, &lines, pins, numbers, &mut costs);
        let renewed = visit_in_turn(
            Setting,
            kind,
            circuit.library,
            cell,
            wired,
            &lines,
            pins,
            &costs,
            numbers,
            i,
        );
        stale = own_read(renewed, &lines, pins);
        changed |= renewed;
    }
    wake_needing(Setting, changed, lines[0], gates, circuit.links, awake);
    changed
}

// A gate's visits where lines are observed, "pins in order"; whether a number changed. The costs of its columns are
// gathered once, and again after a pin that reads the gate's own line: they have the output observed.
fn observe_gate(
    kind: Kind,
    circuit: &Circuit,
    numbers: &mut [u32],
    awake: &mut [u64; sizes::AWAKE_WORDS],
    gate: usize,
    cell: usize,
    pins: usize,
) -> bool
    requires { GateReadFits 1 (kind_index kind) circuit.now.library.now circuit.now.netlist.now
        numbers.old gate cell pins }
    ensures swept { Swept
        (gate_visits 1 (kind_index kind) circuit.now.library.now circuit.now.netlist.now gate)
        numbers.old numbers.new result }
    ensures wakes { ChangesWoken 1 (kind_index kind) circuit.now.library.now circuit.now.netlist.now
        awake.old numbers.old awake.new numbers.new }
{
    let gates = unchecked::count(circuit.netlist);
    let lines = unchecked::lines_of(circuit.netlist, gate);
    let mut costs = [0u32; sizes::COLUMNS];
    let mut stale = true;
    let mut changed = false;
    for i in 0..pins {
        column_costs(stale, Observing, kind, &lines, pins, numbers, &mut costs);
        let renewed = visit_in_turn(
            Observing,
            kind,
            circuit.library,
            cell,
            false,
            &lines,
            pins,
            &costs,
            numbers,
            i,
        );
        stale = own_observed(renewed, &lines, i);
        wake_needing(
            Observing,
            renewed,
            lines[i + 1],
            gates,
            circuit.links,
            awake,
        );
        changed |= renewed;
    }
    changed
}

// A gate's visits in a sweep; whether a number changed. Each role has a loop of its own, in which no visit asks for
// the role; one over both would be no plainer: setting wakes once behind its visits, observing at each.
pub fn visit_gate(
    role: Role,
    kind: Kind,
    circuit: &Circuit,
    numbers: &mut [u32],
    awake: &mut [u64; sizes::AWAKE_WORDS],
    gate: usize,
) -> bool
    requires { GateVisitsFit (role_index role) (kind_index kind) circuit.now.library.now circuit.now.netlist.now
        numbers.old gate }
    ensures swept { Swept
        (gate_visits (role_index role) (kind_index kind) circuit.now.library.now circuit.now.netlist.now gate)
        numbers.old numbers.new result }
    ensures wakes { ChangesWoken (role_index role) (kind_index kind) circuit.now.library.now circuit.now.netlist.now
        awake.old numbers.old awake.new numbers.new }
{
    let cell = cell_place(circuit.netlist, gate);
    let pins = circuit.library[cell + sizes::PINS_AT] as usize;
    match role {
        Setting => set_gate(kind, circuit, numbers, awake, gate, cell, pins),
        Observing => observe_gate(kind, circuit, numbers, awake, gate, cell, pins),
    }
}
