// The sweeps that set lines, of one kind, once more: with marks of the visit at which each number was
// last lowered and of the row by which it was. A cheapest plan is read off from them.
//
// For the crates above: `trace`, over the library and the netlist table of accepted texts. specs/Lowered.antt has what
// the sweeps remember; how it stands in the table of marks, `visits`.
//
// This run stands by itself, so that the sweeps of an analysis, which need no marks, pay nothing for them. Its sweeps go
// in netlist order from one gate that is awake to the next, as those of crate `sweep_runs` do: the visits of a gate that
// is asleep lower nothing, so that numbers, marks and times are those of the whole sweep.
//
// Modules: `rows`, the row by which a visit lowers its number; `visits`, one gate's visits, with their marks.
#![tactic(auto)]

pub mod rows;
pub mod visits;

ghost use Rattle.std.specs.Prelude.{List, ◌≡◌};
ghost use Rattle.cost.specs.Kind.{kind_index};
ghost use Rattle.library_table.specs.Cells.{Cell};
ghost use Rattle.netlist_table.specs.Netlist.{Statement};
ghost use Rattle.calculation.specs.Nodes as Node;
ghost use Rattle.sweep_runs.specs.Asleep.{Resting};
ghost use Rattle.sweep_runs.specs.Order.{sweep_visits};
ghost use Rattle.calculation.specs.Stored.{Holds};
ghost use Rattle.plan_marks.specs.Marks.{AllNoted};
ghost use Rattle.plan_marks.specs.Visits.{Traced};
ghost use Rattle.plan_marks.specs.Lowered.{setting_trace};
ghost use Rattle.plan_marks.specs.Runs.{SweepFits, Traceable};

use crate::visits::visit_gate;
use cost::Kind;
use netlist_table::gates::unchecked;
use sweep_links::awake::{all_awake, next_awake, rest};
use sweep_links::circuit::Circuit;
use sweep_links::link;
use sweep_start::{LOW, start};

// One sweep that begins at a time, from one gate that is awake to the next; whether a number changed.
fn one_sweep(
    kind: Kind,
    circuit: &Circuit,
    clock: u32,
    numbers: &mut [u32; sizes::NUMBERS],
    marks: &mut [u32; sizes::MARKS],
    awake: &mut [u64; sizes::AWAKE_WORDS],
) -> bool
    requires { SweepFits (kind_index kind) circuit.now.library.now circuit.now.netlist.now numbers.old marks.old
        awake.old clock }
    ensures traced { Traced (kind_index kind) circuit.now.library.now circuit.now.netlist.now
        (sweep_visits 0 (kind_index kind) circuit.now.library.now circuit.now.netlist.now) clock
        numbers.old marks.old numbers.new marks.new result }
    ensures rests { Resting 0 (kind_index kind) circuit.now.library.now circuit.now.netlist.now awake.new
        numbers.new }
{
    let gates = unchecked::count(circuit.netlist);
    let mut changed = false;
    let mut gate = next_awake(awake, 0, gates);
    while gate < gates {
        rest(awake, gate);
        let time = clock + 2 * gate as u32;
        let lowered = visit_gate(kind, circuit, gate, time, numbers, marks, awake);
        changed |= lowered;
        gate = next_awake(awake, gate + 1, gates);
    }
    changed
}

// The sweeps from the start on, until the first that changes nothing. The marks are all 0 before.
pub fn trace(kind: Kind, library: &[u32], netlist: &[u32], marks: &mut [u32; sizes::MARKS])
    requires { Traceable (kind_index kind) library.now netlist.now marks.old }
    ensures { (k : Node.Kind) (cells : List Cell) (ss : List Statement) → Node.kind_number k ≡ kind_index kind
        → Holds library.now netlist.now cells ss
        → AllNoted (kind_index kind) library.now netlist.now (setting_trace k cells ss).marks
        marks.new }
{
    let gates = unchecked::count(netlist);
    let mut links: [sizes::Link; sizes::LINKS] = [0; sizes::LINKS];
    link(library, netlist, &mut links);
    let circuit = Circuit {
        library,
        netlist,
        links: &links,
    };
    let mut numbers = [0u32; sizes::NUMBERS];
    start(netlist, &mut numbers, LOW);
    let mut awake = all_awake();
    let mut clock: u32 = 0;
    for _ in 0..2 * gates + 1 {
        let changed = one_sweep(kind, &circuit, clock, &mut numbers, marks, &mut awake);
        if !changed {
            return;
        }
        clock += 2 * gates as u32;
    }
}
