// Goldstein's calculation, document 01, "Sweeps": the start, and sweeps until the first that changes
// nothing, for CC, SC, CO and SO.
//
// For the crates above: `calculate`, over the library and the netlist table of accepted texts, which
// answers the type `Counts` of crate `calculation` (calculation/specs/Stored.antt says what it asks and what
// it leaves); its halves, `set_lines` and `observe_lines`, and both, `run_halves`, each of which goes on from
// whatever numbers stand there (specs/Halves.antt); one run, `run`, from a set of awake gates that its caller names; and
// `hand_over`, which lays found numbers into a lent table. Starting and running stay apart: crate
// `sweep_start` lays the start, and crate `sweep_links` makes what all sweeps need of the netlist. No inner
// function tests a bound, here or in crate `sweep_turns`: what each asks of the tables (specs/Fits.antt) is
// shown once, for the halves.
//
// A sweep goes from one awake gate to the next (module `sweep_links::awake`), and makes the visits of each (crate
// `sweep_turns`): a gate that is not awake is one whose visits change nothing, so that numbers and counts are
// those of the whole sweep (specs/Asleep.antt). A run begins with at least those gates awake that are
// not idle; `run_all` begins with all.
//
// All goes by a role, setting (CC, SC) or observing (CO, SO), and by a kind, combinational (CC, CO) or sequential
// (SC, SO).
#![tactic(auto)]

ghost use Rattle.std.specs.Prelude.{◌≡◌, List, ◌++◌, ◌≤◌, ◌<◌, length, drop};
ghost use Rattle.sizes.specs.Sizes as Size;
ghost use Rattle.cost.specs.Kind.{kind_index};
ghost use Rattle.plans.specs.Sweep.{lower, Settles};
ghost use Rattle.library_table.specs.Cells.{Cell};
ghost use Rattle.netlist_table.specs.Netlist.{Statement, gates_of};
ghost use Rattle.calculation.specs.Calculation.{analysed_at};
ghost use Rattle.calculation.specs.Prices.{prices_at};
ghost use Rattle.calculation.specs.Runs.{setting_stages, observing_stages};
ghost use Rattle.sweep_groups.specs.Roles.{role_index};
ghost use Rattle.sweep_turns.specs.Order.{gate_of_turn};
ghost use Rattle.sweep_turns.specs.Renewed.{Swept};
ghost use Rattle.sweep_runs.specs.Fits.{SweepFits, RunFits, FreshFits};
ghost use Rattle.sweep_runs.specs.Halves.{half_stages, HalfFits, Ran, BothRan};
ghost use Rattle.sweep_runs.specs.Order.{sweep_visits};
ghost use Rattle.calculation.specs.Stored.{Holds, Ready, Calculated, whole};
ghost use Rattle.sweep_runs.specs.Asleep.{Resting};

use calculation::Counts;
use cost::Kind;
use cost::Kind::{Combinational, Sequential};
use netlist_table::gates::unchecked;
use sweep_groups::turns::Role;
use sweep_groups::turns::Role::{Observing, Setting};
use sweep_links::awake::{all_awake, next_awake, rest};
use sweep_links::circuit::Circuit;
use sweep_links::link;
use sweep_start::start;
use sweep_turns::visit_gate;

// The gate of a turn, "in netlist order" or "in reverse order".
#[tactic(auto, unfolding(sweep_groups::specs::Tables::by_role, reading::specs::Choice::pick))]
fn gate_of_turn(role: Role, gates: usize, turn: usize) -> usize
    requires { turn < gates }
    ensures { result ≡ gate_of_turn (role_index role) gates turn }
{
    match role {
        Setting => turn,
        Observing => gates - 1 - turn,
    }
}

// One sweep over the gates, from one that is awake to the next; whether a number changed.
fn one_sweep(
    role: Role,
    kind: Kind,
    circuit: &Circuit,
    numbers: &mut [u32],
    awake: &mut [u64; sizes::AWAKE_WORDS],
) -> bool
    requires { SweepFits (role_index role) (kind_index kind) circuit.now.library.now circuit.now.netlist.now
        numbers.old awake.old }
    ensures swept { Swept (sweep_visits (role_index role) (kind_index kind) circuit.now.library.now circuit.now.netlist.now)
        numbers.old numbers.new result }
    ensures rests { Resting (role_index role) (kind_index kind) circuit.now.library.now circuit.now.netlist.now
        awake.new numbers.new }
{
    let gates = unchecked::count(circuit.netlist);
    let mut changed = false;
    let mut turn = next_awake(awake, 0, gates);
    while turn < gates {
        let gate = gate_of_turn(role, gates, turn);
        rest(awake, turn);
        let renewed = visit_gate(role, kind, circuit, numbers, awake, gate);
        changed |= renewed;
        turn = next_awake(awake, turn + 1, gates);
    }
    changed
}

// Sweeps from the numbers that stand there, with at least those gates awake that are not idle: "Sweeps
// stop after the first that changes nothing; it is counted."
pub fn run(
    role: Role,
    kind: Kind,
    circuit: &Circuit,
    numbers: &mut [u32],
    awake: &mut [u64; sizes::AWAKE_WORDS],
) -> u32
    requires { RunFits (role_index role) (kind_index kind) circuit.now.library.now circuit.now.netlist.now
        numbers.old awake.old }
    ensures { Settles lower (sweep_visits (role_index role) (kind_index kind) circuit.now.library.now circuit.now.netlist.now)
        numbers.old result numbers.new }
{
    let mut count: u32 = 1;
    while one_sweep(role, kind, circuit, numbers, awake) {
        count += 1;
    }
    count
}

// A run with all gates awake.
fn run_all(role: Role, kind: Kind, circuit: &Circuit, numbers: &mut [u32]) -> u32
    requires { FreshFits (role_index role) (kind_index kind) circuit.now.library.now circuit.now.netlist.now
        numbers.old }
    ensures { Settles lower (sweep_visits (role_index role) (kind_index kind) circuit.now.library.now circuit.now.netlist.now)
        numbers.old result numbers.new }
{
    let mut awake = all_awake();
    run(role, kind, circuit, numbers, &mut awake)
}

// ---- the halves

// How many sweeps the two runs of a half took.
#[derive(Clone, Copy)]
pub struct Sweeps {
    pub combinational: u32,
    pub sequential: u32,
}

// The two runs of a role, from the numbers that stand there.
fn run_half(role: Role, circuit: &Circuit, numbers: &mut [u32]) -> Sweeps
    requires { HalfFits circuit.now.library.now circuit.now.netlist.now numbers.old }
    ensures { (cells : List Cell) (ss : List Statement) → Holds circuit.now.library.now
        circuit.now.netlist.now cells ss → Ran (half_stages role cells (gates_of ss))
        numbers.old result numbers.new }
{
    let combinational = run_all(role, Combinational, circuit, numbers);
    let sequential = run_all(role, Sequential, circuit, numbers);
    Sweeps {
        combinational,
        sequential,
    }
}

// CC and SC, from the numbers that stand there.
pub fn set_lines(circuit: &Circuit, numbers: &mut [u32]) -> Sweeps
    requires { HalfFits circuit.now.library.now circuit.now.netlist.now numbers.old }
    ensures { (cells : List Cell) (ss : List Statement) → Holds circuit.now.library.now
        circuit.now.netlist.now cells ss → Ran (setting_stages cells (gates_of ss))
        numbers.old result numbers.new }
{
    run_half(Setting, circuit, numbers)
}

// CO and SO, from the numbers that stand there.
pub fn observe_lines(circuit: &Circuit, numbers: &mut [u32]) -> Sweeps
    requires { HalfFits circuit.now.library.now circuit.now.netlist.now numbers.old }
    ensures { (cells : List Cell) (ss : List Statement) → Holds circuit.now.library.now
        circuit.now.netlist.now cells ss → Ran (observing_stages cells (gates_of ss))
        numbers.old result numbers.new }
{
    run_half(Observing, circuit, numbers)
}

// Both halves, from the numbers that stand there; how many sweeps each run took.
pub fn run_halves(circuit: &Circuit, numbers: &mut [u32]) -> Counts
    requires { HalfFits circuit.now.library.now circuit.now.netlist.now numbers.old }
    ensures { (cells : List Cell) (ss : List Statement) → Holds circuit.now.library.now
        circuit.now.netlist.now cells ss → BothRan cells ss numbers.old result numbers.new }
{
    let set = set_lines(circuit, numbers);
    let observed = observe_lines(circuit, numbers);
    Counts {
        cc: set.combinational,
        sc: set.sequential,
        co: observed.combinational,
        so: observed.sequential,
    }
}

// Lays numbers into the first of a lent table.
pub fn hand_over(found: &[u32; sizes::NUMBERS], numbers: &mut [u32])
    requires { Size.numbers ≤ length numbers.old }
    ensures { numbers.new ≡ found.now ++ drop Size.numbers numbers.old }
{
    // No `copy_from_slice`: it compares addresses, which the archive as WebAssembly may not (pads/narrow).
    for i in 0..sizes::NUMBERS {
        numbers[i] = found[i];
    }
}

// Links, start and the two halves, in just as many entries as there are numbers, whatever stands there. They are a slice:
// of what std makes of a lent slice, `first_chunk_mut` answers an optional reference, which the WebAssembly archive may not
// hold, and `as_chunks_mut` says nothing of what the slice ends as.
fn four_runs(library: &[u32], netlist: &[u32], numbers: &mut [u32], high: bool) -> Counts
    requires { Ready library.now netlist.now numbers.old
        × (length numbers.old ≡ Size.numbers) }
    ensures { (cells : List Cell) (ss : List Statement) → Holds library.now
        netlist.now cells ss
        → whole result numbers.new ≡ analysed_at (prices_at high ss) cells ss }
{
    let mut links: [sizes::Link; sizes::LINKS] = [0; sizes::LINKS];
    link(library, netlist, &mut links);
    start(netlist, numbers, high);
    let circuit = Circuit {
        library,
        netlist,
        links: &links,
    };
    run_halves(&circuit, numbers)
}

// Goldstein's calculation over the tables of an accepted library and netlist, inputs at the high end of
// their ranges or at the low one: leaves the six numbers of each line in the numbers table, and says how
// many sweeps each run took. The sweeps work in the lent table itself, in its first entries; those behind
// are not lent on.
pub fn calculate(library: &[u32], netlist: &[u32], numbers: &mut [u32], high: bool) -> Counts
    requires { Ready library.now netlist.now numbers.old }
    ensures { (cells : List Cell) (ss : List Statement) → Holds library.now
        netlist.now cells ss → Calculated (prices_at high ss) cells ss
        numbers.old numbers.new result }
{
    four_runs(library, netlist, &mut numbers[..sizes::NUMBERS], high)
}
