// Best numbers within a budget, document 02, K12: the values of lines in CC, one at a time, the cheapest
// offer first. A value that K12 calls settled is called fixed here.
//
// For the crates above: `run`, a run over the tables of an accepted library and netlist (specs/Queued.antt
// says what it asks and what it leaves), `Spent`, what it comes to, and `leaf_place`.
//
// The values are the leaves of a queue (crate `budget_queue`), each with what it is on offer for. A step takes the
// front, and then asks the gates anew that read its line: crate `sweep_links` has them.
#![tactic(auto)]

ghost use Rattle.std.specs.Prelude.{List, ◌≡◌, ◌≤◌, ◌<◌, get_or, unwrap_or, SomeIff};
ghost use Rattle.sizes.specs.Sizes as Size;
ghost use Rattle.sizes.specs.Places.{leaf_of, leaf_place};
ghost use Rattle.library_table.specs.Cells.{Cell};
ghost use Rattle.netlist_table.specs.Netlist.{Statement};
ghost use Rattle.netlist_table.specs.Gates.{gate_line};
ghost use Rattle.calculation.specs.Stored.{Holds};
ghost use Rattle.sweep_links.specs.Lines.{pin_gate};
ghost use Rattle.budget_queue.specs.Queue.{Put};
ghost use Rattle.budget_run.specs.Steps.{gate_offer, gate_bid, GateReady, OutputStands, Refreshed};
ghost use Rattle.budget_run.specs.Steps.{RefreshFits, AnyGate, Reads, Fresh, Passed};
ghost use Rattle.budget_run.specs.Queued.{StepFits, Matches, Stepped};
ghost use Rattle.budget_run.specs.Queued.{PricesFit, Priced, Unbegun, RanWithin, LastOf};

use budget_queue::{CostQueue, Foremost};
use cost::{Kind, NEVER, Spatial};
use netlist_table::gates::unchecked;
use sweep_groups::gather::column_costs;
use sweep_groups::turns::{Role, visit_group};
use sweep_groups::{cell_place, least_sum, least_wired};
use sweep_links::circuit::Circuit;
use sweep_links::{is_tied, link};
use sweep_start::{LOW, start};
use sweep_sums::spatial_of;

// The least row sum of the group of a gate's output at a value; never where no row has all its columns
// fixed.
fn offer_of(
    circuit: &Circuit,
    numbers: &[u32; sizes::NUMBERS],
    gate: usize,
    value: usize,
) -> Spatial
    requires { GateReady circuit.now.library.now circuit.now.netlist.now numbers.now gate × (value ≤ 1) }
    ensures { result.0 ≡ gate_offer circuit.now.library.now circuit.now.netlist.now numbers.now gate
        value }
{
    let cell = cell_place(circuit.netlist, gate);
    let pins = circuit.library[cell + sizes::PINS_AT] as usize;
    let lines = unchecked::lines_of(circuit.netlist, gate);
    let wired = is_tied(circuit.links, gate);
    let mut costs = [0u32; sizes::COLUMNS];
    column_costs(
        true,
        Role::Setting,
        Kind::Combinational,
        &lines,
        pins,
        numbers,
        &mut costs,
    );
    let group = cell
        + sizes::GROUPS_AT
        + visit_group(Role::Setting, Kind::Combinational, value) * sizes::GROUP_WORDS;
    if wired {
        return spatial_of(least_wired(
            Kind::Combinational,
            circuit.library,
            group,
            &lines,
            pins,
            &costs,
        ));
    }
    spatial_of(least_sum(Kind::Combinational, circuit.library, group, &costs))
}

// The leaf of a gate's output at a value.
fn leaf_of(netlist: &[u32], gate: usize, value: usize) -> usize
    requires { OutputStands netlist.now gate × (value ≤ 1) }
    ensures { result ≡ leaf_of (gate_line netlist.now gate 0) value }
{
    (unchecked::line_of(netlist, gate, 0) - 1) * sizes::VALUES + value
}

// Where the number of a leaf's value stands.
pub fn leaf_place(leaf: usize) -> usize
    requires { leaf < Size.leaves }
    ensures { (result ≡ leaf_place leaf) × (result < Size.numbers) }
{
    leaf / sizes::VALUES * sizes::COSTS + leaf % sizes::VALUES
}

// Takes the offer of a gate for its output at a value anew. A value that is fixed has none, and its rows
// are not summed.
fn refresh_value(
    circuit: &Circuit,
    numbers: &[u32; sizes::NUMBERS],
    queue: &mut CostQueue,
    gate: usize,
    value: usize,
)
    requires { GateReady circuit.now.library.now circuit.now.netlist.now numbers.now gate × (value ≤ 1) }
    ensures { Put (leaf_of (gate_line circuit.now.netlist.now gate 0) value)
        (gate_bid circuit.now.library.now circuit.now.netlist.now numbers.now gate value)
        queue.old queue.new }
{
    let leaf = leaf_of(circuit.netlist, gate, value);
    let place = leaf_place(leaf);
    if numbers[place] < NEVER {
        queue.put(leaf, NEVER);
    } else {
        let offer = offer_of(circuit, numbers, gate, value);
        queue.put(leaf, offer.0);
    }
}

fn refresh_gate(
    circuit: &Circuit,
    numbers: &[u32; sizes::NUMBERS],
    queue: &mut CostQueue,
    gate: usize,
)
    requires { GateReady circuit.now.library.now circuit.now.netlist.now numbers.now gate }
    ensures { Refreshed circuit.now.library.now circuit.now.netlist.now numbers.now gate
        queue.old queue.new }
{
    refresh_value(circuit, numbers, queue, gate, 0);
    refresh_value(circuit, numbers, queue, gate, 1);
}

// Takes the offers of all gates anew.
fn refresh_all(circuit: &Circuit, numbers: &[u32; sizes::NUMBERS], queue: &mut CostQueue)
    requires { RefreshFits circuit.now.library.now circuit.now.netlist.now numbers.now }
    ensures { Fresh circuit.now.library.now circuit.now.netlist.now numbers.now AnyGate
        queue.old queue.new }
{
    for gate in 0..unchecked::count(circuit.netlist) {
        refresh_gate(circuit, numbers, queue, gate);
    }
}

fn link_at(links: &[sizes::Link; sizes::LINKS], at: usize) -> usize
    requires { at < Size.links }
    ensures { result ≡ get_or links.now at 0 }
{
    links[at] as usize
}

// The gate of a pin in the links; none at the end of a chain.
fn gate_of(pin: usize) -> Option<usize>
    ensures { SomeIff result (0 < pin) (pin_gate pin) }
{
    if pin == 0 {
        None
    } else {
        Some((pin - 1) / sizes::PINS)
    }
}

// Takes the offers of a gate anew, unless the pin that comes next is its own too.
fn refresh_unless(
    circuit: &Circuit,
    numbers: &[u32; sizes::NUMBERS],
    queue: &mut CostQueue,
    gate: usize,
    next: Option<usize>,
)
    requires { GateReady circuit.now.library.now circuit.now.netlist.now numbers.now gate }
    ensures { Passed circuit.now.library.now circuit.now.netlist.now numbers.now gate next
        queue.old queue.new }
{
    if next == Some(gate) {
        return;
    }
    refresh_gate(circuit, numbers, queue, gate);
}

// Takes the offers of the gates that read a line anew, each once: its pins stand side by side in the chain.
fn refresh_readers(
    circuit: &Circuit,
    numbers: &[u32; sizes::NUMBERS],
    queue: &mut CostQueue,
    line: usize,
)
    requires { RefreshFits circuit.now.library.now circuit.now.netlist.now numbers.now
        × (line ≤ Size.lines) }
    ensures { Fresh circuit.now.library.now circuit.now.netlist.now numbers.now
        (Reads circuit.now.netlist.now line) queue.old queue.new }
{
    let mut pin = link_at(circuit.links, sizes::READERS_AT + line);
    while let Some(gate) = gate_of(pin) {
        let next = link_at(circuit.links, sizes::NEXT_AT + pin);
        let then = gate_of(next);
        refresh_unless(circuit, numbers, queue, gate, then);
        pin = next;
    }
}

// One step: fixes the cheapest value on offer, and takes the offers of the gates that read its line anew.
// Answers what it cost, none where nothing was on offer.
fn one_step(
    circuit: &Circuit,
    numbers: &mut [u32; sizes::NUMBERS],
    queue: &mut CostQueue,
) -> Option<u32>
    requires { StepFits circuit.now.library.now circuit.now.netlist.now numbers.old queue.old }
    ensures { (cells : List Cell) (ss : List Statement) → Holds circuit.now.library.now
        circuit.now.netlist.now cells ss
        → Matches cells ss numbers.old queue.old
        → Stepped cells ss numbers.old result numbers.new queue.new }
{
    let Foremost { leaf, cost } = queue.front()?;
    let place = leaf_place(leaf);
    numbers[place] = cost;
    queue.put(leaf, NEVER);
    refresh_readers(circuit, numbers, queue, leaf / sizes::VALUES + 1);
    Some(cost)
}

// Puts the prices of inputs on offer: what the start has for a line's CC.
fn offer_prices(prices: &[u32; sizes::NUMBERS], queue: &mut CostQueue)
    requires { PricesFit prices.now queue.old }
    ensures { Priced prices.now queue.new }
{
    for leaf in 0..sizes::LEAVES {
        queue.put(leaf, prices[leaf_place(leaf)]);
    }
}

// What a run came to: its steps, and the cost of the last, none where it made none.
#[derive(Clone, Copy)]
pub struct Spent {
    pub steps: usize,
    pub last: Option<u32>,
}

// A run of at most `budget` steps over the tables of an accepted library and netlist. The numbers and the
// queue are those of no step before.
pub fn run(
    library: &[u32],
    netlist: &[u32],
    budget: usize,
    numbers: &mut [u32; sizes::NUMBERS],
    queue: &mut CostQueue,
) -> Spent
    requires { Unbegun library.now netlist.now numbers.old queue.old }
    ensures ran { (cells : List Cell) (ss : List Statement) → Holds library.now
        netlist.now cells ss
        → RanWithin cells ss budget result.steps (unwrap_or result.last 0) numbers.new
        queue.new }
    ensures last { LastOf result.steps result.last }
{
    let mut links: [sizes::Link; sizes::LINKS] = [0; sizes::LINKS];
    link(library, netlist, &mut links);
    let circuit = Circuit {
        library,
        netlist,
        links: &links,
    };
    let mut prices = [0u32; sizes::NUMBERS];
    start(netlist, &mut prices, LOW);
    offer_prices(&prices, queue);
    refresh_all(&circuit, numbers, queue);
    let mut last = None;
    for steps in 0..budget {
        let Some(cost) = one_step(&circuit, numbers, queue) else {
            return Spent { steps, last };
        };
        last = Some(cost);
    }
    Spent {
        steps: budget,
        last,
    }
}
