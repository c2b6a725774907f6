// The runs of an analysis again, from numbers that stand. Document 02, K11, K13 and K14.
//
// For the crates above, each with what it asks and leaves: whatever the numbers are (specs/Kept.antt),
// `observe_anew`, CO and SO from their start over the CC and SC that stand, and `go_on`, all four runs from
// what stands; and from numbers at which CO rests (specs/Trial.antt), `try_pad`, CO with one pad more.
#![tactic(auto)]

ghost use Rattle.std.specs.Prelude.{List, ◌≡◌, ◌≤◌, ◌<◌, length, get_or, set};
ghost use Rattle.sizes.specs.Sizes as Size;
ghost use Rattle.reading.specs.Choice.{pick};
ghost use Rattle.library_table.specs.Cells.{Cell};
ghost use Rattle.netlist_table.specs.Netlist.{Statement};
ghost use Rattle.calculation.specs.Stored.{Holds, Ready};
ghost use Rattle.sweep_reruns.specs.Kept.{as_cost, is_below, Kept, ObservedAnew, GoneOn};
ghost use Rattle.sweep_reruns.specs.Trial.{TryFits, PadTried};

use calculation::Counts;
use cost::{Kind, NEVER};
use netlist_table::gates::unchecked;
use sweep_groups::observing_place;
use sweep_groups::turns::Role;
use sweep_links::awake::wake_driver;
use sweep_links::circuit::Circuit;
use sweep_links::link;
use sweep_runs::{Sweeps, observe_lines, run, run_halves};
use sweep_start::{LOW, start};

// Keeps the number at a place, as a cost, if it is one of the first `end` of its line.
fn keep(standing: &[u32], numbers: &mut [u32; sizes::NUMBERS], end: usize, i: usize)
    requires { (i < Size.numbers) × (Size.numbers ≤ length standing.now) }
    ensures { numbers.new ≡ pick (is_below end i)
        (set numbers.old i (as_cost (get_or standing.now i 0)))
        numbers.old }
{
    if i % sizes::COSTS < end {
        numbers[i] = standing[i].min(NEVER);
    }
}

// Keeps the first `end` of each line's numbers that stand.
fn keep_numbers(standing: &[u32], numbers: &mut [u32; sizes::NUMBERS], end: usize)
    requires { Size.numbers ≤ length standing.now }
    ensures { Kept end standing.now numbers.old Size.numbers
        numbers.new }
{
    for i in 0..sizes::NUMBERS {
        keep(standing, numbers, end, i);
    }
}

// CO and SO run again from their start, over the CC and SC of numbers that stand.
pub fn observe_anew(
    library: &[u32],
    netlist: &[u32],
    standing: &[u32],
    numbers: &mut [u32; sizes::NUMBERS],
) -> Sweeps
    requires { Ready library.now netlist.now standing.now }
    ensures { (cells : List Cell) (ss : List Statement) → Holds library.now
        netlist.now cells ss → ObservedAnew cells ss standing.now
        numbers.new result }
{
    let mut links: [sizes::Link; sizes::LINKS] = [0; sizes::LINKS];
    link(library, netlist, &mut links);
    start(netlist, numbers, LOW);
    keep_numbers(standing, numbers, sizes::OBSERVED_AT);
    let circuit = Circuit {
        library,
        netlist,
        links: &links,
    };
    observe_lines(&circuit, numbers)
}

// The four runs from numbers that stand.
pub fn go_on(
    library: &[u32],
    netlist: &[u32],
    standing: &[u32],
    numbers: &mut [u32; sizes::NUMBERS],
) -> Counts
    requires { Ready library.now netlist.now standing.now }
    ensures { (cells : List Cell) (ss : List Statement) → Holds library.now
        netlist.now cells ss → GoneOn cells ss standing.now
        numbers.new result }
{
    let mut links: [sizes::Link; sizes::LINKS] = [0; sizes::LINKS];
    link(library, netlist, &mut links);
    keep_numbers(standing, numbers, sizes::COSTS);
    let circuit = Circuit {
        library,
        netlist,
        links: &links,
    };
    run_halves(&circuit, numbers)
}

// CO with one pad more, from numbers at which it rests: the pad's CO becomes 0, and just the gate that
// drives its line is awake.
pub fn try_pad(circuit: &Circuit, numbers: &mut [u32; sizes::NUMBERS], line: u32) -> u32
    requires { TryFits circuit.now.library.now circuit.now.netlist.now numbers.old line }
    ensures { (cells : List Cell) (ss : List Statement) → Holds circuit.now.library.now
        circuit.now.netlist.now cells ss → PadTried cells ss line numbers.old result
        numbers.new }
{
    let gates = unchecked::count(circuit.netlist);
    let l = line as usize;
    let place = observing_place(Kind::Combinational, line);
    numbers[place] = 0;
    let mut awake = [0u64; sizes::AWAKE_WORDS];
    wake_driver(&mut awake, circuit.links, gates, l);
    run(
        Role::Observing,
        Kind::Combinational,
        circuit,
        numbers,
        &mut awake,
    )
}
