// The start of the calculation, document 01, "Sweeps": the six numbers of each line before the first sweep,
// out of the netlist table.
//
// For the crates above: `start`, which asks for a whole table and for just as many entries as there are numbers.
#![tactic(auto)]

ghost use Rattle.std.specs.Prelude.{not, ◌≡◌, ◌+◌, ◌*◌, ◌≤◌, ◌<◌, eqb, length, get_or};
ghost use Rattle.std.proofs.lemmas.List.Edits.{sets};
ghost use Rattle.sizes.specs.Sizes as Size;
ghost use Rattle.sizes.specs.Places.{ranged_place};
ghost use Rattle.sweep_start.specs.Start.{start_number, price_word, line_price, line_start, lines_start, last_marked};

use cost::NEVER;
use netlist_table::lines::unchecked;
use netlist_table::some_range;
use table::used;

// Which end of the ranges the inputs are priced at: a bool, as `high` in specs/Start.antt; an enum's variants would say no more.
pub const LOW: bool = false;

pub const HIGH: bool = true;

// What a number starts at: its price where the line is marked so.
#[tactic(auto, unfolding(crate::specs::Start::start_number, reading::specs::Choice::pick))]
fn first(mark: u32, price: u32) -> u32
    ensures { result ≡ start_number mark price }
{
    if mark == 1 { price } else { NEVER }
}

// What a range says, at its high end or its low one: 1 where there is none.
#[tactic(auto, unfolding(crate::specs::Start::price_word, reading::specs::Choice::pick))]
fn price(range: u32, high: bool) -> u32
    ensures { result ≡ price_word high range }
{
    if range == 0 {
        return 1;
    }
    if high {
        range / sizes::PRICES
    } else {
        range % sizes::PRICES
    }
}

// What setting a line costs where it is an input, lines from 0 here. A netlist without ranges is not asked for them.
#[tactic(auto, unfolding(crate::specs::Start::line_price, reading::specs::Choice::pick))]
fn line_price(netlist: &[u32], line: usize, high: bool, ranged: bool) -> u32
    requires { (line < Size.lines) × (Size.netlist ≤ length netlist.now)
        × (ranged ≡ not (eqb (get_or netlist.now ranged_place 0) 0)) }
    ensures { result ≡ line_price high netlist.now (1 + line) }
{
    if ranged {
        price(unchecked::range_of(netlist, 1 + line), high)
    } else {
        1
    }
}

// Lays the start of the six numbers of a line.
fn start_line(netlist: &[u32], numbers: &mut [u32], line: usize, high: bool, ranged: bool)
    requires { (line < Size.lines) × (Size.netlist ≤ length netlist.now)
        × (length numbers.old ≡ Size.numbers)
        × (ranged ≡ not (eqb (get_or netlist.now ranged_place 0) 0)) }
    ensures { numbers.new ≡ sets numbers.old (line * Size.costs)
        (line_start high netlist.now (1 + line)) }
{
    let driver = unchecked::driver_of(netlist, 1 + line);
    let output = unchecked::output_of(netlist, 1 + line);
    let cc = first(driver, line_price(netlist, line, high, ranged));
    let sc = first(driver, 0);
    let o = first(output, 0);
    let at = line * sizes::COSTS;
    // No `copy_from_slice`: it compares addresses, which the archive as WebAssembly may not (pads/narrow).
    numbers[at] = cc;
    numbers[at + 1] = cc;
    numbers[at + 2] = sc;
    numbers[at + 3] = sc;
    numbers[at + 4] = o;
    numbers[at + 5] = o;
}

// The highest line that is driven, open or an output: no line past it starts at anything but never.
fn last_marked(netlist: &[u32]) -> usize
    ensures { result ≡ last_marked netlist.now }
{
    let driven = used(netlist, 1, sizes::LINES);
    let output = used(netlist, sizes::OUTPUTS_AT + 1, sizes::LINES);
    driven.max(output)
}

// Lays the start of all numbers, inputs at the high end of their ranges or at the low one.
pub fn start(netlist: &[u32], numbers: &mut [u32], high: bool)
    requires { (Size.netlist ≤ length netlist.now) × (length numbers.old ≡ Size.numbers) }
    ensures { numbers.new ≡ lines_start high netlist.now Size.lines 1 }
{
    numbers.fill(NEVER);
    let ranged = some_range(netlist);
    let end = last_marked(netlist);
    for line in 0..end {
        start_line(netlist, numbers, line, high, ranged);
    }
}
