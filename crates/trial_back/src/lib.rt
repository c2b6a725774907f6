// What a pad on trial changed, put back: from the pad's line backwards, through lines that changed. Document 02, K13.
//
// For the crates above: `put_back`, over a netlist table and its links. It tells whether it came to the end; then, if the trial
// changed nothing but what can be reached so, the table is the one that stands (specs/Back.antt).
#![tactic(auto)]

mod stack;

ghost use Rattle.std.specs.Prelude.{◌≡◌, true, ◌&&◌, ◌≤◌, ◌<◌, ◌+◌, ◌-◌, eqb, length, get_or, set, SomeIff};
ghost use Rattle.sizes.specs.Sizes as Size;
ghost use Rattle.netlist_table.specs.Gates.{gate_line, LinesStand};
ghost use Rattle.trial_back.specs.Back.{co_place, Put, PinsBack, driver_of, BackFits, WalkFits, Walked, PutBack};

use crate::stack::Stack;
use netlist_table::gates::line_of;

// The place of a line's CO.
fn place_of(line: usize) -> usize
    requires { (1 ≤ line) × (line ≤ Size.lines) }
    ensures { result ≡ co_place line }
{
    (line - 1) * sizes::COSTS + sizes::OBSERVED_AT
}

// Whether the CO and SO at a place are those that stand. (As two slices that are compared: measured slower.)
fn is_same(standing: &[u32; sizes::NUMBERS], tried: &[u32; sizes::NUMBERS], at: usize) -> bool
    requires { at + 1 < Size.numbers }
    ensures { result ≡ (eqb (get_or tried.now at 0) (get_or standing.now at 0)
        && eqb (get_or tried.now (at + 1) 0) (get_or standing.now (at + 1) 0)) }
{
    tried[at] == standing[at] && tried[at + 1] == standing[at + 1]
}

// Stores those that stand.
fn store(standing: &[u32; sizes::NUMBERS], tried: &mut [u32; sizes::NUMBERS], at: usize)
    requires { at + 1 < Size.numbers }
    ensures { tried.new ≡ set (set tried.old at (get_or standing.now at 0))
        (at + 1) (get_or standing.now (at + 1) 0) }
{
    tried[at] = standing[at];
    tried[at + 1] = standing[at + 1];
}

// Puts back the CO and SO of a line; where they had changed, the line goes on the stack. (No struct has `standing`, `tried` and
// the stack: each function would have to promise that it still holds the caller's `tried`.)
fn put_line(
    standing: &[u32; sizes::NUMBERS],
    tried: &mut [u32; sizes::NUMBERS],
    stack: &mut Stack,
    line: usize,
)
    requires { (1 ≤ line) × (line ≤ Size.lines) × (length stack.old < Size.back_lines) }
    ensures { Put standing.now line tried.old stack.old tried.new stack.new }
{
    let at = place_of(line);
    if !is_same(standing, tried, at) {
        store(standing, tried, at);
        stack.push(line);
    }
}

// The line that a pin reads, if any.
fn pin_line(netlist: &[u32], gate: usize, i: usize) -> Option<usize>
    requires { (gate < Size.gates) × (i < Size.gate_lines) }
    ensures { SomeIff result (1 ≤ gate_line netlist.now gate i) (gate_line netlist.now gate i) }
{
    let line = line_of(netlist, gate, i);
    (line != 0).then_some(line)
}

// The lines of all pins of a gate.
fn put_pins(
    netlist: &[u32],
    standing: &[u32; sizes::NUMBERS],
    tried: &mut [u32; sizes::NUMBERS],
    stack: &mut Stack,
    gate: usize,
)
    requires { (length stack.old + Size.pins ≤ Size.back_lines) × LinesStand netlist.now (gate + 1) }
    ensures { PinsBack standing.now netlist.now gate Size.gate_lines tried.old
        stack.old tried.new stack.new }
{
    for i in 1..=sizes::PINS {
        if let Some(line) = pin_line(netlist, gate, i) {
            put_line(standing, tried, stack, line);
        }
    }
}

// The gate that drives a line, if any: the links count gates from 1.
fn driver_of(links: &[sizes::Link; sizes::LINKS], line: usize) -> Option<usize>
    requires { line ≤ Size.lines }
    ensures { SomeIff result (1 ≤ driver_of links.now line) (driver_of links.now line - 1) }
{
    (links[sizes::DRIVERS_AT + line] as usize).checked_sub(1)
}

// The walk from the lines on the stack; whether it came to the end. It ends early where a gate's lines may have no room, or
// where its turns are over.
fn walk_back(
    netlist: &[u32],
    links: &[sizes::Link; sizes::LINKS],
    standing: &[u32; sizes::NUMBERS],
    tried: &mut [u32; sizes::NUMBERS],
    stack: &mut Stack,
) -> bool
    requires { WalkFits netlist.now links.now }
    ensures { Walked netlist.now links.now standing.now tried.old
        stack.old tried.new result }
{
    for _ in 0..sizes::BACK_TURNS {
        if !stack.has_room() {
            return false;
        }
        let Some(line) = stack.pop() else {
            return true;
        };
        if let Some(gate) = driver_of(links, line) {
            put_pins(netlist, standing, tried, stack, gate);
        }
    }
    stack.is_empty()
}

// Puts back what a trial on a line changed; whether it came to the end.
pub fn put_back(
    netlist: &[u32],
    links: &[sizes::Link; sizes::LINKS],
    standing: &[u32; sizes::NUMBERS],
    tried: &mut [u32; sizes::NUMBERS],
    line: usize,
) -> bool
    requires { BackFits netlist.now links.now line }
    ensures { PutBack netlist.now links.now standing.now tried.old
        line tried.new result }
{
    let mut stack = Stack::empty();
    put_line(standing, tried, &mut stack, line);
    walk_back(netlist, links, standing, tried, &mut stack)
}
