// Whether a netlist table holds a netlist without loops or open lines, and whether each of its lines is read
// by at most one pin: what document 02, K8 asks of a netlist besides its cells. proofs/Laws.antt has what
// the answers say of the statements that were read.
//
// Open to others: `without_loops`, `read_once`. What the table says of gates and lines is read by crate `netlist_table`.
#![tactic(auto)]

ghost use Rattle.std.specs.Prelude.{true, [], ◌∷◌, ◌≡◌, ◌≤◌, ◌<◌, is_none, set};
ghost use Rattle.sizes.specs.Sizes as Size;
ghost use Rattle.reading.specs.Choice.{pick};
ghost use Rattle.netlist_table.specs.Gates.{present, pin_lines, gate_at, gates_held};
ghost use Rattle.netlist_table.specs.Lines.{input_at, inputs_held, mentions_held};
ghost use Rattle.chip_loops.specs.Marks.{marked, all_marked, mark_each, ready, level, passes, most_passes};
ghost use Rattle.chip_loops.specs.Marks.{without_loops, read_once, Ahead, Passed, Noted};

use netlist_table::gates::{count, line_of};
use netlist_table::lines::{driver_of, mentioned};
use table::{at_or, put_at};

// A mark for each line.
#[tactic(auto, unfolding(crate::specs::Marks::marked))]
fn is_marked(marks: &[bool], line: usize) -> bool
    ensures { result ≡ marked marks.now line }
{
    at_or(marks, line, false)
}

fn mark(marks: &mut [bool], line: usize)
    ensures { marks.new ≡ set marks.old line true }
{
    put_at(marks, line, true);
}

// ---- loops and open lines

fn mark_input(netlist: &[u32], l: usize, marks: &mut [bool])
    requires { l ≤ Size.lines }
    ensures { marks.new ≡ pick (input_at netlist.now l) (set marks.old l true)
        marks.old }
{
    if driver_of(netlist, l as u32) == 1 {
        mark(marks, l);
    }
}

fn mark_inputs(netlist: &[u32], marks: &mut [bool])
    ensures { marks.new ≡ mark_each marks.old (inputs_held netlist.now) }
{
    for l in 1..sizes::LINE_PLACES {
        mark_input(netlist, l, marks);
    }
}

// The line of a gate's first pin that is not levelled.
fn unlevelled_pin(netlist: &[u32], gate: usize, marks: &[bool]) -> Option<usize>
    requires { gate < Size.gates }
    ensures { is_none result ≡ all_marked marks.now (pin_lines netlist.now gate) }
{
    (1..sizes::GATE_LINES)
        .map(|pin| line_of(netlist, gate, pin))
        .find(|line| *line != 0 && !is_marked(marks, *line))
}

// Levels the line of a gate whose pins are levelled, and says whether it was not levelled before.
fn level_gate(netlist: &[u32], gate: usize, marks: &mut [bool]) -> bool
    requires { gate < Size.gates }
    ensures { (result ≡ ready marks.old (gate_at netlist.now gate))
        × (marks.new ≡ level marks.old (gate_at netlist.now gate)) }
{
    let line = line_of(netlist, gate, 0);
    if is_marked(marks, line) {
        return false;
    }
    if unlevelled_pin(netlist, gate, marks).is_some() {
        return false;
    }
    mark(marks, line);
    true
}

// ---- gates that wait

// So that the order of the gates costs nothing, a gate that is not ready waits for the line of one of its pins. No proof rests
// on what waits: it says which gate to look at next, `level_gate` alone levels a line, and the passes behind it level what is
// left out.

// A gate, or none, in four bytes, since two lists have one for each line (D200): gates count from 1, and 0 is none.
#[derive(Clone, Copy)]
struct Waiting {
    number: u32,
}

impl Waiting {
    const NONE: Waiting = Waiting { number: 0 };

    fn of(gate: usize) -> Waiting {
        if gate < sizes::GATES {
            Waiting {
                number: (gate + 1) as u32,
            }
        } else {
            Waiting::NONE
        }
    }

    fn gate(self) -> Option<usize> {
        (self.number as usize).checked_sub(1)
    }
}

#[derive(Drop)]
struct Waits {
    // For each line the last gate that waits for it.
    last: [Waiting; sizes::LINE_PLACES],
    // For each gate the one behind it: that waits for the same line, or, where its line is levelled, whose line comes next.
    behind: [Waiting; sizes::GATES],
}

impl Waits {
    fn behind(&self, gate: usize) -> Waiting {
        if gate < sizes::GATES {
            self.behind[gate]
        } else {
            Waiting::NONE
        }
    }

    fn put_behind(&mut self, gate: usize, next: Waiting) {
        if gate < sizes::GATES {
            self.behind[gate] = next;
        }
    }

    // Has a gate wait for a line.
    fn wait(&mut self, gate: usize, line: usize) {
        if line < sizes::LINE_PLACES {
            let next = self.last[line];
            self.put_behind(gate, next);
            self.last[line] = Waiting::of(gate);
        }
    }

    // The last gate that waits for a line, which then waits no longer.
    fn wake(&mut self, line: usize) -> Option<usize> {
        if sizes::LINE_PLACES <= line {
            return None;
        }
        let gate = self.last[line].gate()?;
        self.last[line] = self.behind(gate);
        Some(gate)
    }
}

// Levels the line of a gate, or has the gate wait for a line.
fn level_or_wait(netlist: &[u32], gate: usize, marks: &mut [bool], waits: &mut Waits) -> bool
    ensures { Ahead (gates_held netlist.now) marks.old marks.new }
{
    if count(netlist) <= gate {
        return false;
    }
    if level_gate(netlist, gate, marks) {
        return true;
    }
    if let Some(line) = unlevelled_pin(netlist, gate, marks) {
        waits.wait(gate, line);
    }
    false
}

// Looks at a gate that waits for the line of gate `top`, which was levelled. Answers whose line is next: that gate's where it
// is levelled, and where none waits that of the gate behind `top`.
fn wake_one(netlist: &[u32], top: usize, marks: &mut [bool], waits: &mut Waits) -> Option<usize>
    ensures { Ahead (gates_held netlist.now) marks.old marks.new }
{
    if sizes::GATES <= top {
        return None;
    }
    let Some(next) = waits.wake(line_of(netlist, top, 0)) else {
        return waits.behind(top).gate();
    };
    if !level_or_wait(netlist, next, marks, waits) {
        return Some(top);
    }
    waits.put_behind(next, Waiting::of(top));
    Some(next)
}

// Looks at a gate, and where it is levelled at those that wait for its line, and so on. A gate waits once for a pin at most, so
// that in an accepted netlist none is left when the count ends.
fn level_from(netlist: &[u32], gate: usize, marks: &mut [bool], waits: &mut Waits)
    ensures { Ahead (gates_held netlist.now) marks.old marks.new }
{
    if !level_or_wait(netlist, gate, marks, waits) {
        return;
    }
    let mut top = gate;
    for _ in 0..sizes::PIN_PLACES + sizes::GATES {
        let Some(next) = wake_one(netlist, top, marks, waits) else {
            return;
        };
        top = next;
    }
}

// One pass over the gates, in which each that is levelled wakes those that wait for it.
fn level_ahead(netlist: &[u32], marks: &mut [bool])
    ensures { Ahead (gates_held netlist.now) marks.old marks.new }
{
    let mut waits = Waits {
        last: [Waiting::NONE; sizes::LINE_PLACES],
        behind: [Waiting::NONE; sizes::GATES],
    };
    for gate in 0..count(netlist) {
        level_from(netlist, gate, marks, &mut waits);
    }
}

// ---- passes

// Says whether some line is levelled that was not.
fn pass_over(netlist: &[u32], marks: &mut [bool]) -> bool
    ensures { Passed (gates_held netlist.now) marks.old marks.new result }
{
    let mut changed = false;
    for gate in 0..count(netlist) {
        changed |= level_gate(netlist, gate, marks);
    }
    changed
}

// Passes until one levels nothing: each before it levels a line.
fn level_lines(netlist: &[u32], marks: &mut [bool])
    ensures { marks.new ≡ passes most_passes (gates_held netlist.now)
        marks.old }
{
    for _ in 0..sizes::LINE_PLACES + 1 {
        if !pass_over(netlist, marks) {
            return;
        }
    }
}

fn mentions_marked(netlist: &[u32], marks: &[bool]) -> bool
    ensures { result ≡ all_marked marks.now (mentions_held netlist.now) }
{
    (1..sizes::LINE_PLACES).all(|l| !mentioned(netlist, l as u32) || is_marked(marks, l))
}

// Whether the netlist has neither loops nor open lines.
pub fn without_loops(netlist: &[u32]) -> bool
    ensures { result ≡ without_loops netlist.now }
{
    let mut marks = [false; sizes::LINE_PLACES];
    mark_inputs(netlist, &mut marks);
    level_ahead(netlist, &mut marks);
    level_lines(netlist, &mut marks);
    mentions_marked(netlist, &marks)
}

// ---- lines read twice

// Marks a line, unless it has a mark. 0 is no line.
fn note_line(marks: &mut [bool], line: usize) -> bool
    ensures { Noted (present (line ∷ [])) marks.old marks.new result }
{
    if line == 0 {
        return true;
    }
    if is_marked(marks, line) {
        return false;
    }
    mark(marks, line);
    true
}

// Marks the lines that a gate's pins read, until one has a mark.
fn note_pins(netlist: &[u32], gate: usize, marks: &mut [bool]) -> bool
    requires { gate < Size.gates }
    ensures { Noted (pin_lines netlist.now gate) marks.old marks.new result }
{
    // Not `all`: `note_line` marks as it goes, and what a closure changes is not told.
    for pin in 1..=sizes::PINS {
        if !note_line(marks, line_of(netlist, gate, pin)) {
            return false;
        }
    }
    true
}

// Whether each line is read by at most one pin.
pub fn read_once(netlist: &[u32]) -> bool
    ensures { result ≡ read_once netlist.now }
{
    let mut marks = [false; sizes::LINE_PLACES];
    // Not `all`: see `note_pins`.
    for gate in 0..count(netlist) {
        if !note_pins(netlist, gate, &mut marks) {
            return false;
        }
    }
    true
}
