// The statement that a line of a netlist text says, as a `RawStatement`, which crate `netlist_admission` checks and stores; none
// is bad form.
//
// For this crate: `statement_of`, and `declaring`, by which rules some statements are known.
ghost use Rattle.std.specs.Prelude.{◌≡◌, List};
ghost use Rattle.text.specs.Lines.{fields, fields_from};
ghost use Rattle.library_table.specs.Cells.{Cell};
ghost use Rattle.library_table.specs.Layout.{CellsTold};
ghost use Rattle.netlist_table.specs.Netlist.{Mark, kind_of, declaring, lone, mark_of, gate_of, range_of, statement_of, decimals};
ghost use Rattle.netlist_table.specs.Admission.{StandsFor};
ghost use Rattle.netlist_text.specs.Gathered.{PinsRead};

use library_table::cells::find;
use netlist_admission::mark;
use netlist_table::{RawStatement, Rules, line_bad};
use table::put;
use text::fields::{decimal, is_name};
use text::{after, field, same};

// Whether `open,L` and `range,L,LOW,HIGH` are statements.
pub fn declaring(rules: Rules) -> bool
    ensures { result ≡ declaring rules }
{
    matches!(rules, Rules::New)
}

// The pins of a statement, as `RawStatement` has them.
#[derive(Clone, Copy)]
struct Pins {
    pins: [u32; sizes::PINS],
    count: usize,
    bad: bool,
}

// A mark's line, from the field at a cursor on.
fn mark_from(line: &[u8], at: usize, kind: u32) -> Option<RawStatement>
    ensures { (m : Mark) → kind ≡ kind_of m
        → StandsFor result (mark_of m (lone (fields_from line.now at))) }
{
    if line.len() < at {
        return None;
    }
    let f = field(line, at);
    if after(line, at, f) <= line.len() {
        return None;
    }
    let l = decimal(f)?;
    Some(mark(kind, l))
}

// The pins from the field at a cursor on, up to one of bad form. Past the last that a gate may have nothing is stored.
// They are gathered in place: a struct handed on from pin to pin would be copied for each.
fn pins_from(line: &[u8], from: usize) -> Option<Pins>
    ensures { PinsRead (decimals (fields_from line.now from)) result }
{
    let mut pins = [0; sizes::PINS];
    let mut count = 0;
    let mut bad = false;
    let mut at = from;
    while at <= line.len() {
        let f = field(line, at);
        let l = decimal(f)?;
        put(&mut pins, count, l);
        count += 1;
        bad |= line_bad(l);
        at = after(line, at, f);
    }
    Some(Pins { pins, count, bad })
}

// A gate, from the field of its name on. Its cell is looked for before its numbers are read (D162).
fn gate_from(line: &[u8], at: usize, library: &[u32]) -> Option<RawStatement>
    ensures { (cells : List Cell) → CellsTold library.now cells
        → StandsFor result (gate_of cells (fields_from line.now at)) }
{
    if line.len() < at {
        return None;
    }
    let name = field(line, at);
    if !is_name(name) {
        return None;
    }
    let next = after(line, at, name);
    if line.len() < next {
        return None;
    }
    let cell = find(library, name);
    let f = field(line, next);
    let l = decimal(f)?;
    let Pins { pins, count, bad } = pins_from(line, after(line, next, f))?;
    Some(RawStatement {
        kind: netlist_table::GATE,
        cell,
        line: l,
        pins,
        count,
        bad,
    })
}

// A range, from the field of its line on: three numbers, gathered as pins are.
fn range_from(line: &[u8], at: usize) -> Option<RawStatement>
    ensures { StandsFor result (range_of (decimals (fields_from line.now at))) }
{
    let Pins { pins, count, .. } = pins_from(line, at)?;
    if count != 3 {
        return None;
    }
    Some(RawStatement {
        kind: netlist_table::RANGE,
        cell: 0,
        line: pins[0],
        pins,
        count,
        bad: false,
    })
}

pub fn statement_of(rules: Rules, line: &[u8], library: &[u32]) -> Option<RawStatement>
    ensures { (cells : List Cell) → CellsTold library.now cells
        → StandsFor result (statement_of rules cells (fields line.now)) }
{
    let f = field(line, 0);
    let at = after(line, 0, f);
    if same(f, b"input") {
        return mark_from(line, at, netlist_table::INPUT);
    }
    if same(f, b"output") {
        return mark_from(line, at, netlist_table::OUTPUT);
    }
    if same(f, b"gate") {
        return gate_from(line, at, library);
    }
    if declaring(rules) && same(f, b"open") {
        return mark_from(line, at, netlist_table::OPEN);
    }
    if declaring(rules) && same(f, b"range") {
        return range_from(line, at);
    }
    None
}
