// A statement of each kind, checked against those that the netlist table holds, and stored: a mark, a range, a gate. Module
// `stores`: what each stores.
//
// For this crate: `admit_mark`, `admit_range` and `admit_gate`; each answers the lowest cause that refuses the statement.
mod stores;

ghost use Rattle.std.specs.Prelude.{◌≡◌, List};
ghost use Rattle.std.proofs.Math.Option.{some};
ghost use Rattle.reading.specs.Cause.{cause_number, refusal_number};
ghost use Rattle.library_table.specs.Cells.{Cell};
ghost use Rattle.library_table.specs.Layout.{CellsTold};
ghost use Rattle.netlist_table.specs.Netlist.{Gate, Mark, mark, gate, priced};
ghost use Rattle.netlist_table.specs.Lines.{input_at};
ghost use Rattle.netlist_table.specs.Admission.{IsGate, Admits, mark_place, mark_number, mark_value};

use crate::causes::{bounds_bad, gate_cause};
use crate::kinds::stores::{mention, store_gate, store_range};
use netlist_table::lines::driver_of;
use netlist_table::{RawStatement, line_bad};
use reading::Cause;
use table::{put, word};

// Checks a mark, of which the table has a value at a place, 0 where nothing stands against it, and of which
// a second is refused for a cause, and admits it.
pub fn admit_mark(
    table: &mut [u32],
    at: usize,
    value: u32,
    second: Cause,
    l: u32,
) -> Result<(), Cause>
    ensures { (cells : List Cell) (m : Mark) → at ≡ mark_place m l → value ≡ mark_value m
        → cause_number second ≡ mark_number m
        → Admits cells (some (mark m l)) table.old (refusal_number result) table.new }
{
    if line_bad(l) {
        return Err(Cause::LineBad);
    }
    if word(table, at) != 0 {
        return Err(second);
    }
    put(table, at, value);
    mention(table, l);
    Ok(())
}

// Whether a line is marked input.
fn is_input(table: &[u32], l: u32) -> bool
    ensures { result ≡ input_at table.now l }
{
    driver_of(table, l) == 1
}

// Checks a range, and admits it: 11, then 21, then 22.
pub fn admit_range(table: &mut [u32], l: u32, low: u32, high: u32) -> Result<(), Cause>
    ensures { (cells : List Cell) → Admits cells (some (priced (record { line = l; low = low; high = high })))
        table.old (refusal_number result) table.new }
{
    if line_bad(l) {
        return Err(Cause::LineBad);
    }
    if !is_input(table, l) {
        return Err(Cause::NotInput);
    }
    let again = word(table, sizes::RANGES_AT + l as usize) != 0;
    if bounds_bad(low, high) || again {
        return Err(Cause::RangeBad);
    }
    store_range(table, l, low, high);
    Ok(())
}

pub fn admit_gate(table: &mut [u32], library: &[u32], s: RawStatement) -> Result<(), Cause>
    ensures { (cells : List Cell) (g : Gate) → CellsTold library.now cells → IsGate g s
        → Admits cells (some (gate g)) table.old (refusal_number result) table.new }
{
    gate_cause(library, s)?;
    if driver_of(table, s.line) != 0 {
        return Err(Cause::DrivenBefore);
    }
    let g = word(table, 0);
    store_gate(table, g, s);
    Ok(())
}
