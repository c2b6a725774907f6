// Statements admitted into the netlist table: refusals 10 to 15 and 20 to 22. One statement over plain numbers is checked and
// stored by its kind (module `kinds`); what a line of text says is read by `netlist_text`, what a record says by
// `analysis_records::record`.
//
// For the crates above: `mark`, the `RawStatement` of a mark; `admit`, which checks one and stores it; and behind all statements
// `undeclared` and `some_undeclared`, which ask the table. netlist_table/specs/Admission.antt says what they come to.
//
// Module `causes`: why a statement is refused by its own numbers.
#![tactic(auto)]

mod causes;
mod kinds;

ghost use Rattle.std.specs.Prelude.{◌≡◌, List, ◌≤◌, ◌<◌, length};
ghost use Rattle.std.proofs.Math.Option.{Option};
ghost use Rattle.sizes.specs.Places.{mention_place};
ghost use Rattle.sizes.specs.Sizes as Size;
ghost use Rattle.reading.specs.Cause.{refusal_number};
ghost use Rattle.library_table.specs.Cells.{Cell};
ghost use Rattle.library_table.specs.Layout.{CellsTold};
ghost use Rattle.netlist_table.specs.Netlist.{Statement};
ghost use Rattle.netlist_table.specs.Admission.{StandsFor, Admits, words_undeclared, some_undeclared};

use crate::kinds::{admit_gate, admit_mark, admit_range};
use netlist_table::lines::{driver_of, highest, mentioned, unchecked};
use netlist_table::{GATE, INPUT, OPEN, OUTPUT, RANGE, RawStatement};
use reading::Cause;

// ---- one statement

// A mark of a line, by its kind: it has no cell and no pins.
pub fn mark(kind: u32, line: u32) -> RawStatement
    ensures { (result.kind ≡ kind) × (result.line ≡ line) }
{
    RawStatement {
        kind,
        cell: 0,
        line,
        pins: [0; sizes::PINS],
        count: 0,
        bad: false,
    }
}

// Checks one statement after those that the table holds, and admits it, or answers the lowest cause that
// refuses it, 10 to 15, 21 or 22, with the table as it was. A kind that is not known is bad form, 10.
pub fn admit(table: &mut [u32], library: &[u32], s: Option<RawStatement>) -> Result<(), Cause>
    ensures { (cells : List Cell) (w : Option Statement) → CellsTold library.now cells
        → StandsFor s w → Admits cells w table.old (refusal_number result) table.new }
{
    let Some(s) = s else {
        return Err(Cause::NetlistForm);
    };
    let l = s.line;
    match s.kind {
        INPUT => admit_mark(table, l as usize, 1, Cause::DrivenBefore, l),
        OUTPUT => admit_mark(
            table,
            sizes::OUTPUTS_AT + l as usize,
            1,
            Cause::MarkedBefore,
            l,
        ),
        OPEN => admit_mark(table, l as usize, 3, Cause::DrivenBefore, l),
        GATE => admit_gate(table, library, s),
        RANGE => admit_range(table, l, s.pins[1], s.pins[2]),
        _ => Err(Cause::NetlistForm),
    }
}

// ---- the lines that are not declared

// Whether a line is mentioned, and neither driven nor open.
pub fn undeclared(table: &[u32], l: usize) -> bool
    requires { l ≤ Size.lines }
    ensures { result ≡ words_undeclared table.now l }
{
    let line = l as u32;
    mentioned(table, line) && driver_of(table, line) == 0
}

// The same of a line that stands in the table.
fn stands_undeclared(table: &[u32], l: usize) -> bool
    requires { mention_place l < length table.now }
    ensures { result ≡ words_undeclared table.now l }
{
    (unchecked::mention_of(table, l) != 0) & (unchecked::driver_of(table, l) == 0)
}

// Whether some line is. No line past the highest that is mentioned is asked for, and no turn of the loop leaves it, so that the
// compiler takes several lines at once.
pub fn some_undeclared(table: &[u32]) -> bool
    ensures { result ≡ some_undeclared table.now }
{
    let mut found = false;
    for l in 1..=highest(table) {
        found |= stands_undeclared(table, l);
    }
    found
}
