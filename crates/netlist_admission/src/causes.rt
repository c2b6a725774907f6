// Why a statement is refused by its own numbers: the bounds of a range, the lines, the cell and the pins of a gate.
// netlist_table/specs/Netlist.antt says what each is.
//
// For this crate: `bounds_bad` and `gate_cause`.
ghost use Rattle.std.specs.Prelude.{◌≡◌, List};
ghost use Rattle.reading.specs.Cause.{refusal_number};
ghost use Rattle.library_table.specs.Cells.{Cell};
ghost use Rattle.library_table.specs.Layout.{CellsTold};
ghost use Rattle.netlist_table.specs.Netlist.{Gate, price_bad, bounds_bad};
ghost use Rattle.netlist_table.specs.Admission.{IsGate, gate_cause};

use library_table::cells::{count, pins_of};
use netlist_table::{RawStatement, line_bad};
use reading::Cause;

// Whether a bound is outside 1 to 999.
#[tactic(auto, unfolding(netlist_table::specs::Netlist::price_bad))]
fn price_bad(x: u32) -> bool
    ensures { result ≡ price_bad x }
{
    x < 1 || sizes::MOST_PRICE < x
}

// Whether a range has bad bounds.
#[tactic(auto, unfolding(netlist_table::specs::Netlist::bounds_bad))]
pub fn bounds_bad(low: u32, high: u32) -> bool
    ensures { result ≡ bounds_bad low high }
{
    price_bad(low) || price_bad(high) || high < low
}

// Why a gate is refused by its own numbers: 11 to 13. The count of pins of an unknown cell does not matter.
pub fn gate_cause(library: &[u32], s: RawStatement) -> Result<(), Cause>
    ensures { (cells : List Cell) (g : Gate) → CellsTold library.now cells → IsGate g s
        → refusal_number result ≡ gate_cause cells g }
{
    if line_bad(s.line) || s.bad {
        return Err(Cause::LineBad);
    }
    if count(library) <= s.cell {
        return Err(Cause::CellUnknown);
    }
    if pins_of(library, s.cell) as usize != s.count {
        return Err(Cause::PinsDiffer);
    }
    Ok(())
}
