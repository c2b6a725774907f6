// The end of a call that writes out the cheapest way to set a line: document 02, K3.
//
// For the crates above: `calculate_plan`, from tables that hold an accepted library and netlist to their numbers and the
// plan, or 18 or 19. specs/Concluded.antt says what it answers and leaves.
ghost use Rattle.std.specs.Prelude.{List, ◌≡◌};
ghost use Rattle.reading.specs.Answer.{answer_read};
ghost use Rattle.cost.specs.Kind.{kind_index};
ghost use Rattle.library_table.specs.Cells.{Cell};
ghost use Rattle.netlist_table.specs.Netlist.{Statement};
ghost use Rattle.calculation.specs.Stored.{Holds, Ready, HoldsAnalysis, SomeAnalysis};
ghost use Rattle.plan_calls.specs.Concluded.{known, asked_number, PlanConcluded, PlanMade};

use cost::{Kind, MOST, NEVER};
use plan_text::put_cheapest;
use reading::{Cause, Refusal};
use sweep_start::LOW;
use table::word;

// "A line outside 1 to 1,000, or an unknown value or kind, counts as never."
fn is_known(line: usize, value: usize, kind: Kind) -> bool
    ensures { result ≡ known line value (kind_index kind) }
{
    if line < 1 || sizes::LINES < line {
        return false;
    }
    value <= 1
}

// The number of a line, a value and a kind; never where there is none.
fn asked_number(numbers: &[u32], line: usize, value: usize, kind: Kind) -> u32
    ensures { result ≡ asked_number numbers.now line value (kind_index kind) }
{
    if is_known(line, value, kind) {
        word(
            numbers,
            (line - 1) * sizes::COSTS + kind.index() * sizes::VALUES + value,
        )
    } else {
        NEVER
    }
}

// The end of the call, from tables that hold an accepted library and netlist with the numbers of their analysis. The line, the
// value and the kind are three, as the open calls and `put_cheapest` have them (what may not change). The kind is any number up
// to here: one that is unknown is refused behind all else, by 18.
fn conclude_plan(
    library: &[u32],
    netlist: &[u32],
    numbers: &[u32],
    text: &mut [u8],
    line: usize,
    value: usize,
    kind: usize,
) -> Result<usize, Refusal>
    requires { SomeAnalysis library.now netlist.now numbers.now }
    ensures { (cells : List Cell) (ss : List Statement)
        → HoldsAnalysis library.now netlist.now numbers.now cells ss
        → PlanConcluded cells ss line value kind text.old text.new (answer_read result) }
{
    let Ok(kind) = Kind::try_from(kind) else {
        return writer::refuse(text, Cause::NoFigure.at(0));
    };
    let number = asked_number(numbers, line, value, kind);
    if MOST < number {
        return writer::refuse(text, Cause::NoFigure.at(0));
    }
    let end = put_cheapest(library, netlist, text, line, value, kind);
    writer::close(text, end, Cause::PlanLong.number())
}

// The numbers of an accepted library and netlist, and the plan.
pub fn calculate_plan(
    library: &[u32],
    netlist: &[u32],
    numbers: &mut [u32],
    text: &mut [u8],
    line: usize,
    value: usize,
    kind: usize,
) -> Result<usize, Refusal>
    requires { Ready library.now netlist.now numbers.old }
    ensures { (cells : List Cell) (ss : List Statement)
        → Holds library.now netlist.now cells ss
        → PlanMade cells ss line value kind numbers.old text.old
        numbers.new text.new (answer_read result) }
{
    let _counts = sweep_runs::calculate(library, netlist, numbers, LOW);
    conclude_plan(library, netlist, numbers, text, line, value, kind)
}
