// The cheapest way to set a line, written out from two texts: document 02, K3.
//
// Open to others: `write_plan`, over two texts, three tables and a text buffer that the caller lends, with a line, a
// value and a kind; `put_plan`, what the program prints. They have no condition on their input;
// specs/Promise.antt and specs/Printed.antt say what they promise. For the crates above: `write_plan_into`.
//
// Module `end`: the numbers and the plan of what was read.
#![tactic(auto)]

pub mod end;

ghost use Rattle.sizes.specs.Sizes as Size;
ghost use Rattle.reading.specs.Answer.{answer_read};
ghost use Rattle.demands.specs.Answer.{lent_of};
ghost use Rattle.demands.specs.Outcome.{given_texts};
ghost use Rattle.analysis_texts.specs.Tables.{ZeroIfOwn};
ghost use Rattle.plan_calls.specs.Printed.{PlanPrinted};
ghost use Rattle.plan_calls.specs.Promise.{PlanPromised};

use crate::end::calculate_plan;
use analysis_texts::entry::stopped_all;
use analysis_texts::{Tables, read_texts};
use netlist_table::Rules;
use reading::Refusal;

// As `write_plan`, where the library and the netlist table may be the caller's own.
pub fn write_plan_into(
    lib: &[u8],
    net: &[u8],
    library: &mut [u32],
    netlist: &mut [u32],
    numbers: &mut [u32],
    text: &mut [u8],
    line: usize,
    value: usize,
    kind: usize,
    tables: Tables,
) -> Result<usize, Refusal>
    requires { ZeroIfOwn tables Size.library library.old × ZeroIfOwn tables Size.netlist netlist.old }
    ensures { PlanPromised (given_texts lib.now net.now)
        (lent_of library.old netlist.old numbers.old text.old)
        (lent_of library.new netlist.new numbers.new text.new)
        line value kind (answer_read result) }
{
    let progress = read_texts(
        Rules::New,
        lib,
        net,
        library,
        netlist,
        numbers.len(),
        tables,
    );
    match progress {
        Err(stop) => Err(stopped_all(stop, library, netlist, numbers, text)),
        Ok(()) => calculate_plan(library, netlist, numbers, text, line, value, kind),
    }
}

// Writes the cheapest way to set a line to a value, of one kind of cost, at the start of the text buffer.
pub fn write_plan(
    lib: &[u8],
    net: &[u8],
    library: &mut [u32],
    netlist: &mut [u32],
    numbers: &mut [u32],
    text: &mut [u8],
    line: usize,
    value: usize,
    kind: usize,
) -> Result<usize, Refusal>
    ensures { PlanPromised (given_texts lib.now net.now)
        (lent_of library.old netlist.old numbers.old text.old)
        (lent_of library.new netlist.new numbers.new text.new)
        line value kind (answer_read result) }
{
    write_plan_into(
        lib,
        net,
        library,
        netlist,
        numbers,
        text,
        line,
        value,
        kind,
        Tables::Lent,
    )
}

// What the program prints: the text, or the refusal, in the front of the buffer lent. Its tables are its own, and zero.
pub fn put_plan(
    lib: &[u8],
    net: &[u8],
    line: usize,
    value: usize,
    kind: usize,
    text: &mut [u8; sizes::REPORT_BYTES],
) -> usize
    ensures { PlanPrinted lib.now net.now line value kind
        text.old text.new result }
{
    let mut library = [0u32; sizes::LIBRARY];
    let mut netlist = [0u32; sizes::NETLIST];
    let mut numbers = [0u32; sizes::NUMBERS];
    let written = write_plan_into(
        lib,
        net,
        &mut library,
        &mut netlist,
        &mut numbers,
        text,
        line,
        value,
        kind,
        Tables::Own,
    );
    writer::show(text, written)
}
