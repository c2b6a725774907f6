// The two kinds of refusal of a call: at entry, before anything that was lent is touched, and later, where all of it becomes
// zero.
//
// For the crates above: `entry`, the checks at entry; `clear_all`, which a later refusal asks for; `stopped` and `stopped_all`,
// by which a call that is stopped tells its refusal and leaves what it was lent. All hold for every input.
ghost use Rattle.std.specs.Prelude.{◌≡◌, length, replicate};
ghost use Rattle.reading.specs.Answer.{answer_read};
ghost use Rattle.demands.specs.Answer.{lent_of};
ghost use Rattle.demands.specs.Outcome.{entry_by, zeroed};
ghost use Rattle.analysis_texts.specs.Progress.{refusal_of, left_at};

use crate::Stop;
use reading::{Cause, Refusal};
use table::clear;

// The entry's two checks, by lengths.
pub fn entry(
    lib: usize,
    net: usize,
    library: usize,
    netlist: usize,
    numbers: usize,
) -> Result<(), Refusal>
    ensures { answer_read result ≡ entry_by lib net library netlist numbers }
{
    if library < sizes::LIBRARY || netlist < sizes::NETLIST || numbers < sizes::NUMBERS {
        return Err(Cause::TableShort.at(0));
    }
    if sizes::TEXT_BYTES < lib || sizes::TEXT_BYTES < net {
        return Err(Cause::TextLong.at(0));
    }
    Ok(())
}

// Sets all that was lent to zero.
pub fn clear_all(library: &mut [u32], netlist: &mut [u32], numbers: &mut [u32], report: &mut [u8])
    ensures { lent_of library.new netlist.new numbers.new report.new
        ≡ zeroed (lent_of library.old netlist.old numbers.old report.old) }
{
    clear(library, library.len());
    clear(netlist, netlist.len());
    clear(numbers, numbers.len());
    table::clear_bytes(report);
}

// The refusal of a call that is lent one answer, which a stop behind the entry leaves zero.
pub fn stopped(stop: Stop, answer: &mut [u32]) -> Refusal
    ensures { (result ≡ refusal_of stop)
        × (answer.new ≡ left_at stop answer.old (replicate (length answer.old) 0)) }
{
    if let Stop::Later(_) = stop {
        clear(answer, answer.len());
    }
    Refusal::from(stop)
}

// The same of a call that is lent its tables and a report.
pub fn stopped_all(
    stop: Stop,
    library: &mut [u32],
    netlist: &mut [u32],
    numbers: &mut [u32],
    report: &mut [u8],
) -> Refusal
    ensures { (result ≡ refusal_of stop)
        × (lent_of library.new netlist.new numbers.new report.new
        ≡ left_at stop (lent_of library.old netlist.old numbers.old report.old)
        (zeroed (lent_of library.old netlist.old numbers.old report.old))) }
{
    if let Stop::Later(_) = stop {
        clear_all(library, netlist, numbers, report);
    }
    Refusal::from(stop)
}
