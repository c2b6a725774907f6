// The end of a call that analyses: from where reading left it, its refusal, or the numbers and the report.
// specs/Finished.antt says what it does.
//
// For the crates above, once the library and the netlist are read: `finish`, which `analysis_call` and `analysis_records` call,
// and `tell`, the same for a caller whose tables nobody sees afterwards.
ghost use Rattle.std.specs.Prelude.{List};
ghost use Rattle.reading.specs.Answer.{answer_read};
ghost use Rattle.library_table.specs.Cells.{Cell};
ghost use Rattle.netlist_table.specs.Netlist.{Statement};
ghost use Rattle.calculation.specs.Stored.{Holds, Ready};
ghost use Rattle.writer.specs.Put.{Put};
ghost use Rattle.demands.specs.Answer.{lent_of};
ghost use Rattle.demands.specs.Outcome.{second};
ghost use Rattle.analysis_call.specs.Finished.{Concluded, Holding, ReadyIfUnrefused, Told, Finished};

use analysis_texts::Stop;
use analysis_texts::entry::{clear_all, stopped_all};
use demands::Summary;
use reading::{Cause, Refusal};
use sweep_start::{HIGH, LOW};

// The second report of a netlist with ranges, at HIGH, behind the first; nothing where there is no range.
// Its numbers are its own: the lent table keeps those at LOW.
fn put_second(library: &[u32], netlist: &[u32], report: &mut [u8], at: usize) -> usize
    requires { Holding library.now netlist.now }
    ensures { (cells : List Cell) (ss : List Statement)
        → Holds library.now netlist.now cells ss
        → Put at (second cells ss) report.old report.new result }
{
    if !netlist_table::some_range(netlist) {
        return at;
    }
    let mut numbers = [0u32; sizes::NUMBERS];
    let counts = sweep_runs::calculate(library, netlist, &mut numbers, HIGH);
    let next = report_text::put_high(report, at);
    report_text::put_report(report, next, netlist, &numbers, counts)
}

// Calculates and reports, from tables that hold an accepted library and netlist.
fn conclude(
    library: &[u32],
    netlist: &[u32],
    numbers: &mut [u32],
    report: &mut [u8],
) -> Result<Summary, Refusal>
    requires { Ready library.now netlist.now numbers.old }
    ensures { (cells : List Cell) (ss : List Statement)
        → Holds library.now netlist.now cells ss
        → Concluded cells ss numbers.old report.old
        numbers.new report.new (answer_read result) }
{
    let counts = sweep_runs::calculate(library, netlist, numbers, LOW);
    let low = report_text::put_report(report, 0, netlist, numbers, counts);
    let end = put_second(library, netlist, report, low);
    let length = writer::close(report, end, Cause::ReportLong.number())?;
    Ok(Summary { length, counts })
}

// The end of a call whose tables are its own: its refusal, or the numbers and the report. After a refusal nobody sees the
// tables, and the report alone is cleared.
pub fn tell(
    library: &[u32],
    netlist: &[u32],
    numbers: &mut [u32],
    report: &mut [u8],
    progress: Result<(), Stop>,
) -> Result<Summary, Refusal>
    requires { ReadyIfUnrefused progress library.now netlist.now numbers.old }
    ensures { Told progress library.now netlist.now numbers.old report.old
        numbers.new report.new (answer_read result) }
{
    // The one call that clears its report alone: the others ask `stopped` or `stopped_all` of `analysis_texts::entry`.
    match progress {
        Err(Stop::AtEntry(r)) => Err(r),
        Err(Stop::Later(r)) => {
            table::clear_bytes(report);
            Err(r)
        }
        Ok(()) => conclude(library, netlist, numbers, report),
    }
}

// The end of a call: its refusal, or the numbers and the report.
pub fn finish(
    library: &mut [u32],
    netlist: &mut [u32],
    numbers: &mut [u32],
    report: &mut [u8],
    progress: Result<(), Stop>,
) -> Result<Summary, Refusal>
    requires { ReadyIfUnrefused progress library.old netlist.old numbers.old }
    ensures { Finished progress
        (lent_of library.old netlist.old numbers.old report.old)
        (lent_of library.new netlist.new numbers.new report.new)
        (answer_read result) }
{
    match progress {
        Err(stop) => Err(stopped_all(stop, library, netlist, numbers, report)),
        Ok(()) => {
            let answer = conclude(library, netlist, numbers, report);
            if answer.is_err() {
                clear_all(library, netlist, numbers, report);
            }
            answer
        }
    }
}
