// The netlist as a list of records, each checked and stored by `record::step`, and analysed.
//
// Open to others: the type `Record` of module `record`, and `analyse_records`, which has the answer and the promises
// of `analysis_call::analyse` over a list of records. It has no condition on its input.
#![tactic(auto)]

pub mod record;

ghost use Rattle.std.specs.Prelude.{◌≡◌, length};
ghost use Rattle.reading.specs.Answer.{answer_read};
ghost use Rattle.demands.specs.Answer.{lent_of};
ghost use Rattle.demands.specs.Outcome.{entry_by};
ghost use Rattle.analysis_texts.specs.Progress.{Reached};
ghost use Rattle.analysis_records.specs.Outcome.{given_records, RecordsPromised};
ghost use Rattle.analysis_records.specs.Walk.{declared_by, Walked};

pub use crate::record::Record;
use crate::record::step;
use analysis_call::end::finish;
use analysis_texts::{Stop, Tables, begin};
use demands::Summary;
use netlist_admission::some_undeclared;
use reading::{Cause, Refusal};
use table::clear;

// Walks the records in order, up to the first that is refused.
fn walk(table: &mut [u32], library: &[u32], records: &[Record]) -> Result<(), Refusal>
    ensures { Walked library.now table.old records.now result table.new }
{
    for (i, rec) in records.iter().enumerate() {
        step(table, library, i + 1, Ok(()), *rec)?;
    }
    Ok(())
}

// Behind the last record: 20 where a line is read or marked that is neither driven nor open.
fn declare(netlist: &[u32]) -> Result<(), Refusal>
    ensures { result ≡ declared_by netlist.now }
{
    if some_undeclared(netlist) {
        Err(Cause::Undeclared.at(0))
    } else {
        Ok(())
    }
}

// The entry, the library and the records, each into its table; the netlist table is cleared for the walk.
fn read_records(
    lib: &[u8],
    records: &[Record],
    library: &mut [u32],
    netlist: &mut [u32],
    numbers: usize,
) -> Result<(), Stop>
    ensures { Reached (given_records lib.now records.now)
        (entry_by (length lib.now) 0 (length library.old) (length netlist.old) numbers)
        library.old netlist.old library.new netlist.new result }
{
    begin(lib, 0, library, netlist.len(), numbers, Tables::Lent)?;
    clear(netlist, sizes::NETLIST);
    walk(netlist, library, records)?;
    declare(netlist)?;
    Ok(())
}

// Analyses a library text and a netlist of records. Entry refusals leave all that was lent untouched,
// later ones leave it zero.
pub fn analyse_records(
    lib: &[u8],
    records: &[Record],
    library: &mut [u32],
    netlist: &mut [u32],
    numbers: &mut [u32],
    report: &mut [u8],
) -> Result<Summary, Refusal>
    ensures { RecordsPromised lib.now records.now
        (lent_of library.old netlist.old numbers.old report.old)
        (lent_of library.new netlist.new numbers.new report.new)
        (answer_read result) }
{
    let progress = read_records(lib, records, library, netlist, numbers.len());
    finish(library, netlist, numbers, report, progress)
}
