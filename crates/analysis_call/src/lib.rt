// The analysis of a cell library and a netlist, both as texts: Goldstein's six numbers for every line.
//
// Open to others: `analyse`, over two texts, three tables and a report buffer that the caller lends.
// It has no condition on its input. What it promises is in crate `demands`: specs/Outcome.antt has its
// answer and what it leaves in lent memory, specs/Demands.antt the three demands. The published sizes
// of the tables are `sizes::LIBRARY`, `sizes::NETLIST` and `sizes::NUMBERS`. For the crates above:
// `analyse_into`, which does not clear tables of the caller's own first, and `report_into`, which speaks of the report alone
// (specs/Own.antt).
//
// Modules: `end`, the numbers and the report of what was read; `printed`, what a program prints of its texts.
#![tactic(auto)]

pub mod end;
pub mod printed;

ghost use Rattle.sizes.specs.Sizes as Size;
ghost use Rattle.reading.specs.Answer.{answer_read};
ghost use Rattle.demands.specs.Answer.{lent_of};
ghost use Rattle.demands.specs.Demands.{Promised};
ghost use Rattle.demands.specs.Outcome.{given_texts};
ghost use Rattle.analysis_texts.specs.Tables.{ZeroIfOwn, Zero};
ghost use Rattle.analysis_call.specs.Own.{ReportPromised};

use crate::end::{finish, tell};
use analysis_texts::{Tables, read_texts};
use demands::Summary;
use netlist_table::Rules;
use reading::Refusal;

// As `analyse`, where the library and the netlist table may be the caller's own.
pub fn analyse_into(
    lib: &[u8],
    net: &[u8],
    library: &mut [u32],
    netlist: &mut [u32],
    numbers: &mut [u32],
    report: &mut [u8],
    tables: Tables,
) -> Result<Summary, Refusal>
    requires { ZeroIfOwn tables Size.library library.old × ZeroIfOwn tables Size.netlist netlist.old }
    ensures { Promised (given_texts lib.now net.now)
        (lent_of library.old netlist.old numbers.old report.old)
        (lent_of library.new netlist.new numbers.new report.new)
        (answer_read result) }
{
    let progress = read_texts(
        Rules::New,
        lib,
        net,
        library,
        netlist,
        numbers.len(),
        tables,
    );
    finish(library, netlist, numbers, report, progress)
}

// As `analyse_into` for a caller whose tables are its own, and who needs the report alone: nobody sees the tables afterwards,
// so that a refusal does not clear them.
pub fn report_into(
    lib: &[u8],
    net: &[u8],
    library: &mut [u32],
    netlist: &mut [u32],
    found: &mut [u32],
    report: &mut [u8],
) -> Result<Summary, Refusal>
    requires { Zero library.old netlist.old }
    ensures { ReportPromised (given_texts lib.now net.now)
        (lent_of library.old netlist.old found.old report.old)
        report.new (answer_read result) }
{
    let progress = read_texts(
        Rules::New,
        lib,
        net,
        library,
        netlist,
        found.len(),
        Tables::Own,
    );
    tell(library, netlist, found, report, progress)
}

// Analyses a library and a netlist. Entry refusals leave all that was lent untouched, later ones
// leave it zero.
pub fn analyse(
    lib: &[u8],
    net: &[u8],
    library: &mut [u32],
    netlist: &mut [u32],
    numbers: &mut [u32],
    report: &mut [u8],
) -> Result<Summary, Refusal>
    ensures { Promised (given_texts lib.now net.now)
        (lent_of library.old netlist.old numbers.old report.old)
        (lent_of library.new netlist.new numbers.new report.new)
        (answer_read result) }
{
    analyse_into(lib, net, library, netlist, numbers, report, Tables::Lent)
}
