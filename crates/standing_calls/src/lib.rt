// A standing analysis, in one table of numbers that the caller owns: document 02, K11. The texts are lent again at each
// call and read again, into tables of its own: so a call is safe whatever the table holds.
//
// Open to others: `stand`, an analysis that is to stand; `ask`, the CO and SO of all lines as if one more were marked
// output; `commit`, which marks it; both answer a count of pads. They have no condition on their input; specs/Calls.antt says what
// they answer and leave, specs/Promise.antt what that means of a standing analysis. The published sizes are
// `sizes::STANDING` and `sizes::OBSERVED`.
// What they are made of: module `standing_table::texts` reads what is lent, crate `standing_table` runs and stores.
#![tactic(auto)]

ghost use Rattle.std.specs.Prelude.{◌≡◌, ◌+◌, ◌-◌, ◌<◌, length, replicate};
ghost use Rattle.reading.specs.Choice.{pick};
ghost use Rattle.reading.specs.Numbers as No;
ghost use Rattle.reading.specs.Answer.{answer_read};
ghost use Rattle.demands.specs.Outcome.{given_texts};
ghost use Rattle.standing_calls.specs.Promise.{StandPromised, AskPromised, CommitPromised};

use analysis_call::analyse_into;
use analysis_texts::Tables;
use calculation::Counts;
use demands::Summary;
use reading::{Cause, Refusal};
use standing_table::texts::read_pad;
use standing_table::{hand_observed, observe, put_pad, put_standing};
use table::word;

// ---- the calls

// Zeroes a standing table after a refusal that is not at entry. A `Refusal` tells which by its number alone (D226).
fn clear_later(standing: &mut [u32], refusal: Refusal)
    ensures { standing.new
        ≡ pick (No.of_entry refusal.number) standing.old (replicate (length standing.old) 0) }
{
    let number = refusal.number;
    if number == Cause::TableShort.number() || number == Cause::TextLong.number() {
        return;
    }
    table::clear(standing, standing.len());
}

// Analyses a library and a netlist as `analysis_call::analyse` does, on tables of its own, and lays the analysis that stands
// then into the standing table. Entry refusals leave what was lent untouched, later ones leave it zero.
pub fn stand(
    lib: &[u8],
    net: &[u8],
    standing: &mut [u32],
    report: &mut [u8],
) -> Result<Summary, Refusal>
    ensures { StandPromised (given_texts lib.now net.now)
        standing.old report.old standing.new report.new (answer_read result) }
{
    if standing.len() < sizes::STANDING {
        return Err(Cause::TableShort.at(0));
    }
    let mut library = [0u32; sizes::LIBRARY];
    let mut netlist = [0u32; sizes::NETLIST];
    let mut numbers = [0u32; sizes::NUMBERS];
    let answer = analyse_into(
        lib,
        net,
        &mut library,
        &mut netlist,
        &mut numbers,
        report,
        Tables::Own,
    );
    match answer {
        Ok(s) => put_standing(standing, 0, s.counts, &numbers),
        Err(r) => clear_later(standing, r),
    }
    answer
}

// Asks for a pad on a line: the number of pads placed so far, which with the line is the ticket, and in the answer the CO
// and SO of each line as if it were marked output. Nothing is touched on refusal, the standing table never.
pub fn ask(
    lib: &[u8],
    net: &[u8],
    standing: &[u32],
    line: usize,
    answer: &mut [u32],
) -> Result<usize, Refusal>
    ensures { AskPromised (given_texts lib.now net.now) standing.now line
        answer.old answer.new (answer_read result) }
{
    if standing.len() < sizes::STANDING || answer.len() < sizes::OBSERVED {
        return Err(Cause::TableShort.at(0));
    }
    let mut library = [0u32; sizes::LIBRARY];
    let mut netlist = [0u32; sizes::NETLIST];
    read_pad(lib, net, standing, line, false, &mut library, &mut netlist)?;
    let mut numbers = [0u32; sizes::NUMBERS];
    let _observed = observe(&library, &netlist, standing, &mut numbers);
    hand_observed(&numbers, answer);
    Ok(word(standing, 0) as usize)
}

// Commits a ticket, a line and the number of pads that its ask answered: the number of pads placed then. Nothing is
// touched on refusal.
pub fn commit(
    lib: &[u8],
    net: &[u8],
    standing: &mut [u32],
    line: usize,
    count: usize,
) -> Result<usize, Refusal>
    ensures { CommitPromised (given_texts lib.now net.now) standing.old
        line count standing.new (answer_read result) }
{
    if standing.len() < sizes::STANDING {
        return Err(Cause::TableShort.at(0));
    }
    let pads = word(standing, 0) as usize;
    let mut library = [0u32; sizes::LIBRARY];
    let mut netlist = [0u32; sizes::NETLIST];
    read_pad(
        lib,
        net,
        standing,
        line,
        count != pads,
        &mut library,
        &mut netlist,
    )?;
    put_pad(&library, &netlist, standing, pads, line);
    Ok(pads + 1)
}
