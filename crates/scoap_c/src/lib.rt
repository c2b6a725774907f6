// The calls for C, in one archive, `libscoap_c.a`, with one header, include/scoap.h. Each has tables of
// its own, of which no place is used before the call, and answers by one number.
//
// Open to others: `scoap_report`, `scoap_plan`, `scoap_cell`, `scoap_built_in`, `scoap_qualifies`, `scoap_stand`,
// `scoap_ask`, `scoap_commit`, `scoap_change`, `scoap_best`, `scoap_advise` and `scoap_rank`. They have no condition
// on their input. What each promises, and what the number of all of them tells, is said by crate `answer_codes`, which also
// makes the number of an answer; that of `scoap_qualifies` is made by module `answer_codes::qualifies`.
#![tactic(auto)]

ghost use Rattle.answer_codes.specs.Advice.{AdviceCoded, RankCoded};
ghost use Rattle.answer_codes.specs.Best.{BestCoded};
ghost use Rattle.answer_codes.specs.BuiltIn.{BuiltInCoded};
ghost use Rattle.answer_codes.specs.Cell.{CellCoded};
ghost use Rattle.answer_codes.specs.Change.{ChangeCoded};
ghost use Rattle.answer_codes.specs.Coded.{Coded};
ghost use Rattle.answer_codes.specs.Plan.{PlanCoded};
ghost use Rattle.answer_codes.specs.Qualifies.{QualifiesCoded};
ghost use Rattle.answer_codes.specs.Stand.{StandCoded, AskCoded, CommitCoded};

use analysis_texts::Tables;
use answer_codes::qualifies::qualifies_code;
use answer_codes::{advised_code, answer_code, change_code, limit_plan};

// For C: tables of its own, and one number for the answer: the report's length when accepted, else
// the refusal number times 1,000,000 plus the line.
#[unsafe(no_mangle)]
pub extern "C" fn scoap_report(lib: &[u8], net: &[u8], report: &mut [u8]) -> u64
    ensures { Coded lib.now net.now report.old report.new result }
{
    let mut library = [0u32; sizes::LIBRARY];
    let mut netlist = [0u32; sizes::NETLIST];
    let mut numbers = [0u32; sizes::NUMBERS];
    let answer = analysis_call::report_into(
        lib,
        net,
        &mut library,
        &mut netlist,
        &mut numbers,
        report,
    );
    answer_code(answer)
}

// For C: the library entry of a truth table's line, and one number for the answer: the entry's length, else
// the refusal number times 1,000,000 plus the line.
#[unsafe(no_mangle)]
pub extern "C" fn scoap_cell(line: &[u8], entry: &mut [u8]) -> u64
    ensures { CellCoded line.now entry.old entry.new result }
{
    let written = truth_entry::put_entry(line, entry);
    writer::code(written)
}

// For C: the text of the built-in library, and its length; 17 where the buffer is too short.
#[unsafe(no_mangle)]
pub extern "C" fn scoap_built_in(text: &mut [u8]) -> u64
    ensures { BuiltInCoded text.old text.new result }
{
    let written = truth_library::put_built_in(text);
    writer::code(written)
}

// For C: the cheapest way to set a line to a value, written out, on tables of its own, and one number for
// the answer: the text's length, else the refusal number times 1,000,000 plus the line.
#[unsafe(no_mangle)]
pub extern "C" fn scoap_plan(
    lib: &[u8],
    net: &[u8],
    line: u64,
    value: u64,
    kind: u64,
    text: &mut [u8],
) -> u64
    ensures { PlanCoded lib.now net.now text.old text.new
        line value kind result }
{
    let mut library = [0u32; sizes::LIBRARY];
    let mut netlist = [0u32; sizes::NETLIST];
    let mut numbers = [0u32; sizes::NUMBERS];
    let written = plan_calls::write_plan_into(
        lib,
        net,
        &mut library,
        &mut netlist,
        &mut numbers,
        text,
        line as usize,
        value as usize,
        kind as usize,
        Tables::Own,
    );
    let told = limit_plan(text, written);
    writer::code(told)
}

// For C: of which netlists document 02, K8, speaks, on tables of its own: 0, 1 or 2 as `qualifies` answers, else
// the refusal number times 1,000,000 plus the line. It only reads: nothing is calculated, and nothing reported.
#[unsafe(no_mangle)]
pub extern "C" fn scoap_qualifies(lib: &[u8], net: &[u8]) -> u64
    ensures { QualifiesCoded lib.now net.now result }
{
    qualifies_code(lib, net)
}

// For C: an analysis that is to stand, its report and its standing table, on tables of its own, and one number for the
// answer: the report's length, else the refusal number times 1,000,000 plus the line.
#[unsafe(no_mangle)]
pub extern "C" fn scoap_stand(
    lib: &[u8],
    net: &[u8],
    standing: &mut [u32],
    report: &mut [u8],
) -> u64
    ensures { StandCoded lib.now net.now standing.old report.old
        standing.new report.new result }
{
    let answer = standing_calls::stand(lib, net, standing, report);
    answer_code(answer)
}

// For C: asks for a pad on a line: the number of pads placed so far, and in the answer the CO and SO of each line; else
// the refusal number times 1,000,000 plus the line.
#[unsafe(no_mangle)]
pub extern "C" fn scoap_ask(
    lib: &[u8],
    net: &[u8],
    standing: &[u32],
    line: u64,
    answer: &mut [u32],
) -> u64
    ensures { AskCoded lib.now net.now standing.now line
        answer.old answer.new result }
{
    let asked = standing_calls::ask(lib, net, standing, line as usize, answer);
    writer::code(asked)
}

// For C: commits a ticket, a line and the number that its ask answered: the number of pads placed then, else the refusal
// number times 1,000,000 plus the line.
#[unsafe(no_mangle)]
pub extern "C" fn scoap_commit(
    lib: &[u8],
    net: &[u8],
    standing: &mut [u32],
    line: u64,
    count: u64,
) -> u64
    ensures { CommitCoded lib.now net.now standing.old line count
        standing.new result }
{
    let committed = standing_calls::commit(lib, net, standing, line as usize, count as usize);
    writer::code(committed)
}

// For C: the best numbers within a budget of steps, in a buffer of `sizes::BEST` numbers, on tables of its own, and one
// number for the answer: how many steps were made, else the refusal number times 1,000,000 plus the line. Nothing is
// swept, and nothing reported.
#[unsafe(no_mangle)]
pub extern "C" fn scoap_best(lib: &[u8], net: &[u8], budget: u64, best: &mut [u32]) -> u64
    ensures { BestCoded lib.now net.now budget best.old best.new result }
{
    let steps = budget_call::best_within(lib, net, budget as usize, best);
    writer::code(steps)
}

// For C: names the line that, padded alone, leaves the lowest largest CO, which goes into the answer's first entry; 0
// where no line is allowed; else the refusal number times 1,000,000 plus the line.
#[unsafe(no_mangle)]
pub extern "C" fn scoap_advise(lib: &[u8], net: &[u8], forbidden: &[u32], answer: &mut [u32]) -> u64
    ensures { AdviceCoded lib.now net.now forbidden.now
        answer.old answer.new result }
{
    let advised = advice_calls::advise(lib, net, forbidden, answer);
    advised_code(advised)
}

// For C: lays four numbers for each line into the table of ranks, of what a pad on it leaves: how many lines are allowed,
// else the refusal number times 1,000,000 plus the line.
#[unsafe(no_mangle)]
pub extern "C" fn scoap_rank(lib: &[u8], net: &[u8], forbidden: &[u32], ranks: &mut [u32]) -> u64
    ensures { RankCoded lib.now net.now forbidden.now
        ranks.old ranks.new result }
{
    let ranked = advice_calls::rank(lib, net, forbidden, ranks);
    writer::code(ranked)
}

// For C: changes the library of a standing analysis, which was made with `lib`: 1 where the sweeps went on, 0 where the
// netlist was analysed from the beginning, pads kept; else the refusal number times 1,000,000 plus the line.
#[unsafe(no_mangle)]
pub extern "C" fn scoap_change(lib: &[u8], new_lib: &[u8], net: &[u8], standing: &mut [u32]) -> u64
    ensures { ChangeCoded lib.now new_lib.now net.now
        standing.old standing.new result }
{
    let changed = standing_change::change(lib, new_lib, net, standing);
    change_code(changed)
}
