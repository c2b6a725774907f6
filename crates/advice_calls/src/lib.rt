// The pad adviser for the home recorder: document 02, K13. A second library above the first: it takes a netlist and a
// list of lines that privacy forbids to pad, and names one allowed line; beyond the request, it ranks the allowed lines.
//
// Of the first library it uses `analysis_texts::read_texts`, which reads the texts and refuses them; and by module
// `lines`, which is part of it and has what is done over their tables, `sweep_runs::calculate`, one analysis;
// `sweep_links::link` and `sweep_reruns::try_pad`, a pad on trial from the numbers of that analysis, which
// `sweep_runs::hand_over` lays anew for each; the readers of the netlist table, `netlist_table::lines`; and the costs of crate
// `cost`.
//
// Open to others: `advise` and `rank`, over two texts and a list, with an answer that the caller lends. They have tables of
// their own, and no condition on their input; specs/Calls.antt says what they answer and leave, specs/Promise.antt what that
// means. The published sizes of the answers are 1 and `sizes::RANKS`.
#![tactic(auto)]

mod lines;

ghost use Rattle.std.specs.Prelude.{◌≡◌};
ghost use Rattle.reading.specs.Answer.{answer_read};
ghost use Rattle.demands.specs.Outcome.{given_texts};
ghost use Rattle.analysis_texts.specs.Tables.{Zero};
ghost use Rattle.advice_calls.specs.Calls.{advice_into};
ghost use Rattle.advice_calls.specs.Texts.{TextsRead};
ghost use Rattle.advice_calls.specs.Promise.{AdvicePromised, RankPromised};

use crate::lines::{advise_on, rank_on};
use analysis_texts::entry::stopped;
use analysis_texts::{Tables, read_texts};
use calculation::Advice;
use netlist_table::Rules;
use reading::{Cause, Refusal};
use table::put;

// The entry, by the size that the answer must have, and both texts. A refusal of the texts leaves the answer zero.
fn read_into(
    lib: &[u8],
    net: &[u8],
    library: &mut [u32],
    netlist: &mut [u32],
    answer: &mut [u32],
    size: usize,
) -> Result<(), Refusal>
    requires { Zero library.old netlist.old }
    ensures { TextsRead size (given_texts lib.now net.now) answer.old
        library.new netlist.new answer.new (answer_read result) }
{
    if answer.len() < size {
        return Err(Cause::TableShort.at(0));
    }
    let progress = read_texts(
        Rules::New,
        lib,
        net,
        library,
        netlist,
        sizes::NUMBERS,
        Tables::Own,
    );
    match progress {
        Err(stop) => Err(stopped(stop, answer)),
        Ok(()) => Ok(()),
    }
}

// Lays the largest CO of an advice into the answer.
#[tactic(auto, unfolding(crate::specs::Calls::advice_into))]
fn put_advice(answer: &mut [u32], found: Option<Advice>)
    ensures { answer.new ≡ advice_into found answer.old }
{
    if let Some(advice) = found {
        put(answer, 0, advice.largest);
    }
}

// Names the allowed line that, padded alone, leaves the lowest largest CO, and lays that into the answer's first entry.
pub fn advise(
    lib: &[u8],
    net: &[u8],
    forbidden: &[u32],
    answer: &mut [u32],
) -> Result<Option<Advice>, Refusal>
    ensures { AdvicePromised (given_texts lib.now net.now) forbidden.now
        answer.old answer.new (answer_read result) }
{
    let mut library = [0u32; sizes::LIBRARY];
    let mut netlist = [0u32; sizes::NETLIST];
    read_into(lib, net, &mut library, &mut netlist, answer, 1)?;
    let found = advise_on(&library, &netlist, forbidden);
    put_advice(answer, found);
    Ok(found)
}

// Lays four numbers for each line into the table of ranks, of what a pad on it leaves; how many lines are allowed.
pub fn rank(lib: &[u8], net: &[u8], forbidden: &[u32], table: &mut [u32]) -> Result<usize, Refusal>
    ensures { RankPromised (given_texts lib.now net.now) forbidden.now
        table.old table.new (answer_read result) }
{
    let mut library = [0u32; sizes::LIBRARY];
    let mut netlist = [0u32; sizes::NETLIST];
    read_into(lib, net, &mut library, &mut netlist, table, sizes::RANKS)?;
    Ok(rank_on(&library, &netlist, forbidden, table))
}
