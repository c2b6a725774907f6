// What is lent to the calls on a standing analysis, read into tables: both texts, the pads of the standing table as output
// marks, and one pad more. Document 02, K11 and K14.
//
// For the crates above, each with what it asks and leaves (specs/Parts.antt): `mark_pads`, the pads of a standing table in a
// netlist table; `read_held`, both texts and these pads; `read_pad`, one pad more, whose ticket may be stale.
ghost use Rattle.std.specs.Prelude.{not, List, ◌≡◌, ◌≤◌, length, take, drop};
ghost use Rattle.sizes.specs.Sizes as Size;
ghost use Rattle.reading.specs.Refusal.{weigh};
ghost use Rattle.reading.specs.Answer.{answer_read};
ghost use Rattle.library_table.specs.Cells.{Cell};
ghost use Rattle.netlist_table.specs.Netlist.{Statement};
ghost use Rattle.calculation.specs.Stored.{Holds};
ghost use Rattle.demands.specs.Outcome.{given_texts};
ghost use Rattle.standing_table.specs.Held.{pad_causes};
ghost use Rattle.analysis_texts.specs.Tables.{Zero};
ghost use Rattle.standing_table.specs.Parts.{PadTried, PadsTried, PadsJudged, TextsRead, HeldRead, PadRead};

use analysis_texts::Tables;
use netlist_admission::{admit, mark};
use netlist_table::{OUTPUT, Rules};
use reading::{Cause, Refusal};
use table::word;

// ---- the netlist table with pads

// Marks a line as output, where it is mentioned and no output already; whether it was marked. A bool, since there is one cause,
// 23, which `mark_pads` and `judge` weigh with their others.
fn place(library: &[u32], netlist: &mut [u32], line: usize) -> bool
    ensures { (cells : List Cell) (ss : List Statement)
        → Holds library.now netlist.old cells ss
        → PadTried library.now cells ss line netlist.new result }
{
    if sizes::LINES < line {
        return false;
    }
    if line == 0 {
        return false;
    }
    let l = line as u32;
    if !netlist_table::lines::mentioned(netlist, l) {
        return false;
    }
    admit(netlist, library, Some(mark(OUTPUT, l))).is_ok()
}

// Marks the first pads of a standing table, one after the other; whether all were marked.
fn place_pads(library: &[u32], netlist: &mut [u32], standing: &[u32], count: usize) -> bool
    requires { (count ≤ Size.pads) × (Size.standing ≤ length standing.now) }
    ensures { (cells : List Cell) (ss : List Statement)
        → Holds library.now netlist.old cells ss
        → PadsTried library.now cells ss (take count (drop Size.pads_at standing.now))
        netlist.new result }
{
    for i in 0..count {
        if !place(
            library,
            netlist,
            word(standing, sizes::PADS_AT + i) as usize,
        ) {
            return false;
        }
    }
    true
}

// Marks the pads of a standing table; 23 where there are more than lines, or one cannot be placed.
pub fn mark_pads(library: &[u32], netlist: &mut [u32], standing: &[u32]) -> Result<(), Refusal>
    requires { Size.standing ≤ length standing.now }
    ensures { (cells : List Cell) (ss : List Statement)
        → Holds library.now netlist.old cells ss
        → PadsJudged library.now cells ss standing.now netlist.new (answer_read result) }
{
    let count = word(standing, 0) as usize;
    if sizes::PADS < count {
        return Err(Cause::Unpaddable.at(0));
    }
    if place_pads(library, netlist, standing, count) {
        Ok(())
    } else {
        Err(Cause::Unpaddable.at(0))
    }
}

// ---- what is lent, read into tables

// Both texts: 2, and their own refusals.
fn read_both(
    lib: &[u8],
    net: &[u8],
    library: &mut [u32],
    netlist: &mut [u32],
) -> Result<(), Refusal>
    requires { Zero library.old netlist.old }
    ensures { TextsRead (given_texts lib.now net.now)
        library.new netlist.new (answer_read result) }
{
    analysis_texts::read_texts(
        Rules::New,
        lib,
        net,
        library,
        netlist,
        sizes::NUMBERS,
        Tables::Own,
    )?;
    Ok(())
}

// Both texts, and the pads that stand. The texts, the standing table and the line are apart, as the calls of `standing_calls`
// have them (what may not change), which hand them on.
pub fn read_held(
    lib: &[u8],
    net: &[u8],
    standing: &[u32],
    library: &mut [u32],
    netlist: &mut [u32],
) -> Result<(), Refusal>
    requires { Zero library.old netlist.old × (Size.standing ≤ length standing.now) }
    ensures { HeldRead (given_texts lib.now net.now) standing.now
        library.new netlist.new (answer_read result) }
{
    read_both(lib, net, library, netlist)?;
    mark_pads(library, netlist, standing)
}

// What a pad is refused for, "23 ..; then 24": its line takes none, its ticket is stale.
fn judge(marked: bool, stale: bool) -> Result<(), Refusal>
    ensures { answer_read result ≡ weigh 0 (pad_causes (not marked) stale) }
{
    if !marked {
        return Err(Cause::Unpaddable.at(0));
    }
    if stale {
        return Err(Cause::TicketStale.at(0));
    }
    Ok(())
}

// Both texts, the pads that stand, and one pad more, whose ticket may be stale.
pub fn read_pad(
    lib: &[u8],
    net: &[u8],
    standing: &[u32],
    line: usize,
    stale: bool,
    library: &mut [u32],
    netlist: &mut [u32],
) -> Result<(), Refusal>
    requires { Zero library.old netlist.old × (Size.standing ≤ length standing.now) }
    ensures { PadRead (given_texts lib.now net.now) standing.now line stale
        library.new netlist.new (answer_read result) }
{
    read_held(lib, net, standing, library, netlist)?;
    let marked = place(library, netlist, line);
    judge(marked, stale)
}
