// Another library under a standing analysis: document 02, K14. The texts are lent again and read again, as in `standing_calls`.
//
// Open to others: `change`; the type `Course`. It has no condition on its input; specs/Calls.antt says what it answers and
// leaves, specs/Promise.antt what that means of a standing analysis.
//
// Module `runs`: the runs of a change, over a standing table.
#![tactic(auto)]

mod runs;

ghost use Rattle.std.specs.Prelude.{List, ◌≤◌, length};
ghost use Rattle.sizes.specs.Sizes as Size;
ghost use Rattle.library_table.specs.Cells.{Cell};
ghost use Rattle.calculation.specs.Pads.{State};
ghost use Rattle.library_growth.specs.Held.{HoldsCells, SomeCells};
ghost use Rattle.demands.specs.Outcome.{given_texts};
ghost use Rattle.standing_change.specs.RunParts.{read_under};
ghost use Rattle.standing_change.specs.Calls.{changed_read, changed, changed_by};
ghost use Rattle.standing_change.specs.Parts.{StateHeld, SomeState, Changes};
ghost use Rattle.standing_change.specs.Promise.{ChangePromised};

use crate::runs::{begin_again, go_on_from, read_again};
use library_growth::grown_at;
use library_text::lines::read_lines;
use reading::{Cause, Refusal};
use standing_table::texts::read_held;

// Which of the two happened. `changed_read` gives the cases of an answer.
#[derive(Clone, Copy, PartialEq, Eq)]
pub enum Course {
    WentOn,
    BegunAgain,
}

// From the tables of the old library and the netlist with the pads that stand, and that of the new library: the sweeps go on
// where the library has only grown, and then the netlist table serves both.
fn change_to(
    net: &[u8],
    library: &[u32],
    more: &[u32],
    netlist: &mut [u32],
    standing: &mut [u32],
) -> Result<Course, Refusal>
    requires { SomeState net.now library.now netlist.old standing.old × SomeCells more.now }
    ensures { (s : State) (cells : List Cell)
        → StateHeld net.now library.now netlist.old standing.old s
        → HoldsCells more.now cells
        → Changes (changed s cells (read_under cells net.now)) standing.old standing.new
        (changed_read result) }
{
    if grown_at(library, more) {
        go_on_from(more, netlist, standing);
        return Ok(Course::WentOn);
    }
    read_again(net, more, netlist, standing)?;
    begin_again(more, netlist, standing);
    Ok(Course::BegunAgain)
}

// From the tables of the old library and the netlist with the pads that stand.
fn change_held(
    new_lib: &[u8],
    net: &[u8],
    library: &[u32],
    netlist: &mut [u32],
    standing: &mut [u32],
) -> Result<Course, Refusal>
    requires { SomeState net.now library.now netlist.old standing.old
        × (length new_lib.now ≤ Size.text_bytes) }
    ensures { (s : State)
        → StateHeld net.now library.now netlist.old standing.old s
        → Changes (changed_by (given_texts new_lib.now net.now) s) standing.old
        standing.new (changed_read result) }
{
    let mut more = [0u32; sizes::LIBRARY];
    read_lines(new_lib, &mut more)?;
    change_to(net, library, &more, netlist, standing)
}

// Changes the library of a standing analysis, which was made with `lib`: the sweeps go on where the new one differs only by
// rows added, any other is analysed from the beginning, pads kept. Nothing is touched on refusal.
pub fn change(
    lib: &[u8],
    new_lib: &[u8],
    net: &[u8],
    standing: &mut [u32],
) -> Result<Course, Refusal>
    ensures { ChangePromised (given_texts lib.now net.now)
        (given_texts new_lib.now net.now)
        standing.old standing.new (changed_read result) }
{
    if standing.len() < sizes::STANDING {
        return Err(Cause::TableShort.at(0));
    }
    if sizes::TEXT_BYTES < new_lib.len() {
        return Err(Cause::TextLong.at(0));
    }
    let mut library = [0u32; sizes::LIBRARY];
    let mut netlist = [0u32; sizes::NETLIST];
    read_held(lib, net, standing, &mut library, &mut netlist)?;
    change_held(new_lib, net, &library, &mut netlist, standing)
}
