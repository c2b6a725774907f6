// The runs of a change of library, over a standing table: document 02, K14.
//
// For this crate: `go_on_from`, the sweeps from the numbers that stand; `begin_again`, the analysis from the beginning;
// and before it `read_again`, the netlist under the new library. specs/RunParts.antt has what they ask and leave.
ghost use Rattle.std.specs.Prelude.{List, ◌≡◌, ◌≤◌, length, get_or, drop};
ghost use Rattle.sizes.specs.Sizes as Size;
ghost use Rattle.reading.specs.Answer.{answer_read};
ghost use Rattle.library_table.specs.Cells.{Cell};
ghost use Rattle.netlist_table.specs.Netlist.{Statement};
ghost use Rattle.calculation.specs.Calculation.{analysed};
ghost use Rattle.calculation.specs.Stored.{Holds, Ready, whole};
ghost use Rattle.library_growth.specs.Held.{HoldsCells};
ghost use Rattle.standing_change.specs.RunParts.{lesser_held, Stores, AgainFits, ReadAgain};

use calculation::Counts;
use netlist_table::Rules;
use netlist_text::read_all;
use reading::Refusal;
use standing_table::texts::mark_pads;
use standing_table::{numbers_of, put_standing};
use sweep_reruns::go_on;
use sweep_runs::calculate;
use sweep_start::LOW;
use table::{clear, word};

// ---- the numbers

// Lays an analysis into a standing table, pads kept.
fn put_kept(standing: &mut [u32], counts: Counts, numbers: &[u32; sizes::NUMBERS])
    requires { (get_or standing.old 0 0 ≤ Size.pads) × (Size.standing ≤ length standing.old) }
    ensures { Stores (whole counts numbers.now) standing.old standing.new }
{
    put_standing(standing, word(standing, 0) as usize, counts, numbers);
}

// The sweeps go on from the numbers that stand.
pub fn go_on_from(library: &[u32], netlist: &[u32], standing: &mut [u32])
    requires { Ready library.now netlist.now (drop Size.standing_numbers standing.old)
        × (get_or standing.old 0 0 ≤ Size.pads) }
    ensures { (cells : List Cell) (ss : List Statement)
        → Holds library.now netlist.now cells ss
        → Stores (lesser_held cells ss standing.old) standing.old standing.new }
{
    let mut numbers = [0u32; sizes::NUMBERS];
    let counts = go_on(library, netlist, numbers_of(standing), &mut numbers);
    put_kept(standing, counts, &numbers);
}

// The analysis from the beginning.
pub fn begin_again(library: &[u32], netlist: &[u32], standing: &mut [u32])
    requires { Ready library.now netlist.now (drop Size.standing_numbers standing.old)
        × (get_or standing.old 0 0 ≤ Size.pads) }
    ensures { (cells : List Cell) (ss : List Statement)
        → Holds library.now netlist.now cells ss
        → Stores (analysed cells ss) standing.old standing.new }
{
    let mut numbers = [0u32; sizes::NUMBERS];
    let counts = calculate(library, netlist, &mut numbers, LOW);
    put_kept(standing, counts, &numbers);
}

// ---- the netlist under the new library

// Reads the netlist again, and marks the pads that stand.
pub fn read_again(
    net: &[u8],
    library: &[u32],
    netlist: &mut [u32],
    standing: &[u32],
) -> Result<(), Refusal>
    requires { AgainFits net.now netlist.old standing.now }
    ensures { (cells : List Cell) → HoldsCells library.now cells
        → ReadAgain net.now library.now cells standing.now netlist.new
        (answer_read result) }
{
    clear(netlist, sizes::NETLIST);
    read_all(Rules::New, net, library, netlist)?;
    mark_pads(library, netlist, standing)
}
