// The standing table: the numbers run again over those that stand in it, and its stores. Document 02, K11.
//
// For the crates above, each with what it asks and leaves: `numbers_of`, the numbers that stand; `observe`, CO and SO run again over the values that stand;
// `hand_observed`, which lays them into an answer; `put_standing`, which lays an analysis into a standing table; `put_pad`,
// which makes one pad more stand.
//
// Module `texts`: both texts and the pads, read into tables.
#![tactic(auto)]

pub mod texts;

ghost use Rattle.std.specs.Prelude.{List, ◌++◌, ◌≡◌, ◌+◌, ◌-◌, ◌≤◌, ◌<◌, length, take, drop};
ghost use Rattle.sizes.specs.Sizes as Size;
ghost use Rattle.table.specs.Blocks.{cleared};
ghost use Rattle.library_table.specs.Cells.{Cell};
ghost use Rattle.netlist_table.specs.Netlist.{Statement};
ghost use Rattle.calculation.specs.Stored.{Holds, Ready, whole};
ghost use Rattle.sweep_reruns.specs.Kept.{ObservedAnew};
ghost use Rattle.standing_table.specs.StandingTable.{standing_words, observed_words, StoresPad};

use calculation::Counts;
use sweep_reruns::observe_anew;
use sweep_runs::{Sweeps, hand_over};
use table::{put, word};

// The numbers that stand, behind the counts and the pads. A standing table stays a slice whose length is asked for: it may be
// longer, and its front as an array would be an optional reference (pads/narrow).
pub fn numbers_of(standing: &[u32]) -> &[u32]
    requires { Size.standing ≤ length standing.now }
    ensures { result.now ≡ drop Size.standing_numbers standing.now }
{
    &standing[sizes::STANDING_NUMBERS..]
}

// CO and SO run again, over the values that stand in a standing table.
pub fn observe(
    library: &[u32],
    netlist: &[u32],
    standing: &[u32],
    numbers: &mut [u32; sizes::NUMBERS],
) -> Sweeps
    requires { Ready library.now netlist.now (drop Size.standing_numbers standing.now) }
    ensures { (cells : List Cell) (ss : List Statement)
        → Holds library.now netlist.now cells ss
        → ObservedAnew cells ss (drop Size.standing_numbers standing.now) numbers.new result }
{
    observe_anew(library, netlist, numbers_of(standing), numbers)
}

// Lays the CO and SO of each line into an answer.
pub fn hand_observed(numbers: &[u32; sizes::NUMBERS], answer: &mut [u32])
    requires { Size.observed ≤ length answer.old }
    ensures { answer.new
        ≡ observed_words numbers.now ++ drop Size.observed answer.old }
{
    for i in 0..sizes::OBSERVED {
        answer[i] = numbers[i / sizes::KINDS * sizes::COSTS
            + sizes::OBSERVED_AT
            + i % sizes::KINDS];
    }
}

// Clears the places for pads behind the first so many.
fn clear_pads(standing: &mut [u32], pads: usize)
    requires { (pads ≤ Size.pads) × (Size.standing ≤ length standing.old) }
    ensures { standing.new ≡ take (Size.pads_at + pads) standing.old
        ++ cleared (Size.pads - pads) (drop (Size.pads_at + pads) standing.old) }
{
    table::clear(&mut standing[sizes::PADS_AT + pads..], sizes::PADS - pads);
}

// Lays numbers behind the pads.
fn put_numbers(standing: &mut [u32], numbers: &[u32; sizes::NUMBERS])
    requires { Size.standing ≤ length standing.old }
    ensures { standing.new ≡ take Size.standing_numbers standing.old
        ++ (numbers.now ++ drop Size.numbers (drop Size.standing_numbers standing.old)) }
{
    hand_over(numbers, &mut standing[sizes::STANDING_NUMBERS..]);
}

// Lays counts and numbers into a standing table that has so many pads, with 0 after the last.
pub fn put_standing(
    standing: &mut [u32],
    pads: usize,
    counts: Counts,
    numbers: &[u32; sizes::NUMBERS],
)
    requires { (pads ≤ Size.pads) × (Size.standing ≤ length standing.old) }
    ensures { standing.new
        ≡ standing_words (take pads (drop Size.pads_at standing.old)) (whole counts numbers.now)
        ++ drop Size.standing standing.old }
{
    clear_pads(standing, pads);
    put_numbers(standing, numbers);
    put(standing, 0, pads as u32);
    put(standing, sizes::RUNS_AT, counts.cc);
    put(standing, sizes::RUNS_AT + 1, counts.sc);
    put(standing, sizes::RUNS_AT + 2, counts.co);
    put(standing, sizes::RUNS_AT + 3, counts.so);
}

// Makes one pad more stand, from tables that have its mark.
pub fn put_pad(library: &[u32], netlist: &[u32], standing: &mut [u32], pads: usize, line: usize)
    requires { Ready library.now netlist.now (drop Size.standing_numbers standing.old)
        × (pads < Size.pads) × (line ≤ Size.lines) }
    ensures { (cells : List Cell) (ss : List Statement)
        → Holds library.now netlist.now cells ss
        → StoresPad cells ss pads line standing.old standing.new }
{
    let mut numbers = [0u32; sizes::NUMBERS];
    let observed = observe(library, netlist, standing, &mut numbers);
    let counts = Counts {
        cc: word(standing, sizes::RUNS_AT),
        sc: word(standing, sizes::RUNS_AT + 1),
        co: observed.combinational,
        so: observed.sequential,
    };
    put(standing, sizes::PADS_AT + pads, line as u32);
    put_standing(standing, pads + 1, counts, &numbers);
}
