// Best numbers within a budget, from two texts: document 02, K12. Both are read, and a run within the budget
// is made over them; no analysis is.
//
// Open to others: `best_within`, over two texts and a buffer of numbers that the caller lends, with a budget; it
// answers how many steps were made. It has no condition on its input; specs/Promise.antt says what it promises. The
// published size of the buffer is `sizes::BEST`.
#![tactic(auto)]

ghost use Rattle.std.specs.Prelude.{List, ◌≡◌, ◌≤◌, ◌<◌, length};
ghost use Rattle.sizes.specs.Sizes as Size;
ghost use Rattle.reading.specs.Answer.{answer_read};
ghost use Rattle.library_table.specs.Cells.{Cell};
ghost use Rattle.netlist_table.specs.Netlist.{Statement};
ghost use Rattle.calculation.specs.Stored.{Holds};
ghost use Rattle.budget_call.specs.Parts.{two_words, with_value, Handed, FillFits, Filled};
ghost use Rattle.budget_call.specs.Promise.{BestPromised};

use analysis_texts::entry::stopped;
use analysis_texts::{Tables, read_texts};
use budget_queue::CostQueue;
use budget_run::{leaf_place, run};
use cost::NEVER;
use netlist_table::Rules;
use reading::{Cause, Refusal};
use table::put;

// Lays the two words of a leaf's value.
fn put_value(best: &mut [u32], leaf: usize, flag: u32, handed: u32)
    requires { leaf < Size.leaves }
    ensures { best.new ≡ two_words leaf flag handed best.old }
{
    let at = sizes::FLAGS_AT + leaf * sizes::FLAG_WORDS;
    put(best, at, flag);
    put(best, at + 1, handed);
}

// Lays 1 and the number of a leaf's value where it is fixed, 0 and its offer where it is not.
fn hand_value(numbers: &[u32; sizes::NUMBERS], queue: &CostQueue, leaf: usize, best: &mut [u32])
    requires { leaf < Size.leaves }
    ensures { best.new
        ≡ with_value numbers.now queue.now leaf best.old }
{
    let place = leaf_place(leaf);
    let number = numbers[place];
    let offer = queue.cost_at(leaf);
    if number < NEVER {
        put_value(best, leaf, 1, number);
    } else {
        put_value(best, leaf, 0, offer);
    }
}

// Those of all values.
fn hand_over(numbers: &[u32; sizes::NUMBERS], queue: &CostQueue, best: &mut [u32])
    requires { Size.best ≤ length best.old }
    ensures { Handed numbers.now queue.now Size.leaves
        best.old best.new }
{
    for leaf in 0..sizes::LEAVES {
        hand_value(numbers, queue, leaf, best);
    }
}

// A run over the tables of an accepted library and netlist, and what is handed out of it; how many steps it
// made.
fn fill(library: &[u32], netlist: &[u32], budget: usize, best: &mut [u32]) -> usize
    requires { FillFits library.now netlist.now best.old }
    ensures { (cells : List Cell) (ss : List Statement)
        → Holds library.now netlist.now cells ss
        → Filled cells ss budget best.old best.new result }
{
    let mut numbers = [NEVER; sizes::NUMBERS];
    let mut queue = CostQueue::empty();
    let spent = run(library, netlist, budget, &mut numbers, &mut queue);
    best[0] = spent.last.unwrap_or(0);
    hand_over(&numbers, &queue, best);
    spent.steps
}

// The best numbers within a budget of steps, in the front of the buffer lent, and how many steps were made.
// Its tables are its own, and zero.
pub fn best_within(
    lib: &[u8],
    net: &[u8],
    budget: usize,
    best: &mut [u32],
) -> Result<usize, Refusal>
    ensures { BestPromised lib.now net.now budget best.old best.new
        (answer_read result) }
{
    if best.len() < sizes::BEST {
        return Err(Cause::TableShort.at(0));
    }
    let mut library = [0u32; sizes::LIBRARY];
    let mut netlist = [0u32; sizes::NETLIST];
    let progress = read_texts(
        Rules::New,
        lib,
        net,
        &mut library,
        &mut netlist,
        sizes::NUMBERS,
        Tables::Own,
    );
    match progress {
        Err(stop) => Err(stopped(stop, best)),
        Ok(()) => Ok(fill(&library, &netlist, budget, best)),
    }
}
