// Pads on trial: which lines a pad may be placed on, what a pad on each would leave, and which leaves the least. Document 02,
// K13.
//
// For this crate: `advise_on` and `rank_on`, over the tables of an accepted library and netlist. A pad is tried by
// `sweep_reruns::try_pad` in a second array that holds the numbers of one analysis, and what it changed is put back by
// `trial_back::put_back` (D199). specs/Parts.antt says what the parts ask and leave.
ghost use Rattle.std.specs.Prelude.{true, false, List, [], map, ◌≡◌, ℕ, ◌*◌, ◌-◌, ◌≤◌, ◌<◌, length, replicate};
ghost use Rattle.std.proofs.lemmas.List.Edits.{sets};
ghost use Rattle.sizes.specs.Sizes as Size;
ghost use Rattle.reading.specs.Choice.{pick};
ghost use Rattle.library_table.specs.Cells.{Cell};
ghost use Rattle.netlist_table.specs.Netlist as Netlist;
ghost use Rattle.netlist_table.specs.Lines.{mention_at, mentions_held};
ghost use Rattle.netlist_table.specs.Sound.{InRange};
ghost use Rattle.calculation.specs.Advice.{leaves, before, advice, rank_words};
ghost use Rattle.calculation.specs.Stored.{Holds};
ghost use Rattle.sweep_links.specs.Lines.{Links};
ghost use Rattle.advice_calls.specs.Parts.{Barred, Bars, may_pad, cost_at, left_of, left_with};
ghost use Rattle.trial_back.specs.Back.{BackFits, BehindOf, Changed};
ghost use Rattle.advice_calls.specs.Parts.{Holding, Stands, TryLineFits, LineTried, TrialsFit};
ghost use Rattle.advice_calls.specs.Parts.{Considered, LineRanked, AllRanked};

use calculation::Advice;
use cost::{Cost, MOST, NEVER, OVER, Spatial};
use netlist_table::lines::{mentioned, unchecked};
use sweep_links::circuit::Circuit;
use sweep_links::link;
use sweep_reruns::try_pad;
use sweep_runs::{calculate, hand_over};
use sweep_start::LOW;
use trial_back::put_back;

// ---- which lines may be padded

// Bars the line that an entry of the list names, where it names one.
fn bar(barred: &mut [bool; sizes::LINE_PLACES], entry: usize)
    ensures { Bars entry barred.old barred.new }
{
    // No `get_mut`: the archive as WebAssembly takes no optional reference (pads/narrow).
    if entry < sizes::LINE_PLACES {
        barred[entry] = true;
    }
}

// Bars all lines that the list names.
fn bar_all(barred: &mut [bool; sizes::LINE_PLACES], forbidden: &[u32])
    requires { Barred [] barred.old }
    ensures { Barred forbidden.now barred.new }
{
    for &entry in forbidden {
        bar(barred, entry as usize);
    }
}

// "Allowed means mentioned, not forbidden and not already an output".
fn may_pad(netlist: &[u32], barred: &[bool; sizes::LINE_PLACES], l: u32) -> bool
    requires { (l ≤ Size.lines) × (Size.netlist ≤ length netlist.now) }
    ensures { result ≡ may_pad netlist.now barred.now l }
{
    let place = l as usize;
    mentioned(netlist, l) && !barred[place] && unchecked::output_of(netlist, place) == 0
}

// ---- what a pad leaves

// Of the CO of some lines: the largest, how many are never and how many over, the largest that is a figure, and the sum
// of those.
#[derive(Clone, Copy, Default)]
struct Left {
    largest: u32,
    nevers: u32,
    overs: u32,
    figure: u32,
    total: u32,
}

// One cost more.
fn with_cost(left: Left, x: u32) -> Left
    requires { (left.nevers < Size.lines) × (left.overs < Size.lines) }
    ensures { result ≡ left_with x left }
{
    let largest = x.max(left.largest);
    if x <= MOST {
        let cost: Spatial = Cost(x);
        return Left {
            largest,
            figure: x.max(left.figure),
            total: cost.plus(Cost(left.total)).0,
            ..left
        };
    }
    if x == OVER {
        return Left {
            largest,
            overs: left.overs + 1,
            ..left
        };
    }
    Left {
        largest,
        nevers: left.nevers + 1,
        ..left
    }
}

// The cost of a line more, where the netlist mentions it.
fn with_line(netlist: &[u32], numbers: &[u32; sizes::NUMBERS], left: Left, l: u32) -> Left
    requires { (1 ≤ l) × (l ≤ Size.lines) × (left.nevers < Size.lines) × (left.overs < Size.lines) }
    ensures { result ≡ pick (mention_at netlist.now l)
        (left_with (cost_at numbers.now l) left) left }
{
    if mentioned(netlist, l) {
        with_cost(
            left,
            numbers[(l as usize - 1) * sizes::COSTS + sizes::OBSERVED_AT],
        )
    } else {
        left
    }
}

// "Largest is over the mentioned lines".
fn left_by(netlist: &[u32], numbers: &[u32; sizes::NUMBERS]) -> Left
    ensures { result ≡ left_of (map (cost_at numbers.now) (mentions_held netlist.now)) }
{
    let mut left = Left::default();
    for l in (1..sizes::LINE_PLACES as u32).rev() {
        left = with_line(netlist, numbers, left, l);
    }
    left
}

// Puts back what a trial on a line changed; where the walk ends early, the numbers are laid anew.
fn lay_back(
    circuit: &Circuit,
    numbers: &[u32; sizes::NUMBERS],
    tried: &mut [u32; sizes::NUMBERS],
    line: usize,
)
    requires { BackFits circuit.now.netlist.now circuit.now.links.now line }
    ensures { Changed numbers.now tried.old
        (BehindOf circuit.now.netlist.now circuit.now.links.now) line → tried.new ≡ numbers.now }
{
    if put_back(circuit.netlist, circuit.links, numbers, tried, line) {
        return;
    }
    hand_over(numbers, tried);
}

// What a pad on a line leaves, tried in an array that holds the numbers of the analysis, and holds them again behind it.
fn try_line(
    circuit: &Circuit,
    numbers: &[u32; sizes::NUMBERS],
    tried: &mut [u32; sizes::NUMBERS],
    l: u32,
) -> Left
    requires { TryLineFits circuit.now.library.now circuit.now.netlist.now numbers.now tried.old l }
    ensures { (cells : List Cell) (ss : List Netlist.Statement)
        → Stands circuit.now.library.now circuit.now.netlist.now numbers.now cells ss
        → Netlist.mentioned l ss ≡ true → Netlist.is_output l ss ≡ false
        → LineTried cells ss l numbers.now tried.new result }
{
    let _count = try_pad(circuit, tried, l);
    let left = left_by(circuit.netlist, tried);
    lay_back(circuit, numbers, tried, l as usize);
    left
}

// ---- the advice

// The better of a line and what was found among the lines above it: "Ties go to the lowest line".
#[tactic(auto, unfolding(calculation::specs::Advice::before, reading::specs::Choice::pick))]
fn better(found: Option<Advice>, l: u32, x: u32) -> Option<Advice>
    ensures { result ≡ before l x found }
{
    match found {
        Some(best) if best.largest < x => found,
        _ => Some(Advice {
            line: l,
            largest: x,
        }),
    }
}

// The advice with one line more, below those that were tried.
fn consider(
    circuit: &Circuit,
    numbers: &[u32; sizes::NUMBERS],
    tried: &mut [u32; sizes::NUMBERS],
    barred: &[bool; sizes::LINE_PLACES],
    found: Option<Advice>,
    l: u32,
) -> Option<Advice>
    requires { TrialsFit circuit.now.library.now circuit.now.netlist.now numbers.now tried.old barred.now × InRange l }
    ensures { ((cells : List Cell) (ss : List Netlist.Statement) (forbidden : List ℕ)
        → Stands circuit.now.library.now circuit.now.netlist.now numbers.now cells ss
        → Barred forbidden barred.now → Considered cells ss forbidden l found result)
        × (tried.new ≡ numbers.now) }
{
    if may_pad(circuit.netlist, barred, l) {
        let left = try_line(circuit, numbers, tried, l);
        better(found, l, left.largest)
    } else {
        found
    }
}

// The best of all allowed lines, from the highest down.
fn choose(
    circuit: &Circuit,
    numbers: &[u32; sizes::NUMBERS],
    tried: &mut [u32; sizes::NUMBERS],
    barred: &[bool; sizes::LINE_PLACES],
) -> Option<Advice>
    requires { TrialsFit circuit.now.library.now circuit.now.netlist.now numbers.now tried.old barred.now }
    ensures { (cells : List Cell) (ss : List Netlist.Statement) (forbidden : List ℕ)
        → Stands circuit.now.library.now circuit.now.netlist.now numbers.now cells ss
        → Barred forbidden barred.now → result ≡ advice cells ss forbidden }
{
    let mut found = None;
    for l in (1..sizes::LINE_PLACES as u32).rev() {
        found = consider(circuit, numbers, tried, barred, found, l);
    }
    found
}

// ---- the ranks

// Lays the four numbers of a line. The table stays a slice whose length is asked for: it may be longer, and its front as an
// array would be an optional reference (pads/narrow).
fn put_rank(table: &mut [u32], l: u32, nevers: u32, overs: u32, largest: u32, total: u32)
    requires { (1 ≤ l) × (l ≤ Size.lines) × (Size.ranks ≤ length table.old) }
    ensures { table.new ≡ sets table.old ((l - 1) * Size.rank_words)
        (rank_words (record { nevers = nevers; overs = overs; largest = largest; total = total })) }
{
    let at = (l as usize - 1) * sizes::RANK_WORDS;
    table[at] = nevers;
    table[at + 1] = overs;
    table[at + 2] = largest;
    table[at + 3] = total;
}

// The rank of a line; how many lines are allowed with it, below those that were tried.
fn rank_line(
    circuit: &Circuit,
    numbers: &[u32; sizes::NUMBERS],
    tried: &mut [u32; sizes::NUMBERS],
    barred: &[bool; sizes::LINE_PLACES],
    table: &mut [u32],
    count: usize,
    l: u32,
) -> usize
    requires { TrialsFit circuit.now.library.now circuit.now.netlist.now numbers.now tried.old barred.now × InRange l
        × (Size.ranks ≤ length table.old) × (count < Size.lines) }
    ensures { ((cells : List Cell) (ss : List Netlist.Statement) (forbidden : List ℕ)
        → Stands circuit.now.library.now circuit.now.netlist.now numbers.now cells ss
        → Barred forbidden barred.now
        → LineRanked cells ss forbidden l count table.old table.new result)
        × (tried.new ≡ numbers.now) }
{
    if may_pad(circuit.netlist, barred, l) {
        let left = try_line(circuit, numbers, tried, l);
        put_rank(table, l, left.nevers, left.overs, left.figure, left.total);
        count + 1
    } else {
        put_rank(table, l, NEVER, NEVER, NEVER, NEVER);
        count
    }
}

// The ranks of all lines, from the highest down; how many are allowed.
fn rank_lines(
    circuit: &Circuit,
    numbers: &[u32; sizes::NUMBERS],
    tried: &mut [u32; sizes::NUMBERS],
    barred: &[bool; sizes::LINE_PLACES],
    table: &mut [u32],
) -> usize
    requires { TrialsFit circuit.now.library.now circuit.now.netlist.now numbers.now tried.old barred.now
        × (Size.ranks ≤ length table.old) }
    ensures { (cells : List Cell) (ss : List Netlist.Statement) (forbidden : List ℕ)
        → Stands circuit.now.library.now circuit.now.netlist.now numbers.now cells ss
        → Barred forbidden barred.now
        → AllRanked cells ss forbidden table.old table.new result }
{
    let mut count = 0;
    for l in (1..sizes::LINE_PLACES as u32).rev() {
        count = rank_line(circuit, numbers, tried, barred, table, count, l);
    }
    count
}

// ---- from the tables of what was read

// The links, and the numbers of the analysis, inputs at the low end of their ranges.
fn analyse(
    library: &[u32],
    netlist: &[u32],
    links: &mut [sizes::Link; sizes::LINKS],
    numbers: &mut [u32; sizes::NUMBERS],
)
    requires { Holding library.now netlist.now × (links.old ≡ replicate Size.links 0) }
    ensures linked { Links library.now netlist.now links.new }
    ensures stands { (cells : List Cell) (ss : List Netlist.Statement)
        → Holds library.now netlist.now cells ss
        → Stands library.now netlist.now numbers.new cells ss }
{
    link(library, netlist, links);
    let _counts = calculate(library, netlist, numbers, LOW);
}

// The advice over the tables of what was read.
pub fn advise_on(library: &[u32], netlist: &[u32], forbidden: &[u32]) -> Option<Advice>
    requires { Holding library.now netlist.now }
    ensures { (cells : List Cell) (ss : List Netlist.Statement)
        → Holds library.now netlist.now cells ss
        → result ≡ advice cells ss forbidden.now }
{
    let mut links: [sizes::Link; sizes::LINKS] = [0; sizes::LINKS];
    let mut numbers = [0u32; sizes::NUMBERS];
    analyse(library, netlist, &mut links, &mut numbers);
    let circuit = Circuit {
        library,
        netlist,
        links: &links,
    };
    let mut barred = [false; sizes::LINE_PLACES];
    bar_all(&mut barred, forbidden);
    let mut tried = [0u32; sizes::NUMBERS];
    hand_over(&numbers, &mut tried);
    choose(&circuit, &numbers, &mut tried, &barred)
}

// The ranks over them; how many lines are allowed.
pub fn rank_on(library: &[u32], netlist: &[u32], forbidden: &[u32], table: &mut [u32]) -> usize
    requires { Holding library.now netlist.now × (Size.ranks ≤ length table.old) }
    ensures { (cells : List Cell) (ss : List Netlist.Statement)
        → Holds library.now netlist.now cells ss
        → AllRanked cells ss forbidden.now table.old table.new result }
{
    let mut links: [sizes::Link; sizes::LINKS] = [0; sizes::LINKS];
    let mut numbers = [0u32; sizes::NUMBERS];
    analyse(library, netlist, &mut links, &mut numbers);
    let circuit = Circuit {
        library,
        netlist,
        links: &links,
    };
    let mut barred = [false; sizes::LINE_PLACES];
    bar_all(&mut barred, forbidden);
    let mut tried = [0u32; sizes::NUMBERS];
    hand_over(&numbers, &mut tried);
    rank_lines(&circuit, &numbers, &mut tried, &barred, table)
}
