// Which gates are awake, so that a sweep visits only the gates for which something has changed.
//
// For the crates above, each with what it asks (specs/Turns.antt, specs/AwakeLines.antt): the set of turns
// that are awake, `all_awake`, `rest` and `next_awake`; and by the links of crate `sweep_links` the gates that
// read a line, `wake_readers`, and the gate that drives one, `wake_driver`.
//
// The set goes by the turns of a sweep, not by gates, so that the next turn is always a higher one.
// Where lines are set, gates go in netlist order: turn t is that of gate t, and `wake_readers` wakes
// the gates themselves. Where lines are observed, they go in reverse order: turn t is that of gate
// gates - 1 - t, and `wake_driver` wakes that turn of the gate.
ghost use Rattle.std.specs.Prelude.{List, ℕ, ◌+◌, ◌≤◌, ◌<◌, get_or};
ghost use Rattle.sizes.specs.Sizes as Size;
ghost use Rattle.sweep_links.specs.Turns.{AllAwake, Woken, Rested, NextAwake};
ghost use Rattle.sweep_links.specs.Lines.{Chained, Driven};
ghost use Rattle.sweep_links.specs.AwakeLines.{ReadersFit, ReadersWoken, DriverFits, DriverWoken};

// ---- the set

// Every turn awake.
pub fn all_awake() -> [u64; sizes::AWAKE_WORDS]
    ensures { AllAwake result }
{
    [0xffff_ffff_ffff_ffff; sizes::AWAKE_WORDS]
}

fn wake(awake: &mut [u64; sizes::AWAKE_WORDS], turn: usize)
    requires { turn < Size.gates }
    ensures { Woken turn awake.old awake.new }
{
    let at = turn / sizes::WORD_BITS;
    let bit = 1u64 << (turn % sizes::WORD_BITS);
    awake[at] |= bit;
}

pub fn rest(awake: &mut [u64; sizes::AWAKE_WORDS], turn: usize)
    requires { turn < Size.gates }
    ensures { Rested turn awake.old awake.new }
{
    let at = turn / sizes::WORD_BITS;
    let bit = 1u64 << (turn % sizes::WORD_BITS);
    awake[at] = (awake[at] | bit) ^ bit;
}

// The lowest awake turn not below `from`; where none is below `end`, one that is not. Where `from` itself is
// awake, as mostly in a first sweep, a test tells it: the processor goes on with that turn before it has
// the word, which a count of zeros would make it wait for.
pub fn next_awake(awake: &[u64; sizes::AWAKE_WORDS], from: usize, end: usize) -> usize
    requires { end ≤ Size.gates }
    ensures { NextAwake awake.now from end result }
{
    let mut at = from;
    while at < end {
        let rest = awake[at / sizes::WORD_BITS] >> (at % sizes::WORD_BITS);
        if rest % 2 == 1 {
            return at;
        }
        if rest != 0 {
            return at + u64::trailing_zeros(rest) as usize;
        }
        at = (at / sizes::WORD_BITS + 1) * sizes::WORD_BITS;
    }
    at
}

// ---- the gates that read a line

// Wakes every gate that has a line among its pins.
pub fn wake_readers(
    awake: &mut [u64; sizes::AWAKE_WORDS],
    links: &[sizes::Link; sizes::LINKS],
    line: usize,
)
    requires { ReadersFit links.now line }
    ensures { (netlist : List ℕ) (gates : ℕ) → Chained netlist gates links.now
        → ReadersWoken netlist gates line awake.old awake.new }
{
    let mut pin = links[sizes::READERS_AT + line] as usize;
    while pin != 0 {
        wake(awake, (pin - 1) / sizes::PINS);
        pin = links[sizes::NEXT_AT + pin] as usize;
    }
}

// ---- the gate that drives a line

// Wakes the gate that drives a line, if one does, by its turn in reverse order.
pub fn wake_driver(
    awake: &mut [u64; sizes::AWAKE_WORDS],
    links: &[sizes::Link; sizes::LINKS],
    gates: usize,
    line: usize,
)
    requires { DriverFits gates links.now line }
    ensures { (netlist : List ℕ) → Driven netlist gates links.now
        → DriverWoken netlist gates line awake.old awake.new }
{
    let gate = links[sizes::DRIVERS_AT + line] as usize;
    if gate != 0 {
        wake(awake, gates - gate);
    }
}
