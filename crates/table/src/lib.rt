// Tables of numbers that a caller lends: reading a number, storing one, clearing. A place past a
// table's end reads as 0 and stores nothing, so that no call needs a condition.
//
// Open to others: `word`, `put`, `clear`, `clear_bytes`, `used`. For the crates above: `at_or` and `put_at`, the same of
// elements of any type, and `read_cleared`, behind which a table is read whole or all 0. specs/Blocks.antt has the parts of
// which the layouts of the library and the netlist table are put together.
#![tactic(auto)]

ghost use Rattle.std.specs.Prelude.{List, ℕ, ◌≡◌, ◌+◌, ◌-◌, ◌≤◌, min, length, get_or, set, replicate, MatchResult};
ghost use Rattle.std.specs.Fn.{FnOnceTakesAtMut, FnOnceReturnsAtMut};
ghost use Rattle.table.specs.Blocks.{cleared, zeros, used};

// The element at a place, or what is answered past the end.
pub fn at_or<T: Copy>(items: &[T], at: usize, past: T) -> T
    ensures { result ≡ get_or items.now at past }
{
    // No `get`: the archive as WebAssembly takes no optional reference (pads/narrow).
    if at < items.len() { items[at] } else { past }
}

// Stores an element at a place; past the end nothing.
pub fn put_at<T: Copy>(items: &mut [T], at: usize, x: T)
    ensures { items.new ≡ set items.old at x }
{
    if at < items.len() {
        items[at] = x;
    }
}

pub fn word(table: &[u32], at: usize) -> u32
    ensures { result ≡ get_or table.now at 0 }
{
    at_or(table, at, 0)
}

pub fn put(table: &mut [u32], at: usize, x: u32)
    ensures { table.new ≡ set table.old at x }
{
    put_at(table, at, x);
}

// Sets the first n numbers to 0, or all of them where there are fewer.
#[tactic(auto, unfolding(crate::specs::Blocks::cleared))]
pub fn clear(table: &mut [u32], n: usize)
    ensures { table.new ≡ cleared n table.old }
{
    let end = n.min(table.len());
    table[..end].fill(0);
}

// Sets every byte to 0.
pub fn clear_bytes(buffer: &mut [u8])
    ensures { buffer.new ≡ replicate (length buffer.old) 0 }
{
    buffer.fill(0);
}

// Reads into a table: the first n numbers are cleared before, and all where what is read is refused.
pub fn read_cleared<E, F: FnOnce(&mut [u32]) -> Result<(), E>>(
    table: &mut [u32],
    n: usize,
    read: F,
) -> Result<(), E>
    requires { FnOnceTakesAtMut F.FnOnce read (cleared n table.old) }
    ensures { (filled : List ℕ) × FnOnceReturnsAtMut F.FnOnce read (cleared n table.old) result filled
        × MatchResult result (λ _. table.new ≡ filled) (λ _. table.new ≡ replicate (length table.old) 0) }
{
    clear(table, n);
    let answer = read(table);
    if answer.is_err() {
        table.fill(0);
    }
    answer
}

// Whether the eight numbers from a place on are all 0. Not `all`, which asks for one at a time: that takes twice as long.
fn zeros(table: &[u32], at: usize) -> bool
    requires { at + 8 ≤ length table.now }
    ensures { result ≡ zeros table.now at 8 }
{
    let mut all = true;
    for x in &table[at..at + 8] {
        all &= *x == 0;
    }
    all
}

// So many of the n numbers from a place on as stand in the table.
fn within(table: &[u32], from: usize, n: usize) -> usize
    ensures { result ≡ min n (length table.now - from) }
{
    n.min(table.len().saturating_sub(from))
}

// Those of them behind which whole eights are 0: eight are asked for at once.
fn used_by_eights(table: &[u32], from: usize, n: usize) -> usize
    requires { n ≤ length table.now - from }
    ensures { (result ≤ n) × (used table.now from n ≡ used table.now from result) }
{
    let odd = n % 8;
    // Not `rev().find`: see `used`.
    for k in (0..n / 8).rev() {
        let at = odd + 8 * k;
        if !zeros(table, from + at) {
            return at + 8;
        }
    }
    odd
}

// How many of the n numbers from a place on there are up to the last that is not 0.
pub fn used(table: &[u32], from: usize, n: usize) -> usize
    ensures { result ≡ used table.now from n }
{
    let end = used_by_eights(table, from, within(table, from, n));
    // Not `rev().find`: tried, and what it finds is told of no range that is walked backwards.
    for last in (0..end).rev() {
        if table[from + last] != 0 {
            return last + 1;
        }
    }
    0
}
