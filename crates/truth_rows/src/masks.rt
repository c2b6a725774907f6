// Conditions on the settings of the pins as the bits of a number, and terms as numbers in base 3
// (specs/Masks.antt).
ghost use Rattle.std.specs.Prelude.{Bool, map, ℕ, ◌≡◌, ◌^◌, ◌*◌, ◌+◌, ◌/◌, ◌%◌, ◌≤◌, ◌<◌, eqb};
ghost use Rattle.truth_tables.specs.Entries.{term_columns};
ghost use Rattle.truth_rows.specs.Masks.{cover_mask, term_of, term_but, widened, implied, loose, prime_row, spread, number_of};
ghost use Rattle.truth_rows.specs.Masks.{mask_of, ask_at, changes_at, up_from};
ghost use Rattle.reading.specs.Choice.{pick};

use table::at_or;

// The mask of a term of one pin more, by that of the others and the pin's digit.
#[tactic(auto, unfolding(crate::specs::Masks::widened))]
fn widened(mask: u32, wide: u32, digit: u32) -> u32
    requires { (mask < wide) × (wide ≤ 256) }
    ensures { result ≡ widened mask wide digit }
{
    match digit {
        0 => mask + mask * wide,
        1 => mask * wide,
        _ => mask,
    }
}

// The digit of a pin in what is left of a row: none where the pin is the one that is dropped.
#[tactic(auto, unfolding(reading::specs::Choice::pick))]
fn digit(rest: u32, i: usize, free: usize) -> u32
    ensures { result ≡ pick (eqb i free) 0 (rest % 3) }
{
    if i == free { 0 } else { rest % 3 }
}

// The settings that meet a row's term, with one pin dropped: the one that has `free` pins behind it.
fn cover(pins: usize, row: u32, free: usize) -> u32
    requires { pins ≤ 4 }
    ensures { result ≡ cover_mask pins (term_but free pins row) }
{
    let mut mask = 1;
    let mut wide = 2;
    let mut rest = row;
    for i in 0..pins {
        mask = widened(mask, wide, digit(rest, i, free));
        wide *= wide;
        rest /= 3;
    }
    mask
}

// Whether every setting of a mask is wanted.
#[tactic(auto, unfolding(crate::specs::Masks::implied))]
fn implied(wanted: u32, cover: u32) -> bool
    ensures { result ≡ implied wanted cover }
{
    cover & wanted == cover
}

// Whether a pin, of this digit, is named and can be dropped.
#[tactic(auto, unfolding(crate::specs::Masks::loose))]
fn loose(wanted: u32, pins: usize, row: u32, digit: u32, i: usize) -> bool
    requires { pins ≤ 4 }
    ensures { result ≡ loose wanted pins row digit i }
{
    digit != 0 && implied(wanted, cover(pins, row, i))
}

// Whether a row's term is a prime implicant.
pub fn is_prime(wanted: u32, pins: usize, row: u32) -> bool
    requires { pins ≤ 4 }
    ensures { result ≡ prime_row wanted pins row }
{
    if !implied(wanted, cover(pins, row, pins)) {
        return false;
    }
    let mut rest = row;
    for i in 0..pins {
        if loose(wanted, pins, row, rest % 3, i) {
            return false;
        }
        rest /= 3;
    }
    true
}

// The columns of a row's term.
fn columns(pins: usize, row: u32) -> u32
    requires { pins ≤ 4 }
    ensures { result ≡ term_columns (term_of pins row) }
{
    let mut sum = 0;
    let mut rest = row;
    for i in 0..pins {
        sum += (rest % 3) << (2 * i);
        rest /= 3;
    }
    sum
}

// The number that a row is written as.
pub fn number(base: u32, weight: u32, pins: usize, row: u32) -> u32
    requires { (base ≤ 4096) × (1 ≤ weight) × (weight ≤ 256) × (pins ≤ 4) }
    ensures { result ≡ number_of base weight pins row }
{
    let plain = columns(pins, row);
    base + 2 * (plain / weight * (4 * weight) + plain % weight)
}

// Whether the output at a place, that of a setting of the other pins, changes when the pin of a weight does.
#[tactic(auto, unfolding(crate::specs::Masks::changes_at))]
pub fn changes(bits: &[u8], weight: usize, j: usize) -> bool
    requires { (1 ≤ weight) × (weight ≤ 8) × (j ≤ 16) }
    ensures { result ≡ changes_at bits.now weight j }
{
    let low = j / weight * (2 * weight) + j % weight;
    at_or(bits, low, 0) != at_or(bits, low + weight, 0)
}

// The settings, of so many, of which a test of their places holds.
pub fn passing<F: Fn(usize) -> bool>(count: usize, test: F) -> u32
    requires few { count ≤ 16 }
    requires may_call { (j : ℕ) → j < count → F.pre test j }
    ensures { (p : ℕ → Bool) → ((j : ℕ) (b : Bool) → j < count → F.post test j b → b ≡ p j)
        → result ≡ mask_of (map p (up_from 0 count)) }
{
    let mut mask = 0;
    for j in (0..count).rev() {
        mask *= 2;
        if test(j) {
            mask += 1;
        }
    }
    mask
}

// The settings, of so many, of which it holds what is asked: with no weight that the output is a value, else that it changes
// when the pin of that weight does.
pub fn wanted(bits: &[u8], weight: usize, value: u8, count: usize) -> u32
    requires { (weight ≤ 8) × (count ≤ 16) }
    ensures { result ≡ mask_of (map (ask_at bits.now weight value) (up_from 0 count)) }
{
    if weight == 0 {
        return passing(count, |j| at_or(bits, j, 0) == value);
    }
    passing(count, |j| changes(bits, weight, j))
}
