// The truth table that the rows of a group of value 1 tell: a setting gives 1 where it meets one of them.
ghost use Rattle.std.specs.Prelude.{◌≡◌, ◌^◌, ◌≤◌, take};
ghost use Rattle.sizes.specs.Sizes as Size;
ghost use Rattle.truth_cells.specs.Words.{farthest, admits, met_by, rows_at, met_at, bit_byte, truth_bytes};

use table::word;

const MOST_SETTINGS: usize = 16;

// Whether the columns of a pin, as a digit, let it have a value.
#[tactic(auto, unfolding(crate::specs::Words::admits, reading::specs::Choice::pick))]
fn admits(digit: u32, value: u32) -> bool
    ensures { result ≡ admits digit value }
{
    digit == 0 || digit == if value == 0 { 2 } else { 1 }
}

// Whether the setting at a place meets a row of these columns.
fn is_met(pins: usize, columns: u32, place: u32) -> bool
    requires { pins ≤ 4 }
    ensures { result ≡ met_by pins columns place }
{
    let mut rest = columns;
    let mut left = place;
    for i in (0..pins).rev() {
        let four = 4u32.pow(i as u32);
        let two = 2u32.pow(i as u32);
        if !admits(rest / four, left / two) {
            return false;
        }
        rest %= four;
        left %= two;
    }
    true
}

// How many rows a group has, at most as many as there is space for.
#[tactic(auto, unfolding(crate::specs::Words::rows_at))]
fn rows_at(library: &[u32], at: usize) -> usize
    ensures { (result ≡ rows_at library.now at) × (result ≤ Size.rows) }
{
    sizes::ROWS.min(word(library, at) as usize)
}

// Whether the setting at a place meets a row of the group.
fn is_one(library: &[u32], at: usize, pins: usize, place: u32) -> bool
    requires { (at ≤ farthest) × (pins ≤ 4) }
    ensures { result ≡ met_at library.now at pins place }
{
    (0..rows_at(library, at)).any(|row| is_met(pins, word(library, at + 2 + 2 * row), place))
}

// A value as a byte.
#[tactic(auto, unfolding(crate::specs::Words::bit_byte, truth_tables::specs::Tables::digit))]
fn byte_of(value: bool) -> u8
    ensures { result ≡ bit_byte value }
{
    if value { b'1' } else { b'0' }
}

// The truth table as bytes, "0" and "1", in the front of the array.
pub fn bits_of(library: &[u32], at: usize, pins: usize) -> [u8; MOST_SETTINGS]
    requires { (at ≤ farthest) × (pins ≤ 4) }
    ensures { take (2 ^ pins) result ≡ truth_bytes library.now at pins }
{
    let mut bits = [0u8; MOST_SETTINGS];
    for j in 0..2usize.pow(pins as u32) {
        bits[j] = byte_of(is_one(library, at, pins, j as u32));
    }
    bits
}
