// The rows of a truth table's groups, as a walk over rows in base 3 finds them: which are prime implicants of the
// group's condition, and the number that each is written as. Crate `truth_tables` says what they are.
//
// For the crates above, each of few pins: `of_value` and `of_pin` with the type `Asked` (specs/Asked.antt), and of module
// `masks` `is_prime` and `number` (specs/Masks.antt).
#![tactic(auto)]

pub mod masks;

ghost use Rattle.std.specs.Prelude.{true, map, ◌≡◌, ◌≤◌, ◌<◌};
ghost use Rattle.truth_tables.specs.Entries.{setting_group, observing_group};
ghost use Rattle.truth_rows.specs.Masks.{is_bit, is_one, Bits};
ghost use Rattle.truth_rows.specs.Asked.{AsksFor};

use crate::masks::{changes, passing};

// What is asked of a group's rows: the settings wanted, of so many pins; what every row has besides the columns of its term,
// and the weight of the two columns above which a pin is left out that is not named.
#[derive(Clone, Copy)]
pub struct Asked {
    pub wanted: u32,
    pub pins: usize,
    pub base: u32,
    pub weight: u32,
}

// The group of a value.
pub fn of_value(depth: u32, pins: usize, bits: &[u8], value: bool) -> Asked
    requires { Bits pins bits.now × (depth ≤ 1) }
    ensures { AsksFor result (setting_group depth pins (map is_one bits.now) value) }
{
    let byte = if value { b'1' } else { b'0' };
    Asked {
        wanted: passing(bits.len(), |j| bits[j] == byte),
        pins,
        base: depth,
        weight: 4u32.pow(pins as u32),
    }
}

// The group of the pin that stands behind k others: over the other pins. (Two functions, as each promises a group of its own:
// what they share is `passing`.)
pub fn of_pin(depth: u32, pins: usize, bits: &[u8], k: usize) -> Asked
    requires { Bits pins bits.now × (depth ≤ 1) × (k < pins) }
    ensures { AsksFor result (observing_group depth pins (map is_one bits.now) k) }
{
    let behind = pins - 1 - k;
    // The pin's weight in the place of a setting.
    let light = 1 << behind;
    Asked {
        wanted: passing(bits.len() / 2, |j| changes(bits, light, j)),
        pins: pins - 1,
        base: depth + 8 * 4u32.pow(pins as u32),
        weight: 4u32.pow(behind as u32),
    }
}
