// What a field of a line says: whether it has a name's form, and which number it is, in decimal or in octal.
//
// Open to other crates, each for every input: `is_name`, `decimal`, `octal`.
ghost use Rattle.std.specs.Prelude.{◌≡◌, ◌-◌, ◌^◌, ◌≤◌, ◌<◌, min, length};
ghost use Rattle.std.proofs.Math.Option.{some, none};
ghost use Rattle.reading.specs.Choice.{pick};
ghost use Rattle.text.specs.Numeral.{digit_below, all_digits, value, numeral, decimal, name_byte, name_form};
ghost use Rattle.text.specs.Numeral.{numeral_read};

use crate::{Class, class_of};

const ZERO: u8 = 48;

// The most digits that `octal` reads, so that the value fits.
const OCTAL_MOST: usize = 10;

#[tactic(auto, using(crate::proofs::FieldLaws::class_name), unfolding(crate::specs::Class::is_letter_or_digit))]
fn name_byte(b: u8) -> bool
    ensures { result ≡ name_byte b }
{
    matches!(class_of(b), Class::Digit | Class::Letter)
}

// Whether a field has a cell name's form.
pub fn is_name(f: &[u8]) -> bool
    ensures { result ≡ name_form f.now }
{
    if f.len() < 1 || sizes::NAME_BYTES < f.len() {
        return false;
    }
    f.iter().all(|b| name_byte(*b))
}

#[tactic(auto, using(crate::proofs::FieldLaws::class_digit_below), unfolding(crate::specs::Class::is_digit))]
fn digit_below(b: u8, base: u8) -> bool
    requires { base ≤ 10 }
    ensures { result ≡ digit_below base b }
{
    match class_of(b) {
        Class::Digit => b < ZERO + base,
        _ => false,
    }
}

// The value of a digit in place.
fn digit(b: u8) -> u32
    requires { 48 ≤ b }
    ensures { result ≡ b - 48 }
{
    u32::from(b - ZERO)
}

// The value of digits that are few enough for it to fit; bad form where a byte is no digit.
fn digits(f: &[u8], base: u8) -> Option<u32>
    requires { (0 < base) × (base ≤ 10) × (base ^ length f.now ≤ 2 ^ 32) }
    ensures { numeral_read result
        ≡ pick (all_digits base f.now) (some (value base 0 f.now)) none }
{
    let mut sum: u32 = 0;
    for b in f {
        if !digit_below(*b, base) {
            return None;
        }
        sum = sum * u32::from(base) + digit(*b);
    }
    Some(sum)
}

// A field read in a base, with so few digits that each value fits. `decimal` and `octal` are its two uses.
fn read(f: &[u8], base: u8, most: usize) -> Option<u32>
    requires { (0 < base) × (base ≤ 10) × (base ^ most ≤ 2 ^ 32) }
    ensures { numeral_read result ≡ numeral base most f.now }
{
    let n = f.len();
    if n < 1 || most < n || (1 < n && f[0] == ZERO) {
        return None;
    }
    digits(f, base)
}

// A decimal field.
#[tactic(auto, unfolding(crate::specs::Numeral::decimal))]
pub fn decimal(f: &[u8]) -> Option<u32>
    ensures { numeral_read result ≡ decimal f.now }
{
    read(f, 10, sizes::DECIMAL_DIGITS)
}

// An octal field of at most so many digits. A `most` above 10 counts as 10, so that the value fits.
pub fn octal(f: &[u8], most: usize) -> Option<u32>
    ensures { numeral_read result ≡ numeral 8 (min most 10) f.now }
{
    read(f, 8, most.min(OCTAL_MOST))
}
