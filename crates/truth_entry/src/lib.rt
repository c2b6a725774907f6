// The generator of document 02, K6: one line `NAME,n,BITS`, a truth table, in; a library entry out.
//
// Open to others: `put_entry` and `put_printed`. They have no condition on their input; specs/Generated.antt says what a text
// comes to, `writer` what is answered, left and printed of it. What that is, in rows, is said by crate `truth_tables`.
//
// Module `printed`: the six lines of an entry.
#![tactic(auto)]

mod printed;

ghost use Rattle.std.specs.Prelude.{◌&&◌, true, ◌≡◌, length};
ghost use Rattle.std.proofs.Math.Option.{none};
ghost use Rattle.reading.specs.Choice.{pick};
ghost use Rattle.reading.specs.Answer.{answer_read};
ghost use Rattle.text.specs.Numeral.{decimal, name_form, numeral_read};
ghost use Rattle.truth_tables.specs.Tables.{all_of};
ghost use Rattle.truth_rows.specs.Masks.{is_bit};
ghost use Rattle.writer.specs.Buffer.{left_by, shown, Writes, Prints};
ghost use Rattle.truth_entry.specs.Generated.{table_line, judged_into, generated, generated_into, Tells};
ghost use Rattle.truth_entry.specs.Bounded.{entry_room, LongBelow};

use crate::printed::put_cell;
use reading::{Cause, Refusal};
use text::fields::{decimal, is_name};
use text::{after, field, is_last, line};

const MOST_PINS: u32 = 4;

fn all_bits(bits: &[u8]) -> bool
    ensures { result ≡ all_of is_bit bits.now }
{
    bits.iter().all(|b| *b == b'0' || *b == b'1')
}

// The pins of the truth table that a line of these fields has, or why it has none.
fn pins_in(formed: bool, name: &[u8], digits: &[u8], bits: &[u8]) -> Result<usize, Cause>
    ensures { Tells (table_line formed name.now digits.now bits.now) name.now bits.now result }
{
    let good = formed & is_name(name) & all_bits(bits);
    if !good {
        return Err(Cause::LibraryForm);
    }
    let n = decimal(digits).ok_or(Cause::LibraryForm)?;
    if MOST_PINS < n {
        return Err(Cause::PinsBad);
    }
    if bits.len() != 2usize.pow(n) {
        return Err(Cause::LibraryForm);
    }
    Ok(n as usize)
}

// The entry of a line of these fields.
fn generate(
    entry: &mut [u8],
    formed: bool,
    name: &[u8],
    digits: &[u8],
    bits: &[u8],
) -> Result<usize, Refusal>
    ensures { Writes
        (judged_into (length entry.old)
        (table_line formed name.now digits.now bits.now))
        entry.old entry.new result }
{
    match pins_in(formed, name, digits, bits) {
        Ok(pins) => {
            let end = put_cell(entry, name, pins, bits);
            writer::close(entry, end, Cause::ReportLong.number())
        }
        Err(cause) => writer::refuse(entry, cause.at(1)),
    }
}

// The entry of a truth table, in the front of a lent buffer. Refusal 2 leaves the buffer as it was, every other one all zero;
// 17 needs a buffer of less than ENTRY_BYTES bytes.
pub fn put_entry(text: &[u8], entry: &mut [u8]) -> Result<usize, Refusal>
    ensures writes { Writes (generated_into text.now (length entry.old)) entry.old entry.new result }
    ensures long { LongBelow (length entry.old) (answer_read result) }
{
    if sizes::TEXT_BYTES < text.len() {
        return Err(Cause::TextLong.at(0));
    }
    let first = line(text, 0);
    let name = field(first, 0);
    let second = after(first, 0, name);
    let digits = field(first, second);
    let third = after(first, second, digits);
    let bits = field(first, third);
    let whole = first.len() + 1 == text.len();
    let formed = whole & is_last(first, third, after(first, third, bits));
    generate(entry, formed, name, digits, bits)
}

// The program's buffer: longer than every entry.
pub const ENTRY_BYTES: usize = 8192;

// What the program prints of a text: the entry, or the refusal, in the front of a buffer that is long enough for every entry.
pub fn put_printed(text: &[u8], entry: &mut [u8; ENTRY_BYTES]) -> usize
    ensures { Prints entry_room (shown (generated text.now))
        (left_by (generated text.now) entry.old) entry.new result }
{
    let written = put_entry(text, entry);
    writer::show(entry, written)
}
