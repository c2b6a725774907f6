// The text of a truth table's entry, line by line; module `rows`: the rows of a group, found and printed.
//
// For this crate: `put_cell`, of a truth table of few pins. Crate `truth_tables` says what the text is.
mod rows;

ghost use Rattle.std.specs.Prelude.{◌∷◌, map, ℕ, ◌≡◌, ◌≤◌, ◌<◌};
ghost use Rattle.writer.specs.Put.{Put, Puts};
ghost use Rattle.library_table.specs.Cells.{Group};
ghost use Rattle.truth_tables.specs.Entries.{cell_of, line_bytes, name_bytes, entry_bytes};
ghost use Rattle.truth_rows.specs.declared.Asked.{Asked};
ghost use Rattle.truth_rows.specs.Masks.{is_one, up_from, Bits};
ghost use Rattle.truth_rows.specs.Asked.{AsksFor, Small};
ghost use Rattle.truth_entry.specs.Printed.{rows_bytes};

use crate::printed::rows::put_rows;
use truth_rows::{Asked, of_pin, of_value};
use writer::bytes::Cursor;

// A group behind its comma.
fn put_group(entry: &mut Cursor, asked: Asked)
    requires { Small asked }
    ensures { Puts (44 ∷ rows_bytes asked) entry.old entry.new }
{
    entry.put_byte(b',');
    put_rows(entry, asked);
}

// A line of so many groups, each by its place.
fn put_line<F: Fn(usize) -> Asked>(entry: &mut Cursor, word: &[u8], count: usize, group: F)
    requires may_call { (k : ℕ) → k < count → F.pre group k }
    requires small { (k : ℕ) (a : Asked) → k < count → F.post group k a → Small a }
    ensures { (g : ℕ → Group) → ((k : ℕ) (a : Asked) → k < count → F.post group k a → AsksFor a (g k))
        → Puts (line_bytes word.now (map g (up_from 0 count))) entry.old entry.new }
{
    entry.put_bytes(word);
    for k in 0..count {
        put_group(entry, group(k));
    }
    entry.put_byte(b'\n');
}

// The name line.
fn put_name(entry: &mut Cursor, name: &[u8], pins: usize)
    requires { pins ≤ 4 }
    ensures { Puts (name_bytes name.now pins) entry.old entry.new }
{
    entry.put_bytes(b"Name,");
    entry.put_bytes(name);
    entry.put_byte(b',');
    entry.put_decimal(pins as u32);
    entry.put_byte(b'\n');
}

// The six lines.
pub fn put_cell(entry: &mut [u8], name: &[u8], pins: usize, bits: &[u8]) -> usize
    requires { Bits pins bits.now }
    ensures { Put 0 (entry_bytes (cell_of name.now pins (map is_one bits.now)))
        entry.old entry.new result }
{
    let mut text = Cursor::new(entry);
    put_name(&mut text, name, pins);
    put_line(&mut text, b"CC", 2, |k| of_value(1, pins, bits, k == 1));
    put_line(&mut text, b"CO", pins, |k| of_pin(1, pins, bits, k));
    put_line(&mut text, b"SC", 2, |k| of_value(0, pins, bits, k == 1));
    put_line(&mut text, b"SO", pins, |k| of_pin(0, pins, bits, k));
    text.put_bytes(b"End\n");
    text.at
}
