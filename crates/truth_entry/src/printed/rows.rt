// The rows of a group, found and printed one by one, by descending value.
ghost use Rattle.writer.specs.Put.{Puts};
ghost use Rattle.truth_rows.specs.Asked.{Small};
ghost use Rattle.truth_entry.specs.Printed.{one_bytes, rows_bytes, Passed};

use truth_rows::Asked;
use truth_rows::masks::{is_prime, number};
use writer::bytes::Cursor;

// A row of the group: behind others, or as the first.
#[tactic(auto, unfolding(crate::specs::Printed::one_bytes))]
fn put_row(entry: &mut Cursor, any: bool, number: u32)
    ensures { Puts (one_bytes any number) entry.old entry.new }
{
    if any {
        entry.put_bytes(b",M,");
    }
    entry.put_octal(u64::from(number));
}

// A row, where it is prime; whether there is one then.
fn pass_row(entry: &mut Cursor, any: bool, asked: Asked, row: u32) -> bool
    requires { Small asked }
    ensures { Passed asked row any result entry.old entry.new }
{
    let pins = asked.pins;
    if !is_prime(asked.wanted, pins, row) {
        return any;
    }
    put_row(entry, any, number(asked.base, asked.weight, pins, row));
    true
}

// The rows of a group; the letter Z where there is none.
pub fn put_rows(entry: &mut Cursor, asked: Asked)
    requires { Small asked }
    ensures { Puts (rows_bytes asked) entry.old entry.new }
{
    let mut any = false;
    for row in (0..3u32.pow(asked.pins as u32)).rev() {
        any = pass_row(entry, any, asked, row);
    }
    if !any {
        entry.put_byte(b'Z');
    }
}
