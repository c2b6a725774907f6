// The library text read into the library table.
//
// Open to others, for every input: `read_library`.
//
// Modules: `groups`, the groups of a row line, and the cause that refuses it; `rows`, a row line; `lines`, the lines of a text
// one after another.
#![tactic(auto)]

mod groups;
pub mod lines;
mod rows;

ghost use Rattle.std.specs.Prelude.{◌≡◌, ◌≤◌, length};
ghost use Rattle.sizes.specs.Sizes as Size;
ghost use Rattle.reading.specs.Answer.{answer_read, done_read};
ghost use Rattle.library_text.specs.Entry.{read_library, library_left};
ghost use Rattle.library_table.specs.Library.{library};
ghost use Rattle.library_table.specs.Layout.{library_after};

use crate::lines::read_lines;
use library_table::Heading;
use reading::{Cause, Refusal};
use table::read_cleared;

// What the Name line of an entry says, apart from the name.
#[derive(Clone, Copy)]
struct Head {
    pins: u32,
    heading: Heading,
}

// Behind the entry: the table is cleared before the first line, and whole where a line is refused.
fn fill(text: &[u8], table: &mut [u32]) -> Result<(), Refusal>
    requires { (length text.now ≤ Size.text_bytes) × (Size.library ≤ length table.old) }
    ensures answered { answer_read result ≡ done_read (library text.now) }
    ensures leaves { table.new ≡ library_after (library text.now) table.old }
{
    read_cleared(table, sizes::LIBRARY, |table| read_lines(text, table))
}

// Reads a library text into a table. Refusals 1 and 2, at line 0, leave the table as it was; any other leaves it all 0.
pub fn read_library(text: &[u8], table: &mut [u32]) -> Result<(), Refusal>
    ensures answered { answer_read result ≡ done_read (read_library text.now (length table.old)) }
    ensures leaves { table.new ≡ library_left text.now table.old }
{
    if table.len() < sizes::LIBRARY {
        return Err(Cause::TableShort.at(0));
    }
    if sizes::TEXT_BYTES < text.len() {
        return Err(Cause::TextLong.at(0));
    }
    fill(text, table)
}
