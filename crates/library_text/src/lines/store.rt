// The store of a cell's header into the library table.
ghost use Rattle.std.specs.Prelude.{◌≡◌, ◌+◌, ◌≤◌, length};
ghost use Rattle.std.proofs.lemmas.List.Edits.{sets};
ghost use Rattle.sizes.specs.Sizes as Size;
ghost use Rattle.library_table.specs.Layout.{heading_number};
ghost use Rattle.library_text.specs.Headers.{header_put};

use crate::Head;
use library_table::cells::cell_place;
use table::put;

fn put_bytes(table: &mut [u32], at: usize, name: &[u8])
    requires { (at ≤ Size.library + 1) × (length name.now ≤ Size.name_bytes) }
    ensures { table.new ≡ sets table.old at name.now }
{
    for (i, b) in name.iter().enumerate() {
        put(table, at + i, u32::from(*b));
    }
}

// The name, the pins and the heading of a cell.
#[tactic(auto, unfolding(crate::specs::Headers::header_put))]
pub fn put_header(table: &mut [u32], cell: u32, name: &[u8], head: Head)
    requires { (cell ≤ Size.cells) × (length name.now ≤ Size.name_bytes) }
    ensures { table.new
        ≡ header_put cell name.now head.pins (heading_number head.heading) table.old }
{
    let at = cell_place(cell);
    put(table, at, name.len() as u32);
    put_bytes(table, at + 1, name);
    put(table, at + sizes::PINS_AT, head.pins);
    put(table, at + sizes::HEADING_AT, head.heading.number());
}
