// Stores into the library table: a row behind others of its group, and a group without rows.
ghost use Rattle.std.specs.Prelude.{◌≡◌, ◌≤◌};
ghost use Rattle.sizes.specs.Sizes as Size;
ghost use Rattle.library_text.specs.Groups.{farthest, row_put, rowless_put};

use table::put;

// A group of no row.
#[tactic(auto, unfolding(crate::specs::Groups::rowless_put))]
pub fn put_rowless(table: &mut [u32], place: usize)
    ensures { table.new ≡ rowless_put place table.old }
{
    put(table, place, 0);
}

// A row behind so many others of its group.
#[tactic(auto, unfolding(crate::specs::Groups::row_put))]
pub fn put_row(table: &mut [u32], place: usize, rows: u32, depth: u32, columns: u32)
    requires { (place ≤ farthest) × (rows ≤ Size.text_bytes) }
    ensures { table.new
        ≡ row_put place rows (record { depth = depth; columns = columns }) table.old }
{
    put(table, place, rows + 1);
    let at = place + 1 + 2 * (rows as usize);
    put(table, at, depth);
    put(table, at + 1, columns);
}
