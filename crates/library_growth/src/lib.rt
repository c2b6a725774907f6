// Whether a library table has the entries of another and its rows, and only rows besides. Document 02,
// K14: calculation/specs/Growth.antt is what is asked.
//
// For the crates above: `grown_at`, of two tables that hold accepted cells. specs/Held.antt says what the
// other functions read out of a table.
#![tactic(auto)]

ghost use Rattle.std.specs.Prelude.{List, ◌≡◌, ◌^◌, ◌<◌, eqb, length, get_or};
ghost use Rattle.sizes.specs.Places.{group_place};
ghost use Rattle.sizes.specs.Sizes as Size;
ghost use Rattle.library_table.specs.Cells.{Cell};
ghost use Rattle.calculation.specs.Ways.{no_cell};
ghost use Rattle.calculation.specs.Growth.{same_row, keeps, pairwise, grown_cell, grown};
ghost use Rattle.library_growth.specs.Held.{entry_at, row_at, group_at, groups_at};
ghost use Rattle.library_growth.specs.Held.{HoldsCells, SomeCells, BothHave};

use library_table::cells::{cell_place, count, pins_of};
use sweep_wires::cell_both;
use table::word;

// Whether a cell has the same name, pins and heading in both tables.
fn same_entry(old: &[u32], new: &[u32], cell: u32) -> bool
    ensures { result ≡ pairwise eqb (entry_at old.now cell) (entry_at new.now cell) }
{
    let at = cell_place(cell);
    (0..sizes::GROUPS_AT).all(|i| word(old, at + i) == word(new, at + i))
}

// Whether the row at a place of the old table is the one at a place of the new.
#[tactic(auto, unfolding(calculation::specs::Growth::same_row, crate::specs::Held::row_at))]
fn same_row(old: &[u32], new: &[u32], row: usize, other: usize) -> bool
    requires { (row < 2 ^ 63) × (other < 2 ^ 63) }
    ensures { result ≡ same_row (row_at old.now row) (row_at new.now other) }
{
    word(old, row) == word(new, other) && word(old, row + 1) == word(new, other + 1)
}

// Whether the new group at a place has the rows of the old one there, in their order: each is looked for
// behind the one before it.
fn keeps_rows(old: &[u32], new: &[u32], at: usize) -> bool
    requires { at < 2 ^ 62 }
    ensures { result ≡ keeps (group_at old.now at) (group_at new.now at) }
{
    let rows = word(old, at) as usize;
    let others = word(new, at) as usize;
    let mut found = 0;
    for other in 0..others {
        if found == rows {
            return true;
        }
        let row = at + 1 + sizes::ROW_WORDS * found;
        if same_row(old, new, row, at + 1 + sizes::ROW_WORDS * other) {
            found += 1;
        }
    }
    found == rows
}

// Whether each group of a cell has the rows of the old one.
fn keeps_groups(old: &[u32], new: &[u32], cell: u32) -> bool
    ensures { result ≡ pairwise keeps (groups_at old.now cell) (groups_at new.now cell) }
{
    let at = cell_place(cell) + sizes::GROUPS_AT;
    (0..sizes::GROUPS).all(|group| keeps_rows(old, new, at + group * sizes::GROUP_WORDS))
}

// Whether a cell differs only by rows added, and did not lose the one-wire reading.
fn grown_cell(old: &[u32], new: &[u32], cell: u32) -> bool
    requires { BothHave old.now new.now cell }
    ensures { (cells more : List Cell) → HoldsCells old.now cells → HoldsCells new.now more
        → cell < length cells → cell < length more
        → result ≡ grown_cell (get_or cells cell no_cell) (get_or more cell no_cell) }
{
    if !same_entry(old, new, cell) {
        return false;
    }
    if !keeps_groups(old, new, cell) {
        return false;
    }
    let pins = pins_of(old, cell) as usize;
    let at = cell_place(cell);
    cell_both(old, pins, at) || !cell_both(new, pins, at)
}

// Whether a library "has the same entries in the same order and differs only by rows added to groups", and
// no cell loses the one-wire reading.
pub fn grown_at(old: &[u32], new: &[u32]) -> bool
    requires { SomeCells old.now × SomeCells new.now }
    ensures { (cells more : List Cell) → HoldsCells old.now cells → HoldsCells new.now more
        → result ≡ grown cells more }
{
    let n = count(old);
    if count(new) != n {
        return false;
    }
    // Not `all`: its closure would not know that both tables have the cell, which `grown_cell` requires.
    for cell in 0..n {
        if !grown_cell(old, new, cell) {
            return false;
        }
    }
    true
}
