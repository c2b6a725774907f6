// What a library table tells of its cells.
ghost use Rattle.std.specs.Prelude.{◌≡◌, ◌+◌, get_or};
ghost use Rattle.sizes.specs.Places.{cell_place, pins_place};
ghost use Rattle.library_table.specs.Layout.{bytes_at, name_at, found_at, cells_fit, TellsCells};

use table::word;

// Where a cell starts in the table.
pub fn cell_place(cell: u32) -> usize
    ensures { result ≡ cell_place cell }
{
    sizes::CELLS_AT + cell as usize * sizes::CELL_WORDS
}

// Whether these bytes stand in the table as a cell's name, a byte a number.
fn bytes_at(table: &[u32], cell: u32, name: &[u8]) -> bool
    ensures { result ≡ bytes_at name.now table.now (cell_place cell + 1) }
{
    let at = cell_place(cell) + 1;
    name.iter()
        .zip(at..at + name.len())
        .all(|(b, place)| u32::from(*b) == word(table, place))
}

// Whether a cell has this name.
fn name_at(table: &[u32], cell: u32, name: &[u8]) -> bool
    ensures { result ≡ name_at name.now table.now cell }
{
    word(table, cell_place(cell)) as usize == name.len() && bytes_at(table, cell, name)
}

// How many cells the table counts.
pub fn count(table: &[u32]) -> u32
    ensures { result ≡ get_or table.now 0 0 }
{
    word(table, 0)
}

// The place of a name among the cells, from 0; the count of cells where it is not among them. No `Option`: the call is open,
// with this number by equation, and a gate line keeps it until 11 is ruled out (docs/PROVED.md, D162).
pub fn find(table: &[u32], name: &[u8]) -> u32
    ensures { result ≡ found_at name.now table.now }
{
    let n = count(table);
    (0..n).find(|k| name_at(table, *k, name)).unwrap_or(n)
}

// The pins of a cell; of one past the table's end, 0.
pub fn pins_of(table: &[u32], cell: u32) -> u32
    ensures { result ≡ get_or table.now (pins_place cell) 0 }
{
    word(table, cell_place(cell) + sizes::PINS_AT)
}

// Whether the table counts no more cells, and no more pins of any, than a library has.
fn fit(table: &[u32]) -> bool
    ensures { result ≡ cells_fit table.now }
{
    let n = count(table);
    n as usize <= sizes::CELLS && (0..n).all(|k| pins_of(table, k) as usize <= sizes::PINS)
}

// A part of any table that tells of its cells: the table, or where it counts what no library has its empty front.
pub fn told(table: &[u32]) -> &[u32]
    ensures { TellsCells table.now result.now }
{
    if fit(table) { table } else { &table[..0] }
}
