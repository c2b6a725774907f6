// Two pins on one wire, document 02, K7: which gates have pins that share a line, and how their CC and
// SC rows are read.
//
// For the crates above: `tied`, whether a gate's rows are read so, which is asked once for each gate;
// `needs_both` and `once`, of a row of such a gate, which go "from one named column straight to the next by
// counting trailing zeros" (02, K4); `cell_both`, whether a cell is none of one wire.
// specs/Wires.antt says what each answers.
#![tactic(auto)]

ghost use Rattle.std.specs.Prelude.{not, ◌&&◌, ◌≡◌, ◌+◌, ◌*◌, ◌^◌, ◌≤◌, ◌<◌, length, get_or};
ghost use Rattle.sizes.specs.Sizes as Size;
ghost use Rattle.reading.specs.Choice.{pick};
ghost use Rattle.sweep_sums.specs.Gone.{columns_gone};
ghost use Rattle.library_table.specs.Cells.{bit};
ghost use Rattle.library_table.specs.Library.{any_of};
ghost use Rattle.calculation.specs.Ways.{both_values};
ghost use Rattle.sweep_wires.specs.Wires.{SettingRow, column_value, asks_for, asked_below, once_columns, both_columns};
ghost use Rattle.sweep_wires.specs.Wires.{read_before, shares_line, group_both, cell_both, tied_at};

use sweep_sums::bits::{lowest, others};
use table::word;

// Whether a column asks for a line at a value.
#[tactic(auto, unfolding(crate::specs::Wires::asks_for))]
fn asks(
    lines: &[u32; sizes::GATE_LINES],
    pins: usize,
    line: u32,
    value: usize,
    column: usize,
) -> bool
    requires { (pins ≤ Size.pins) × (column < 2 * pins) }
    ensures { result ≡ asks_for lines.now pins line value column }
{
    lines[pins - column / 2] == line && 1 - column % 2 == value
}

// Whether one of the columns that a row names asks for a line at a value.
fn any_asks(
    lines: &[u32; sizes::GATE_LINES],
    pins: usize,
    columns: u32,
    line: u32,
    value: usize,
) -> bool
    requires { SettingRow pins columns }
    ensures { result ≡ any_of (asks_for lines.now pins line value) (columns_gone columns) }
{
    let mut rest = columns;
    while rest != 0 {
        let column = lowest(rest) as usize;
        if asks(lines, pins, line, value, column) {
            return true;
        }
        rest = others(rest);
    }
    false
}

// A column by its bit.
fn bit_of(column: usize) -> u32
    requires { column < 32 }
    ensures { result ≡ 2 ^ column }
{
    1u32 << column
}

// Whether one of the columns that a row names below a column asks for that column's line at a value.
fn asked_below(
    lines: &[u32; sizes::GATE_LINES],
    pins: usize,
    columns: u32,
    value: usize,
    column: usize,
) -> bool
    requires { (pins ≤ Size.pins) × (column < 2 * pins) }
    ensures { result ≡ asked_below lines.now pins columns value column }
{
    let line = lines[pins - column / 2];
    any_asks(lines, pins, columns % bit_of(column), line, value)
}

// The bit of a column that is left, "once, at its lowest column".
#[tactic(auto, unfolding(reading::specs::Choice::pick))]
fn kept(lines: &[u32; sizes::GATE_LINES], pins: usize, columns: u32, column: usize) -> u32
    requires { (pins ≤ Size.pins) × (column < 2 * pins) }
    ensures { result ≡ pick (not (asked_below lines.now pins columns (column_value column) column))
        (2 ^ column) 0 }
{
    if asked_below(lines, pins, columns, 1 - column % 2, column) {
        0
    } else {
        bit_of(column)
    }
}

// The columns of a row that are left: "the same value of the same line through several pins is paid
// and written out once, at its lowest column".
pub fn once(lines: &[u32; sizes::GATE_LINES], pins: usize, columns: u32) -> u32
    requires { SettingRow pins columns }
    ensures { result ≡ once_columns lines.now pins columns }
{
    let mut left = 0;
    let mut rest = columns;
    while rest != 0 {
        let column = lowest(rest) as usize;
        left += kept(lines, pins, columns, column);
        rest = others(rest);
    }
    left
}

// Whether a row "needs 0 and 1 of one line".
pub fn needs_both(lines: &[u32; sizes::GATE_LINES], pins: usize, columns: u32) -> bool
    requires { SettingRow pins columns }
    ensures { result ≡ both_columns lines.now pins columns }
{
    let mut rest = columns;
    while rest != 0 {
        let column = lowest(rest) as usize;
        if asked_below(lines, pins, columns, column % 2, column) {
            return true;
        }
        rest = others(rest);
    }
    false
}

// Whether a pin before pin p reads its line, pins from 0 here.
#[tactic(auto, unfolding(crate::specs::Wires::read_before))]
fn read_before(lines: &[u32; sizes::GATE_LINES], p: usize) -> bool
    requires { p < Size.pins }
    ensures { result ≡ read_before lines.now p }
{
    (0..p).any(|q| lines[q + 1] == lines[p + 1])
}

// Whether two pins share a line.
#[tactic(auto, unfolding(crate::specs::Wires::shares_line))]
fn shares_line(lines: &[u32; sizes::GATE_LINES], pins: usize) -> bool
    requires { pins ≤ Size.pins }
    ensures { result ≡ shares_line lines.now pins }
{
    (0..pins).any(|p| read_before(lines, p))
}

// Whether a row names a column.
#[tactic(auto, unfolding(library_table::specs::Cells::bit))]
fn names(columns: u32, column: usize) -> bool
    requires { column < 32 }
    ensures { result ≡ bit columns column }
{
    (columns >> column) % 2 == 1
}

// Whether a row names a column and the one above it.
fn names_two(columns: u32, column: usize) -> bool
    requires { column + 1 < 32 }
    ensures { result ≡ (bit columns (column + 1) && bit columns column) }
{
    names(columns, column + 1) && names(columns, column)
}

// Whether a row names both values of one pin.
fn both_values(pins: usize, columns: u32) -> bool
    requires { pins ≤ Size.pins }
    ensures { result ≡ both_values pins pins columns }
{
    (0..pins).any(|i| names_two(columns, 2 * (pins - (i + 1))))
}

// The columns of a row of a group, in the library table.
fn row_columns(library: &[u32], group: usize, row: usize) -> u32
    requires { (group ≤ length library.now) × (row < 2 ^ 32) }
    ensures { result ≡ get_or library.now (group + 1 + Size.row_words * row + 1) 0 }
{
    word(library, group + 1 + sizes::ROW_WORDS * row + 1)
}

// Whether a row of a group names both values of one pin.
#[tactic(auto, unfolding(crate::specs::Wires::group_both))]
fn group_both(library: &[u32], pins: usize, group: usize) -> bool
    requires { (pins ≤ Size.pins) × (group ≤ length library.now) }
    ensures { result ≡ group_both library.now pins group }
{
    let rows = word(library, group) as usize;
    (0..rows).any(|row| both_values(pins, row_columns(library, group, row)))
}

// Whether a row of a cell does, the cell at a place of the library table.
#[tactic(auto, unfolding(crate::specs::Wires::cell_both))]
pub fn cell_both(library: &[u32], pins: usize, cell: usize) -> bool
    requires { (pins ≤ Size.pins) × (cell + Size.cell_words ≤ length library.now) }
    ensures { result ≡ cell_both library.now pins cell }
{
    let first = cell + sizes::GROUPS_AT;
    (0..sizes::GROUPS).any(|group| group_both(library, pins, first + group * sizes::GROUP_WORDS))
}

// Whether the rows of a gate are read as those of one wire.
#[tactic(auto, unfolding(crate::specs::Wires::tied_at))]
pub fn tied(library: &[u32], cell: usize, lines: &[u32; sizes::GATE_LINES], pins: usize) -> bool
    requires { (pins ≤ Size.pins) × (cell + Size.cell_words ≤ length library.now) }
    ensures { result ≡ tied_at library.now cell lines.now pins }
{
    shares_line(lines, pins) && !cell_both(library, pins, cell)
}
