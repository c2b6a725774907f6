// Row lines, those of CC, CO, SC and SO: one walk over the fields behind a line's word, which stores the rows as it goes and
// weighs every cause that may refuse the line, by `groups`.
//
// For this crate: `read_rows`.
ghost use Rattle.std.specs.Prelude.{◌≡◌, ◌+◌, ◌≤◌, length};
ghost use Rattle.sizes.specs.Places.{group_place};
ghost use Rattle.sizes.specs.Sizes as Size;
ghost use Rattle.reading.specs.Cause.{refusal_number};
ghost use Rattle.text.specs.Lines.{fields, fields_from, same_bytes};
ghost use Rattle.library_table.specs.Layout.{first_group};
ghost use Rattle.library_table.specs.Library.{word_bytes};
ghost use Rattle.library_text.specs.Groups.{InTable};
ghost use Rattle.library_text.specs.Passes.{asked_of, none_passed, field_passed, field_stored, passed, stored};
ghost use Rattle.library_text.specs.Passes.{RowsRead};

use crate::Head;
use crate::groups::store::{put_row, put_rowless};
use crate::groups::{
    Asked, Passed, columns_of, depth_of, group_for, judged, marked, row_added, row_digits,
    rowless_added,
};
use library_table::cells::cell_place;
use library_table::{Before, Word};
use reading::Cause;
use text::fields::octal;
use text::{after, field, same};

// Whether a field is a word of an entry.
#[tactic(auto, unfolding(library_table::specs::Library::library_open))]
fn is_word(f: &[u8], word: Word) -> bool
    ensures { result ≡ same_bytes f.now (word_bytes word) }
{
    match word {
        Word::CC => same(f, b"CC"),
        Word::CO => same(f, b"CO"),
        Word::SC => same(f, b"SC"),
        Word::SO => same(f, b"SO"),
    }
}

// The first group of a word among the groups of a cell.
#[tactic(auto, unfolding(library_table::specs::Layout::first_group))]
fn first_group(word: Word) -> usize
    ensures { result ≡ first_group word }
{
    match word {
        Word::CC => sizes::CC_GROUP,
        Word::CO => sizes::CO_GROUP,
        Word::SC => sizes::SC_GROUP,
        Word::SO => sizes::SO_GROUP,
    }
}

// Where the groups of a word start in the table.
#[tactic(auto, using(library_table::proofs::Places::first_most))]
fn word_place(cell: u32, word: Word) -> usize
    ensures { result ≡ group_place cell (first_group word) }
{
    cell_place(cell) + sizes::GROUPS_AT + first_group(word) * sizes::GROUP_WORDS
}

// What a word asks of its line, for a cell of this heading and so many pins. The rows of CC and SC set the output, those of CO
// and SO observe a pin.
#[tactic(auto, unfolding(crate::specs::Passes::asked_of, crate::specs::Passes::setting, crate::specs::Passes::least_columns, library_table::specs::Library::library_open))]
fn asked_for(cell: u32, word: Word, head: Head) -> Asked
    requires { head.pins ≤ Size.pins }
    ensures { result ≡ asked_of cell head.heading word head.pins }
{
    let place = word_place(cell, word);
    let Head { pins, heading } = head;
    match word {
        Word::CC | Word::SC => Asked {
            place,
            groups: 2,
            excepts: true,
            heading,
            least: 1,
            limit: 2u32.pow(2 * pins),
        },
        Word::CO | Word::SO => Asked {
            place,
            groups: pins,
            excepts: false,
            heading,
            least: 2u32.pow(2 * pins + 2),
            limit: 2u32.pow(2 * pins + 3),
        },
    }
}

// A field judged, and stored where it is a row or a group without rows.
#[tactic(auto, unfolding(crate::specs::Passes::field_passed, crate::specs::Passes::field_stored, library_table::specs::Library::library_open))]
fn pass_field(table: &mut [u32], a: Asked, p: Passed, f: &[u8]) -> Passed
    requires { InTable a p }
    ensures judged { result ≡ field_passed a p f.now }
    ensures stores { table.new ≡ field_stored a p f.now table.old }
{
    if same(f, b"M") {
        return marked(p, Before::Join, p.bad || !p.before.may_join());
    }
    if same(f, b"Z") {
        let g = rowless_added(a, p);
        put_rowless(table, g.place);
        return g;
    }
    match octal(f, row_digits(a.heading)) {
        Some(x) => {
            let g = group_for(a, p);
            let columns = columns_of(a.heading, x);
            put_row(table, g.place, g.rows, depth_of(a.heading, x), columns);
            row_added(g, columns)
        }
        None => marked(p, p.before, true),
    }
}

// The fields of a line from a cursor on.
fn pass_fields(table: &mut [u32], line: &[u8], from: usize, a: Asked) -> Passed
    requires { (a.place ≤ Size.library + Size.cell_words) × (length line.now ≤ Size.text_bytes) }
    ensures judged { result ≡ passed a none_passed (fields_from line.now from) }
    ensures stores { table.new
        ≡ stored a none_passed (fields_from line.now from) table.old }
{
    let mut at = from;
    // Before the first field: the lowest columns are above those of every row.
    let mut p = Passed {
        before: Before::Word,
        groups: 0,
        rows: 0,
        place: 0,
        bad: false,
        rowless: false,
        longest: 0,
        most: 0,
        least: u32::MAX,
    };
    while at <= line.len() {
        let f = field(line, at);
        p = pass_field(table, a, p, f);
        at = after(line, at, f);
    }
    p
}

// Reads a row line into the table, or answers the cause that refuses it, that of the lowest number that holds.
pub fn read_rows(
    table: &mut [u32],
    line: &[u8],
    cell: u32,
    word: Word,
    head: Head,
) -> Result<(), Cause>
    requires { (cell ≤ Size.cells) × (head.pins ≤ Size.pins) × (length line.now ≤ Size.text_bytes) }
    ensures { RowsRead cell head.heading word head.pins (fields line.now)
        table.old table.new (refusal_number result) }
{
    let first = field(line, 0);
    if !is_word(first, word) {
        return Err(Cause::LibraryForm);
    }
    let from = after(line, 0, first);
    let a = asked_for(cell, word, head);
    let p = pass_fields(table, line, from, a);
    judged(a, p)
}
