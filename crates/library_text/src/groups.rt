// The groups of a row line, as they stand behind the fields passed so far: a row more, a group more, with its rows or with none;
// where they are stored, and the cause that refuses the line.
//
// For this crate: `Asked`, `Passed` and what changes them, `judged`, and of module `store` `put_row`, `put_rowless`.
ghost use Rattle.std.specs.Prelude.{◌≡◌, ◌+◌, ◌≤◌};
ghost use Rattle.sizes.specs.Sizes as Size;
ghost use Rattle.reading.specs.Cause.{refusal_number};
ghost use Rattle.library_table.specs.Cells.{row_of};
ghost use Rattle.library_table.specs.Library.{row_digits};
ghost use Rattle.library_text.specs.Groups.{marked, opened, group_for, row_added, rowless_added, number_of};
ghost use Rattle.library_text.specs.Groups.{InTable};

pub mod store;

use library_table::{Before, Heading};
use reading::Cause;

const MOST_ROWS: u32 = sizes::ROWS as u32;

// What a row line is asked for: where its groups start in the table, how many they are, whether a group without rows excepts
// the rows of the other from being idle, the heading by which rows are read, and what the columns of a row come to: at least
// `least` where the row is not idle, and below `limit`.
#[derive(Clone, Copy)]
pub struct Asked {
    pub place: usize,
    pub groups: u32,
    pub excepts: bool,
    pub heading: Heading,
    pub least: u32,
    pub limit: u32,
}

// The fields passed so far: what stands before the next one; the groups, the rows of the last of them and its place in the
// table; whether a field is out of place; whether a group has no row; the rows of the longest group, and the highest and the
// lowest columns of a row. `bad` is a flag, not an `Option` of the rest: `passed` of specs/Passes.antt says what the walk comes to
// behind a field that is out of place, too.
#[derive(Clone, Copy)]
pub struct Passed {
    pub before: Before,
    pub groups: u32,
    pub rows: u32,
    pub place: usize,
    pub bad: bool,
    pub rowless: bool,
    pub longest: u32,
    pub most: u32,
    pub least: u32,
}

// A field that is no row: what stands before the next one, and whether a field so far is out of place.
#[tactic(auto, unfolding(crate::specs::Groups::marked))]
pub fn marked(p: Passed, before: Before, bad: bool) -> Passed
    ensures { result ≡ marked p before bad }
{
    Passed { before, bad, ..p }
}

// One group more, of no row yet.
#[tactic(auto, unfolding(crate::specs::Groups::opened))]
fn opened(a: Asked, p: Passed) -> Passed
    requires { InTable a p }
    ensures { result ≡ opened a p }
{
    Passed {
        groups: p.groups + 1,
        rows: 0,
        place: a.place + p.groups as usize * sizes::GROUP_WORDS,
        ..p
    }
}

// The group that a row goes into: the open one where an M stands before the row, else a new one.
#[tactic(auto, unfolding(crate::specs::Groups::group_for, library_table::specs::Library::may_end, reading::specs::Choice::pick))]
pub fn group_for(a: Asked, p: Passed) -> Passed
    requires { InTable a p }
    ensures { result ≡ group_for a p }
{
    match p.before {
        Before::Join => p,
        _ => opened(a, p),
    }
}

// A new group that stays without a row.
#[tactic(auto, unfolding(crate::specs::Groups::rowless_added))]
pub fn rowless_added(a: Asked, p: Passed) -> Passed
    requires { InTable a p }
    ensures { result ≡ rowless_added a p }
{
    Passed {
        before: Before::Word,
        bad: p.bad || !p.before.may_end(),
        rowless: true,
        ..opened(a, p)
    }
}

// The most digits of a row, its depth and its columns, by the heading of its entry.
#[tactic(auto, unfolding(library_table::specs::Library::row_digits))]
pub fn row_digits(heading: Heading) -> usize
    ensures { result ≡ row_digits heading }
{
    match heading {
        Heading::Plain => sizes::ROW_DIGITS,
        Heading::Deep => sizes::DEEP_DIGITS,
    }
}

#[tactic(auto, unfolding(library_table::specs::Cells::row_of, library_table::specs::Cells::depth_bits))]
pub fn depth_of(heading: Heading, x: u32) -> u32
    ensures { result ≡ (row_of heading x).depth }
{
    x % heading.depths()
}

#[tactic(auto, unfolding(library_table::specs::Cells::row_of, library_table::specs::Cells::depth_bits))]
pub fn columns_of(heading: Heading, x: u32) -> u32
    ensures { result ≡ (row_of heading x).columns }
{
    x / heading.depths()
}

// One row more in the open group, by its columns.
#[tactic(auto, unfolding(crate::specs::Groups::row_added))]
pub fn row_added(p: Passed, columns: u32) -> Passed
    requires { p.rows ≤ Size.text_bytes }
    ensures { result ≡ row_added p columns }
{
    let rows = p.rows + 1;
    Passed {
        before: Before::Row,
        rows,
        longest: p.longest.max(rows),
        most: p.most.max(columns),
        least: p.least.min(columns),
        ..p
    }
}

// Whether the fields passed are a line's: else the cause of the lowest number that holds. An M that is the last field is out of
// place.
#[tactic(auto, unfolding(crate::specs::Groups::number_of, reading::specs::Cause::refusal_number, reading::specs::Choice::pick))]
pub fn judged(a: Asked, p: Passed) -> Result<(), Cause>
    ensures { refusal_number result ≡ number_of a p }
{
    if p.bad || !p.before.may_end() {
        return Err(Cause::LibraryForm);
    }
    if p.groups != a.groups || MOST_ROWS < p.longest {
        return Err(Cause::GroupsBad);
    }
    if a.limit <= p.most {
        return Err(Cause::BitAbove);
    }
    if !(a.excepts && p.rowless) && p.least < a.least {
        return Err(Cause::RowIdle);
    }
    Ok(())
}
