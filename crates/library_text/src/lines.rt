// The lines of a library text one after another: what refuses each, and what each leaves in the table.
//
// For the crates above: `read_lines`, behind an entry that the caller has checked, into a table that holds no cell.
ghost use Rattle.std.specs.Prelude.{◌≡◌, List, ◌++◌, ◌≤◌, ◌<◌, length, drop};
ghost use Rattle.sizes.specs.Sizes as Size;
ghost use Rattle.reading.specs.Cause.{refusal_number};
ghost use Rattle.reading.specs.Refusal.{read};
ghost use Rattle.reading.specs.Answer.{answer_read, done_read};
ghost use Rattle.library_table.specs.Cells.{Cell};
ghost use Rattle.library_table.specs.Library.{heading_of, line_after, library};
ghost use Rattle.library_table.specs.declared.Wanted.TheVariants.{Rows as word_line, End as end_line};
ghost use Rattle.library_table.specs.Layout.{library_words};
ghost use Rattle.library_text.specs.Headers.{told, head_in, header_number};
ghost use Rattle.library_text.specs.Walk.{NoCells, within, StateFits, LineReads};

mod store;

use crate::Head;
use crate::lines::store::put_header;
use crate::rows::read_rows;
use library_table::cells::{count, find};
use library_table::{Heading, Wanted, Word};
use reading::{Cause, Refusal};
use table::put;
use text::fields::{decimal, is_name};
use text::{after, field, is_last, same};

const MOST_CELLS: u32 = sizes::CELLS as u32;

const MOST_PINS: u32 = sizes::PINS as u32;

// The entry that is being read: the line that it wants next, and what its Name line said.
#[derive(Clone, Copy)]
struct Entry {
    wanted: Wanted,
    head: Head,
}

// Where the reader stands: the cells read, and the entry that is being read, where it stands in one.
#[derive(Clone, Copy)]
struct State {
    cells: u32,
    entry: Option<Entry>,
}

// The heading that a field is.
#[tactic(auto, unfolding(crate::specs::Headers::told, library_table::specs::Library::library_open))]
fn heading_of(word: &[u8]) -> Option<Heading>
    ensures { told result ≡ heading_of word.now }
{
    if same(word, b"Name") {
        Some(Heading::Plain)
    } else if same(word, b"Name3") {
        Some(Heading::Deep)
    } else {
        None
    }
}

// What a name line of these fields says, where there are three.
#[tactic(auto, unfolding(crate::specs::Headers::told, crate::specs::Headers::head_in, crate::specs::Headers::head_of, text::specs::Numeral::numeral_read, reading::specs::Choice::pick))]
fn head_in(three: bool, word: &[u8], name: &[u8], digits: &[u8]) -> Option<Head>
    ensures { told result ≡ head_in three word.now name.now digits.now }
{
    if !(three && is_name(name)) {
        return None;
    }
    let heading = heading_of(word)?;
    let pins = decimal(digits)?;
    Some(Head { pins, heading })
}

// Whether a name and a count of pins may stand behind the cells of a table: else the cause of the lowest number that holds.
#[tactic(auto, unfolding(crate::specs::Headers::header_number, reading::specs::Cause::refusal_number, library_table::specs::Library::library_open))]
fn header_fits(table: &[u32], name: &[u8], pins: u32) -> Result<(), Cause>
    ensures { refusal_number result ≡ header_number name.now pins table.now }
{
    let n = count(table);
    if find(table, name) < n {
        return Err(Cause::NameUsed);
    }
    if MOST_PINS < pins {
        return Err(Cause::PinsBad);
    }
    if MOST_CELLS <= n {
        return Err(Cause::CellsMany);
    }
    Ok(())
}

fn name_line(line: &[u8], table: &mut [u32], cells: u32) -> Result<State, Cause>
    requires { cells ≤ Size.cells }
    ensures { LineReads (record { cells = cells; entry = None }) result line.now table.old table.new }
{
    let word = field(line, 0);
    let second = after(line, 0, word);
    let name = field(line, second);
    let third = after(line, second, name);
    let digits = field(line, third);
    let three = is_last(line, third, after(line, third, digits));
    let head = head_in(three, word, name, digits).ok_or(Cause::LibraryForm)?;
    header_fits(table, name, head.pins)?;
    put_header(table, cells, name, head);
    let wanted = Wanted::Rows(Word::CC);
    Ok(State {
        cells,
        entry: Some(Entry { wanted, head }),
    })
}

// The line that an entry wants behind a row line.
#[tactic(auto, unfolding(library_table::specs::Library::line_after))]
fn line_after(word: Word) -> Wanted
    ensures { result ≡ line_after word }
{
    match word {
        Word::CC => Wanted::Rows(Word::CO),
        Word::CO => Wanted::Rows(Word::SC),
        Word::SC => Wanted::Rows(Word::SO),
        Word::SO => Wanted::End,
    }
}

fn row_line(
    line: &[u8],
    table: &mut [u32],
    cells: u32,
    word: Word,
    head: Head,
) -> Result<State, Cause>
    requires { (cells ≤ Size.cells) × (head.pins ≤ Size.pins) × (length line.now ≤ Size.text_bytes) }
    ensures { LineReads (within cells (word_line word) head) result line.now table.old table.new }
{
    read_rows(table, line, cells, word, head)?;
    let wanted = line_after(word);
    Ok(State {
        cells,
        entry: Some(Entry { wanted, head }),
    })
}

fn end_line(line: &[u8], table: &mut [u32], cells: u32, head: Head) -> Result<State, Cause>
    requires { cells ≤ Size.cells }
    ensures { LineReads (within cells end_line head) result line.now table.old table.new }
{
    let f = field(line, 0);
    if !is_last(line, 0, after(line, 0, f)) || !same(f, b"End") {
        return Err(Cause::LibraryForm);
    }
    let cells = cells + 1;
    put(table, 0, cells);
    Ok(State { cells, entry: None })
}

// One line of the text, by what the reader stands in.
fn read_line(line: &[u8], table: &mut [u32], s: State) -> Result<State, Cause>
    requires { StateFits s × (length line.now ≤ Size.text_bytes) }
    ensures { LineReads s result line.now table.old table.new }
{
    let cells = s.cells;
    let Some(Entry { wanted, head }) = s.entry else {
        return name_line(line, table, cells);
    };
    match wanted {
        Wanted::Rows(word) => row_line(line, table, cells, word, head),
        Wanted::End => end_line(line, table, cells, head),
    }
}

// The lines of the text, into a table that holds no cell. What a refusal leaves is the caller's to clear.
pub fn read_lines(text: &[u8], table: &mut [u32]) -> Result<(), Refusal>
    requires { (length text.now ≤ Size.text_bytes) × NoCells table.old }
    ensures answered { answer_read result ≡ done_read (library text.now) }
    ensures filled { (cells : List Cell) → library text.now ≡ read cells
        → table.new ≡ library_words cells ++ drop Size.library table.old }
{
    let n = text.len();
    let mut at = 0;
    let mut number = 1;
    let mut s = State {
        cells: 0,
        entry: None,
    };
    while at < n {
        let l = text::line(text, at);
        if at + l.len() == n {
            return Err(Cause::LibraryForm.at(number));
        }
        s = read_line(l, table, s).map_err(|cause| cause.at(number))?;
        at = after(text, at, l);
        number += 1;
    }
    match s.entry {
        Some(_) => Err(Cause::LibraryForm.at(number)),
        None => Ok(()),
    }
}
