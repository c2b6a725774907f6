// The netlist text, read into the netlist table: its lines one after the other, each a statement that
// `netlist_admission::admit` checks and stores, and behind them refusal 20.
//
// Open to others: `read_netlist`, which has no condition on its input: the library table may be any. For the crates above:
// `read_all`, behind an entry that the caller has checked, into a table that holds no statement.
//
// Module `statements`: the statement that a line says.
#![tactic(auto)]

mod statements;

ghost use Rattle.std.specs.Prelude.{◌≡◌, List, ◌≤◌, length};
ghost use Rattle.sizes.specs.Sizes as Size;
ghost use Rattle.text.specs.Lines.{fields};
ghost use Rattle.reading.specs.Cause.{refusal_number};
ghost use Rattle.reading.specs.Answer.{answer_read, done_read};
ghost use Rattle.library_table.specs.Cells.{Cell};
ghost use Rattle.library_table.specs.Layout.{CellsTold};
ghost use Rattle.netlist_table.specs.Netlist.{Statement, statement_of, text_statements, declared, netlist};
ghost use Rattle.netlist_table.specs.Layout.{NetlistHolds};
ghost use Rattle.netlist_table.specs.Admission.{Admits};
ghost use Rattle.netlist_table.specs.Sound.{Sound};
ghost use Rattle.netlist_text.specs.Reader.{netlist_entry, NoStatements, Fills, ReadsAs, ReadsNetlist};

use crate::statements::{declaring, statement_of};
use library_table::cells::told;
use netlist_admission::{admit, some_undeclared};
use netlist_table::Rules;
use reading::{Cause, Refusal};
use table::read_cleared;
use text::{after, line};

// ---- a line of text

fn read_line(rules: Rules, line: &[u8], library: &[u32], table: &mut [u32]) -> Result<(), Cause>
    ensures { (cells : List Cell) → CellsTold library.now cells
        → Admits cells (statement_of rules cells (fields line.now)) table.old
        (refusal_number result) table.new }
{
    let s = statement_of(rules, line, library);
    admit(table, library, s)
}

// ---- the text

// Reads the lines of a text against the cells of a library table.
fn read_lines(rules: Rules, text: &[u8], library: &[u32], table: &mut [u32]) -> Result<(), Refusal>
    requires { (length text.now ≤ Size.text_bytes) × NoStatements table.old }
    ensures { (cells : List Cell) → CellsTold library.now cells
        → Fills (text_statements rules cells text.now) table.old result table.new }
{
    let n = text.len();
    let mut at = 0;
    let mut number: usize = 1;
    while at < n {
        let l = line(text, at);
        let end = after(text, at, l);
        if n < end {
            return Err(Cause::NetlistForm.at(number));
        }
        read_line(rules, l, library, table).map_err(|cause| cause.at(number))?;
        at = end;
        number += 1;
    }
    Ok(())
}

// What comes behind the lines of a text: the new rules ask that each line read or marked is driven or open.
fn declare(rules: Rules, table: &[u32]) -> Result<(), Refusal>
    ensures { (cells : List Cell) (ss : List Statement) → Sound cells ss → NetlistHolds table.now ss
        → answer_read result ≡ done_read (declared rules ss) }
{
    if declaring(rules) && some_undeclared(table) {
        return Err(Cause::Undeclared.at(0));
    }
    Ok(())
}

// The lines of a text, and what comes behind them, into a table that holds no statement.
pub fn read_all(
    rules: Rules,
    text: &[u8],
    library: &[u32],
    table: &mut [u32],
) -> Result<(), Refusal>
    requires { (length text.now ≤ Size.text_bytes) × NoStatements table.old }
    ensures { (cells : List Cell) → CellsTold library.now cells
        → Fills (netlist rules cells text.now) table.old result table.new }
{
    read_lines(rules, text, library, table)?;
    declare(rules, table)
}

// Behind the entry: the table is cleared before the first line, and whole where the text is refused.
fn fill(rules: Rules, text: &[u8], library: &[u32], table: &mut [u32]) -> Result<(), Refusal>
    requires { (length text.now ≤ Size.text_bytes) × (Size.netlist ≤ length table.old) }
    ensures { (cells : List Cell) → CellsTold library.now cells
        → ReadsAs (netlist rules cells text.now) table.old result table.new }
{
    read_cleared(
        table,
        sizes::NETLIST,
        |table| read_all(rules, text, library, table),
    )
}

// The entry's two checks, by lengths.
fn entry(text: usize, library: usize, table: usize) -> Result<(), Refusal>
    ensures { answer_read result ≡ netlist_entry text library table }
{
    if library < sizes::LIBRARY || table < sizes::NETLIST {
        return Err(Cause::TableShort.at(0));
    }
    if sizes::TEXT_BYTES < text {
        return Err(Cause::TextLong.at(0));
    }
    Ok(())
}

// Reads a netlist text against the cells of a library table, into a table. A table that no library is read into is read as it
// stands, and one that counts more cells or pins than a library has, as none. A refusal at entry leaves the netlist table as it
// was, a later one leaves it zero.
pub fn read_netlist(
    rules: Rules,
    text: &[u8],
    library: &[u32],
    table: &mut [u32],
) -> Result<(), Refusal>
    ensures { ReadsNetlist rules text.now library.now table.old result
        table.new }
{
    entry(text.len(), library.len(), table.len())?;
    fill(rules, text, told(library), table)
}
