// The report of an analysis: its bytes from the numbers table, the lines that the netlist table
// mentions and the four sweep counts, put at a cursor of a buffer that the caller lends. What the bytes
// are is in specs/Report.antt, those of a call's arguments in specs/Arguments.antt, the laws are in
// proofs/Laws.antt. Whether a report is longer than its buffer is asked at its end (`writer::close`).
//
// Open to others: `put_report` and `put_high`, for every input.
#![tactic(auto)]

ghost use Rattle.std.specs.Prelude.{◌≡◌, [], ◌∷◌, ◌++◌, ◌+◌, ◌<◌};
ghost use Rattle.sizes.specs.Sizes as Size;
ghost use Rattle.reading.specs.Choice.{pick};
ghost use Rattle.netlist_table.specs.Lines.{highest_mentioned};
ghost use Rattle.writer.specs.Decimal.{decimal_bytes};
ghost use Rattle.writer.specs.Put.{Put, Puts};
ghost use Rattle.report_text.specs.Report.{cost_bytes, costs_from, line_bytes, lines_bytes, sweeps_bytes, high_line};
ghost use Rattle.report_text.specs.Arguments.{marked, report_of};

use calculation::Counts;
use netlist_table::lines;
use writer::bytes::Cursor;

const COMMA: u8 = 44;

const LINE_END: u8 = 10;

const COSTS: u32 = sizes::COSTS as u32;

#[tactic(auto, unfolding(crate::specs::Report::cost_bytes, reading::specs::Choice::pick, text::specs::Bytes::bytes))]
fn put_cost(report: &mut Cursor, x: u32)
    ensures { Puts (cost_bytes x) report.old report.new }
{
    if cost::NEVER <= x {
        report.put_bytes(b"never");
    } else if x == cost::OVER {
        report.put_bytes(b"over");
    } else {
        report.put_decimal(x);
    }
}

// A line's costs from a place of the numbers table on, each behind a comma.
fn put_costs(report: &mut Cursor, numbers: &[u32], place: u32)
    ensures { Puts (costs_from numbers.now Size.costs place) report.old report.new }
{
    for k in 0..sizes::COSTS {
        report.put_byte(COMMA);
        put_cost(report, table::word(numbers, place as usize + k));
    }
}

// The line whose numbers are a row of the table: the rows count from 0, the lines from 1.
fn put_line(report: &mut Cursor, numbers: &[u32], row: u32)
    requires { row < Size.lines }
    ensures { Puts (line_bytes numbers.now (row + 1)) report.old report.new }
{
    report.put_decimal(row + 1);
    put_costs(report, numbers, row * COSTS);
    report.put_byte(LINE_END);
}

#[tactic(auto, using(writer::proofs::Steps::nothing_put), unfolding(crate::specs::Arguments::marked, reading::specs::Choice::pick))]
fn put_row(report: &mut Cursor, netlist: &[u32], numbers: &[u32], row: u32)
    requires { row < Size.lines }
    ensures { Puts (pick (marked netlist.now (row + 1)) (line_bytes numbers.now (row + 1)) []) report.old report.new }
{
    if lines::mentioned(netlist, row + 1) {
        put_line(report, numbers, row);
    }
}

// The highest line that the netlist table mentions.
fn last_line(netlist: &[u32]) -> u32
    ensures { result ≡ highest_mentioned netlist.now }
{
    lines::highest(netlist) as u32
}

// The lines that the netlist table mentions. Of those past the highest there is nothing to print, and they are not asked for.
fn put_lines(report: &mut Cursor, netlist: &[u32], numbers: &[u32])
    ensures { Puts (lines_bytes (marked netlist.now) numbers.now Size.lines 1) report.old report.new }
{
    for row in 0..last_line(netlist) {
        put_row(report, netlist, numbers, row);
    }
}

// A sweep count, and the byte behind it.
fn put_count(report: &mut Cursor, n: u32, behind: u8)
    ensures { Puts (decimal_bytes n ++ (behind ∷ [])) report.old report.new }
{
    report.put_decimal(n);
    report.put_byte(behind);
}

fn put_sweeps(report: &mut Cursor, sweeps: Counts)
    ensures { Puts (sweeps_bytes sweeps) report.old report.new }
{
    report.put_bytes(b"sweeps,");
    put_count(report, sweeps.cc, COMMA);
    put_count(report, sweeps.sc, COMMA);
    put_count(report, sweeps.co, COMMA);
    put_count(report, sweeps.so, LINE_END);
}

// The report of the lines that the netlist table mentions, at a place of a buffer; a place past a table's end counts
// as 0.
pub fn put_report(
    report: &mut [u8],
    at: usize,
    netlist: &[u32],
    numbers: &[u32],
    sweeps: Counts,
) -> usize
    ensures { Put at (report_of netlist.now numbers.now sweeps) report.old
        report.new result }
{
    let mut text = Cursor { buffer: report, at };
    text.put_bytes(b"line,cc0,cc1,sc0,sc1,co,so\n");
    put_lines(&mut text, netlist, numbers);
    put_sweeps(&mut text, sweeps);
    text.at
}

// "the second after a line `high`" (02, K10)
#[tactic(auto, using(writer::proofs::Steps::puts_lender), unfolding(crate::specs::Report::high_line, text::specs::Bytes::bytes))]
pub fn put_high(report: &mut [u8], at: usize) -> usize
    ensures { Put at high_line report.old report.new result }
{
    let mut text = Cursor { buffer: report, at };
    text.put_bytes(b"high\n");
    text.at
}
