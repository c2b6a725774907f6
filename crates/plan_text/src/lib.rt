// The cheapest way to set a line, written out: document 02, K3. One line of text for each node of the
// plan, `depth in tree,line,value,row`, parents before children.
//
// For the crates above: `put_cheapest`, over the tables of an accepted library and netlist.
// specs/PlanText.antt has the text of a plan, specs/Plan.antt which plan it is, that it is one in document
// 01's own sense and that it costs the number reported; specs/Writers.antt what the two writers put from
// the tables.
#![tactic(auto)]

ghost use Rattle.std.specs.Prelude.{◌≡◌, ◌+◌, ◌-◌, ◌/◌, ◌%◌, ◌^◌, ◌<◌};
ghost use Rattle.cost.specs.Kind.{kind_index};
ghost use Rattle.writer.specs.Put.{Puts};
ghost use Rattle.plan_text.specs.Asked.{Askable, PutWhere};
ghost use Rattle.plan_text.specs.PlanText.{node_line};
ghost use Rattle.plan_text.specs.Writers.{goal_at, goal_row, line_bytes, row_bytes};

use cost::Kind;
use plan_marks::trace;
use sweep_sums::bits::{lowest, others};
use table::word;
use writer::bytes::Cursor;

const COMMA: u8 = 44;

const LINE_END: u8 = 10;

// "The row is octal as its entry writes it, or `input`": no visit lowered an input's number.
fn put_row(out: &mut Cursor, visit: u32, row: u32)
    ensures { Puts (goal_row visit row) out.old out.new }
{
    if visit == 0 {
        out.put_bytes(b"input");
    } else {
        out.put_octal(row as u64);
    }
}

// "depth in tree,line,value,row"
fn put_node(out: &mut Cursor, depth: u32, goal: usize, visit: u32, row: u32)
    requires { goal < 2 ^ 33 }
    ensures { Puts (node_line depth (goal / 2) (goal % 2) (goal_row visit row)) out.old out.new }
{
    out.put_decimal(depth);
    out.put_byte(COMMA);
    out.put_decimal((goal / 2) as u32);
    out.put_byte(COMMA);
    out.put_decimal((goal % 2) as u32);
    out.put_byte(COMMA);
    put_row(out, visit, row);
    out.put_byte(LINE_END);
}

// Where the line of a column's pin stands in the netlist table, from that of the last pin back.
fn pin_place(last: u32, column: u32) -> usize
    ensures { result ≡ last - column / 2 }
{
    last.saturating_sub(column / 2) as usize
}

// What a column asks for: a line at a value, as twice the line and the value.
fn goal_at(netlist: &[u32], last: u32, column: u32) -> usize
    ensures { (result ≡ goal_at netlist.now last column) × (result < 2 ^ 33) }
{
    let line = word(netlist, pin_place(last, column));
    2 * line as usize + (1 - column % 2) as usize
}

// Writes a line at a value, if it was last lowered at a visit below `before`, as all that a row of the
// sweeps names: "Writing a line turns to writing its row". Past the buffer's end nothing is written, and
// the text is not followed further.
#[cycle(write_line_write_row)]
fn write_line(
    out: &mut Cursor,
    marks: &[u32; sizes::MARKS],
    netlist: &[u32],
    depth: u32,
    before: u32,
    goal: usize,
)
    requires { (depth + before < 2 ^ 32) × (goal < 2 ^ 33) }
    ensures { Puts (line_bytes marks.now netlist.now before depth goal) out.old out.new }
{
    let mark = goal * sizes::MARK_WORDS;
    let visit = word(marks, mark);
    if before <= visit {
        return;
    }
    if out.buffer.len() < out.at {
        return;
    }
    let columns = word(marks, mark + 2);
    let last = word(marks, mark + 3);
    let row = word(marks, mark + 1);
    put_node(out, depth, goal, visit, row);
    write_row(out, marks, netlist, depth + 1, visit, columns, last);
}

// ".. and a row to each line it names, lowest column first"
#[cycle(write_line_write_row)]
fn write_row(
    out: &mut Cursor,
    marks: &[u32; sizes::MARKS],
    netlist: &[u32],
    depth: u32,
    before: u32,
    columns: u32,
    last: u32,
)
    requires { depth + before < 2 ^ 32 }
    ensures { Puts (row_bytes marks.now netlist.now before depth last columns) out.old out.new }
{
    let mut rest = columns;
    while 0 < rest {
        let goal = goal_at(netlist, last, lowest(rest));
        write_line(out, marks, netlist, depth, before, goal);
        rest = others(rest);
    }
}

// Above the visit of every mark.
const ALL_VISITS: u32 = 4_294_967_295;

// Puts the cheapest way to set a line to a value at the buffer's start, from tables that hold an accepted
// library and netlist.
pub fn put_cheapest(
    library: &[u32],
    netlist: &[u32],
    text: &mut [u8],
    line: usize,
    value: usize,
    kind: Kind,
) -> usize
    requires { Askable library.now netlist.now line value (kind_index kind) }
    ensures { PutWhere library.now netlist.now line value (kind_index kind) text.old
        text.new result }
{
    let mut marks = [0u32; sizes::MARKS];
    trace(kind, library, netlist, &mut marks);
    let mut out = Cursor::new(text);
    write_line(
        &mut out,
        &marks,
        netlist,
        0,
        ALL_VISITS,
        line * sizes::VALUES + value,
    );
    out.at
}
