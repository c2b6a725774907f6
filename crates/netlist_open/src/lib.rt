// What the program `scoap_open` prints of its texts, as bytes in a buffer that it lends: the copy of a netlist that
// the old rules accept, with `open,L` at its end for each line that is read or marked and has no driver (K5), or the
// refusal of the old rules.
//
// Open to others: `put_copy`. It has no condition on its input; specs/Copied.antt says what it promises.
#![tactic(auto)]

ghost use Rattle.std.specs.Prelude.{◌≡◌, [], ◌++◌, ◌≤◌};
ghost use Rattle.sizes.specs.Sizes as Size;
ghost use Rattle.reading.specs.Choice.{pick};
ghost use Rattle.writer.specs.Put.{Put, Puts};
ghost use Rattle.netlist_table.specs.Netlist.{lines_where};
ghost use Rattle.netlist_table.specs.Admission.{words_undeclared};
ghost use Rattle.netlist_open.specs.Copy.{open_line, open_lines};
ghost use Rattle.netlist_open.specs.Copied.{Copied};

use analysis_texts::{Tables, read_texts};
use netlist_admission::undeclared;
use netlist_table::Rules;
use writer::bytes::Cursor;

// The most bytes of a copy: those of a text, and a line `open,L` for each line.
pub const COPY_BYTES: usize = sizes::TEXT_BYTES + sizes::LINES * (6 + sizes::NUMBER_DIGITS);

const LINE_END: u8 = 10;

fn put_open(copy: &mut Cursor, l: u32)
    ensures { Puts (open_line l) copy.old copy.new }
{
    copy.put_bytes(b"open,");
    copy.put_decimal(l);
    copy.put_byte(LINE_END);
}

// The line of a text for a line that is read or marked, and neither driven nor open.
#[tactic(auto, using(writer::proofs::Steps::nothing_put), unfolding(reading::specs::Choice::pick))]
fn put_one(copy: &mut Cursor, netlist: &[u32], l: usize)
    requires { l ≤ Size.lines }
    ensures { Puts (pick (words_undeclared netlist.now l) (open_line l) []) copy.old copy.new }
{
    if undeclared(netlist, l) {
        put_open(copy, l as u32);
    }
}

// Those of all lines, ascending.
fn put_opens(copy: &mut Cursor, netlist: &[u32])
    ensures { Puts (open_lines (lines_where (words_undeclared netlist.now) Size.lines 1)) copy.old copy.new }
{
    for row in 0..sizes::LINES {
        put_one(copy, netlist, 1 + row);
    }
}

// The netlist byte for byte, and the lines behind it.
fn put_declared(copy: &mut [u8], net: &[u8], netlist: &[u32]) -> usize
    ensures { Put 0 (net.now ++ open_lines (lines_where (words_undeclared netlist.now) Size.lines 1))
        copy.old copy.new result }
{
    let mut text = Cursor::new(copy);
    text.put_bytes(net);
    put_opens(&mut text, netlist);
    text.at
}

// What `scoap_open` prints of a library and a netlist: the copy, or the refusal. Its tables are its own, and zero.
pub fn put_copy(lib: &[u8], net: &[u8], copy: &mut [u8; COPY_BYTES]) -> usize
    ensures { Copied lib.now net.now copy.old copy.new result }
{
    let mut library = [0u32; sizes::LIBRARY];
    let mut netlist = [0u32; sizes::NETLIST];
    let progress = read_texts(
        Rules::Old,
        lib,
        net,
        &mut library,
        &mut netlist,
        sizes::NUMBERS,
        Tables::Own,
    );
    match progress {
        Ok(()) => put_declared(copy, net, &netlist),
        Err(stop) => writer::show(copy, Err(stop.into())),
    }
}
