// A record of a netlist: taken apart into plain numbers, and checked and stored by `netlist_admission::admit`, as a line of a
// text is.
//
// Open to others: the type `Record`, which `analysis_records` hands on. For the crates above: `step`, one record of a list
// (specs/Steps.antt); specs/Records.antt has which statement a record is.
ghost use Rattle.std.specs.Prelude.{◌≡◌, ◌≤◌, length};
ghost use Rattle.sizes.specs.Sizes as Size;
ghost use Rattle.netlist_table.specs.Netlist.{any_line_bad};
ghost use Rattle.netlist_table.specs.Admission.{StandsFor};
ghost use Rattle.analysis_records.specs.Records.{all_zero, pins_before, record_form};
ghost use Rattle.analysis_records.specs.Steps.{Checked, Stepped};

use analysis_texts::Stop;
use netlist_admission::{admit, mark};
use netlist_table::{RawStatement, line_bad};
use reading::Refusal;

// "kind (0 input, 1 output, 2 gate), cell index (from 0 in library order), line, eight pins, 0 after
// the last." "In record lists, kind 3 is open." (K5)
#[derive(Clone, Copy)]
pub struct Record {
    pub kind: u32,
    pub cell: u32,
    pub line: u32,
    pub pins: [u32; sizes::PINS],
}

const GATE: u32 = 2;

// Kinds below this one are known.
const KINDS: u32 = 4;

// How many pins stand before the first 0. That there are eight in all is said for a caller that has
// them from a struct.
fn pins_before(pins: [u32; sizes::PINS]) -> usize
    ensures { (result ≡ length (pins_before pins)) × (result ≤ Size.pins) × (length pins ≡ Size.pins) }
{
    pins.iter().position(|&pin| pin == 0).unwrap_or(sizes::PINS)
}

// Whether the pins are all 0.
fn all_zero(pins: &[u32]) -> bool
    ensures { result ≡ all_zero pins.now }
{
    pins.iter().all(|&pin| pin == 0)
}

// Whether a pin is out of range.
fn pins_bad(pins: &[u32]) -> bool
    ensures { result ≡ any_line_bad pins.now }
{
    pins.iter().any(|&l| line_bad(l))
}

// A record's statement over plain numbers, where it has good form.
fn take_apart(rec: Record) -> Option<RawStatement>
    ensures { StandsFor result (record_form rec) }
{
    let pins = rec.pins;
    let kind = rec.kind;
    if kind == GATE {
        let n = pins_before(pins);
        return all_zero(&pins[n..]).then_some(RawStatement {
            kind: GATE,
            cell: rec.cell,
            line: rec.line,
            pins,
            count: n,
            bad: pins_bad(&pins[..n]),
        });
    }
    let no_cell = rec.cell == 0;
    if KINDS <= kind || !no_cell || !all_zero(&pins) {
        return None;
    }
    Some(mark(kind, rec.line))
}

// Checks and stores one record, the place of which is its refusal's line.
fn check(table: &mut [u32], library: &[u32], place: usize, rec: Record) -> Result<(), Refusal>
    ensures { Checked library.now place rec table.old result table.new }
{
    admit(table, library, take_apart(rec)).map_err(|cause| cause.at(place))
}

// The same where the call was not stopped so far.
pub fn step(
    table: &mut [u32],
    library: &[u32],
    place: usize,
    so_far: Result<(), Stop>,
    rec: Record,
) -> Result<(), Stop>
    ensures { Stepped library.now place so_far rec table.old result table.new }
{
    so_far?;
    check(table, library, place, rec)?;
    Ok(())
}
