// Stores into the netlist table, each of what has been checked.
ghost use Rattle.std.specs.Prelude.{◌≡◌, ◌+◌, ◌*◌, ◌≤◌, min, set, take};
ghost use Rattle.std.proofs.lemmas.List.Edits.{sets};
ghost use Rattle.sizes.specs.Places.{gate_place, mention_place};
ghost use Rattle.sizes.specs.Sizes as Size;
ghost use Rattle.netlist_table.specs.Admission.{mention_all, gate_stored, range_stored, gate_added};

use netlist_table::RawStatement;
use netlist_table::gates::place_of;
use table::put;

pub fn mention(table: &mut [u32], l: u32)
    ensures { table.new ≡ set table.old (mention_place l) 1 }
{
    put(table, sizes::MENTIONS_AT + l as usize, 1);
}

// Mentions the lines of the pins that a gate has, of which the table has as many as stand in the array.
fn mention_pins(table: &mut [u32], pins: [u32; sizes::PINS], count: usize)
    ensures { table.new ≡ mention_all (take (min count Size.pins) pins) table.old }
{
    for l in &pins[..count.min(sizes::PINS)] {
        mention(table, *l);
    }
}

// Stores the lines of a gate's pins.
fn put_pins(table: &mut [u32], g: u32, pins: [u32; sizes::PINS])
    ensures { table.new ≡ sets table.old (gate_place g + 2) (take Size.pins pins) }
{
    let at = place_of(g as usize) + 2;
    for i in 0..sizes::PINS {
        put(table, at + i, pins[i]);
    }
}

// Stores a gate's numbers.
fn put_gate(table: &mut [u32], g: u32, cell: u32, line: u32, pins: [u32; sizes::PINS])
    ensures { table.new ≡ gate_stored g cell line pins table.old }
{
    let at = place_of(g as usize);
    put(table, at, cell);
    put(table, at + 1, line);
    put_pins(table, g, pins);
}

// Stores a gate behind those before it, and counts it. A netlist has at most as many gates as lines; in a table that holds none
// any count may stand, and the highest is followed by 0.
pub fn store_gate(table: &mut [u32], g: u32, s: RawStatement)
    ensures { table.new ≡ gate_added g s table.old }
{
    let l = s.line;
    let pins = s.pins;
    put(table, l as usize, 2);
    mention(table, l);
    mention_pins(table, pins, s.count);
    put_gate(table, g, s.cell, l, pins);
    put(table, 0, g.wrapping_add(1));
}

// A range as one number.
fn packed(low: u32, high: u32) -> u32
    requires { (low ≤ Size.most_price) × (high ≤ Size.most_price) }
    ensures { result ≡ low + Size.prices * high }
{
    low + sizes::PRICES * high
}

// Stores a range.
pub fn store_range(table: &mut [u32], l: u32, low: u32, high: u32)
    requires { (low ≤ Size.most_price) × (high ≤ Size.most_price) }
    ensures { table.new ≡ range_stored (record { line = l; low = low; high = high }) table.old }
{
    put(table, sizes::RANGES_AT + l as usize, packed(low, high));
    mention(table, l);
    put(table, sizes::RANGED_AT, 1);
}
