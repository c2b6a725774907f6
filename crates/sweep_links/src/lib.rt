// The links of a netlist, which are made once for all sweeps: which gates read a line, which gate drives
// it, and which gates have pins that are tied.
//
// For the crates above, each with what it asks (specs/Lines.antt): `link`, which makes them, in one
// array, and `is_tied`, which reads one. Module `awake` wakes gates by them.
#![tactic(auto)]

pub mod awake;
pub mod circuit;

ghost use Rattle.std.specs.Prelude.{true, false, List, ◌≡◌, ℕ, ◌+◌, ◌≤◌, ◌<◌, length, get_or};
ghost use Rattle.sizes.specs.Sizes as Size;
ghost use Rattle.netlist_table.specs.Gates.{gate_line, LinesStand};
ghost use Rattle.sweep_groups.specs.Tables.{gate_tied};
ghost use Rattle.sweep_links.specs.Lines.{Chained, Driven, Tied};
ghost use Rattle.sweep_links.specs.Lines.{LinkFits, Links, PartFits, GateFits, NoteFits, Kept};

use netlist_table::gates::unchecked;
use sweep_groups::cell_place;
use sweep_wires::tied;

// Line i of a gate, which has a place in the links.
fn line_of(netlist: &[u32], gate: usize, i: usize) -> usize
    requires { LinesStand netlist.now (gate + 1) × (i < Size.gate_lines) }
    ensures { (result ≡ gate_line netlist.now gate i) × (result ≤ Size.lines) }
{
    unchecked::line_of(netlist, gate, i)
}

// Puts each pin of a gate in front of those before it that read the same line. A gate has eight places, and a place
// without a pin has line 0; so the compiler needs no test between them.
fn chain_gate(netlist: &[u32], gate: usize, links: &mut [sizes::Link; sizes::LINKS])
    requires { GateFits netlist.now gate links.old }
    ensures chained { Chained netlist.now (gate + 1) links.new }
    ensures kept { Kept Size.readers_at Size.drivers_at links.old links.new }
{
    for i in 1..=sizes::PINS {
        let line = line_of(netlist, gate, i);
        let pin = gate * sizes::PINS + i;
        links[sizes::NEXT_AT + pin] = links[sizes::READERS_AT + line];
        links[sizes::READERS_AT + line] = pin as sizes::Link;
    }
}

// Lays the chains of the pins that read the same line, one gate after the other.
fn chain(netlist: &[u32], gates: usize, links: &mut [sizes::Link; sizes::LINKS])
    requires { PartFits Size.readers_at netlist.now gates links.old }
    ensures chained { Chained netlist.now gates links.new }
    ensures kept { Kept Size.readers_at Size.drivers_at links.old links.new }
{
    for gate in 0..gates {
        chain_gate(netlist, gate, links);
    }
}

// Notes for each line the gate that drives it, from 1; 0 where none does.
fn note_drivers(netlist: &[u32], gates: usize, links: &mut [sizes::Link; sizes::LINKS])
    requires { PartFits Size.drivers_at netlist.now gates links.old }
    ensures driven { Driven netlist.now gates links.new }
    ensures kept { Kept Size.drivers_at Size.tied_at links.old links.new }
{
    for gate in 0..gates {
        let line = line_of(netlist, gate, 0);
        links[sizes::DRIVERS_AT + line] = (gate + 1) as sizes::Link;
    }
}

// Notes for each gate whether its CC and SC rows are read as those of one wire.
fn note_tied(
    library: &[u32],
    netlist: &[u32],
    gates: usize,
    links: &mut [sizes::Link; sizes::LINKS],
)
    requires { NoteFits library.now netlist.now gates links.old }
    ensures tied { Tied library.now netlist.now gates links.new }
    ensures kept { Kept Size.tied_at Size.links links.old links.new }
{
    for gate in 0..gates {
        let cell = cell_place(netlist, gate);
        let pins = library[cell + sizes::PINS_AT] as usize;
        let lines = unchecked::lines_of(netlist, gate);
        links[sizes::TIED_AT + gate] = sizes::Link::from(tied(library, cell, &lines, pins));
    }
}

// Whether a gate's CC and SC rows are read as those of one wire.
pub fn is_tied(links: &[sizes::Link; sizes::LINKS], gate: usize) -> bool
    requires { gate < Size.gates }
    ensures { (library netlist : List ℕ) (gates : ℕ)
        → Tied library netlist gates links.now → gate < gates
        → result ≡ gate_tied library netlist gate }
{
    links[sizes::TIED_AT + gate] == 1
}

// Makes the links of a netlist in an array that is all 0.
pub fn link(library: &[u32], netlist: &[u32], links: &mut [sizes::Link; sizes::LINKS])
    requires { LinkFits library.now netlist.now links.old }
    ensures { Links library.now netlist.now links.new }
{
    let gates = unchecked::count(netlist);
    chain(netlist, gates, links);
    note_drivers(netlist, gates, links);
    note_tied(library, netlist, gates, links);
}
