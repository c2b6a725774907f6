// Of which netlists document 02, K8, speaks: whether what never says of the plans it also says of the chip.
// specs/Qualified.antt has what is answered, by the tables that an analysis leaves, and K8's theorems of the cells and
// statements that they hold.
//
// Open to others: `qualifies`. It has no condition.
#![tactic(auto)]

ghost use Rattle.std.specs.Prelude.{◌≡◌};
ghost use Rattle.netlist_table.specs.Gates.{gates_held};
ghost use Rattle.chip_call.specs.Qualified.{theorems_number, all_generated, Known, Judged, Qualified};

use chip_loops::{read_once, without_loops};
use netlist_table::gates::{cell_of, count};
use table::{at_or, put_at};
use truth_cells::is_generated;

// Which of K8's two theorems hold of a netlist.
#[derive(Clone, Copy, PartialEq, Eq)]
pub enum Theorems {
    // K8 says nothing of it.
    Neither,
    First,
    Both,
}

impl Theorems {
    // How many they are, which is the number for C.
    pub fn number(self) -> u32
        ensures { result ≡ theorems_number self }
    {
        match self {
            Self::Neither => 0,
            Self::First => 1,
            Self::Both => 2,
        }
    }
}

// Whether a cell is generated; one that was found to be is not looked at again.
fn judge(library: &[u32], cell: u32, known: &mut [bool]) -> bool
    requires { Known library.now known.old }
    ensures { Judged library.now cell known.new result }
{
    let place = cell as usize;
    if at_or(known, place, false) {
        return true;
    }
    if !is_generated(library, cell) {
        return false;
    }
    put_at(known, place, true);
    true
}

// Whether the cell of each gate is.
fn all_generated(library: &[u32], netlist: &[u32]) -> bool
    ensures { result ≡ all_generated library.now (gates_held netlist.now) }
{
    let mut known = [false; sizes::CELLS];
    // Not `all`: `judge` keeps what is known as it goes, and what a closure changes is not told.
    for gate in 0..count(netlist) {
        if !judge(library, cell_of(netlist, gate), &mut known) {
            return false;
        }
    }
    true
}

// Which of K8's theorems hold of the netlist.
pub fn qualifies(library: &[u32], netlist: &[u32]) -> Theorems
    ensures { Qualified library.now netlist.now (theorems_number result) }
{
    if !without_loops(netlist) {
        return Theorems::Neither;
    }
    if !all_generated(library, netlist) {
        return Theorems::Neither;
    }
    if read_once(netlist) {
        Theorems::Both
    } else {
        Theorems::First
    }
}
