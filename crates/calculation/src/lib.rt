// Goldstein's calculation, without code: what the numbers and the sweep counts are, which plans there
// are, and that the numbers are exact against them. Document 01, "Plans" and "Sweeps".
//
// specs/: Nodes (which number stands where), Ways (what a row of a cell means at a gate), Calculation,
// Settled and Plans are to be read against document 01. The laws that others cite are in
// proofs/Laws.antt.
//
// Open to others: the types `Counts` and `Advice`.
#![tactic(auto)]

// How many sweeps each of the four runs took.
#[derive(Clone, Copy)]
pub struct Counts {
    pub cc: u32,
    pub sc: u32,
    pub co: u32,
    pub so: u32,
}

// What the pad adviser says: a line that may be padded, and the largest CO that a pad on it leaves.
// specs/Advice.antt has what it says of which netlist; where no line may be padded there is none.
#[derive(Clone, Copy, PartialEq, Eq)]
pub struct Advice {
    pub line: u32,
    pub largest: u32,
}
