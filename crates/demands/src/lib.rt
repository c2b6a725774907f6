// What a call that analyses answers, and what it promises, whether it is lent the netlist as a text or as records.
// specs/Outcome.antt has what a call answers and leaves, specs/Demands.antt the three demands, specs/Printed.antt what
// `scoap` prints; proofs/Promise.antt shows that all demands follow from the two equations. There is no function here:
// crate `analysis_texts` reads, `sweep_runs` calculates, `analysis_call::end` tells.
//
// Open to others: the type `Summary`; a call answers `Result<Summary, Refusal>`.
#![tactic(auto)]

use calculation::Counts;

// An accepted analysis: the report's length and the four sweep counts.
#[derive(Clone, Copy)]
pub struct Summary {
    pub length: usize,
    pub counts: Counts,
}
