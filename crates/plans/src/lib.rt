// The theory of plans: what the six numbers mean, and why a calculation by sweeps finds them. The
// crate holds definitions (specs/) and theorems (stated in specs/Statements.antt, proved in proofs/),
// over prices, ways and visits of any kind; it knows nothing of cells, texts or the layout of tables.
//
// No call is open to others, since there is no code. Other crates cite the pages of specs/, in this
// order: System (ways, plans and their cost), Sweep (visits, sweeps and runs), Exact (what a number is
// held against), Stages (runs one after the other), Idle (visits that a sweep may leave out), Trace
// (which way a number was last lowered by), Statements; and proofs.Laws.
#![tactic(auto)]
