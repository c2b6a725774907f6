// What a netlist does at its pins, and what "never" then says of the chip. Document 02, K8. The crate holds
// definitions (specs/) and theorems (proofs/), over statements and cells as they were read.
//
// No call is open to others, since there is no code. Other crates cite the pages of specs/, in this order:
// Loops (which line feeds which), Values (what a netlist does), Built (cells that have a truth table), Never
// (what is shown), Example (what is not); proofs.Laws; and what is drawn from the absence of loops, and from
// each line having one gate, proofs.Descending and proofs.Giving.
#![tactic(auto)]
