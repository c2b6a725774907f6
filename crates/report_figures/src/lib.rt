// Figures by computation over the definitions. No code: each figure is a theorem.
//
// specs/Figures.antt has document 01's figures that are marked P, as one theorem: whole texts in, whole
// report out. The pages of proofs/ have texts that are accepted and one for each refusal number that can be
// met, buffers, the refusals at entry, and what else a report can show.
#![tactic(auto)]
