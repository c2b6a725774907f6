// The laws that carry a sentence of the papers and are no clause of a promise, as one theorem: `laws_hold` of
// proofs/Laws.antt, whose statement is `LawsHold` of specs/Laws.antt. No code, and nobody needs the crate: it has each law
// proved under the statement of its home, so that none is lost unseen.
//
// At home here are the statements that tie crates which do not know each other: specs/PlanCost.antt (a plan written out
// beside a standing analysis), specs/PlanRead.antt (a plan's text read back), specs/Topmost.antt (which line and which
// number a text is refused by).
#![tactic(auto)]
