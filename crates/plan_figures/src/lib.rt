// Plans written out, by computation over the definitions: whole texts in, whole text out. No code: each is a
// theorem of specs/PlanFigures.antt.
#![tactic(auto)]
