// No code: pads asked for and placed (specs/Pads.antt), and changes of library (specs/Changes.antt), by computation over
// the definitions.
#![tactic(auto)]
