// The built-in library of document 02, K6, as what the generator prints of its 19 truth tables (specs/BuiltIn.antt), and the
// figures of K6 as one theorem over the definitions (specs/Figures.antt): document 01's entry C1130 from the truth table of a
// NOR of three pins, and the built-in library's text, which `truth_library` writes.
//
// No call is open to others, since there is no code.
#![tactic(auto)]
