// Truth tables and the cells that they make, document 02, K6: settings of the pins, implicants and prime
// implicants, the groups of rows of a truth table, the cell and its entry's text. The crate holds
// definitions (specs/) and theorems (proofs/); the generator, crate `truth_entry`, is proved against them.
//
// No call is open to others, since there is no code. Other crates cite specs.Tables (the rows of a truth
// table), specs.Entries (its cell, and the text of a cell), specs.Generated (cells that have a truth table),
// specs.Rows (when a setting meets a row), proofs.Rows (the one fact for all truth tables, over rows and
// groups), proofs.Covering (the same over terms), proofs.Columns (the columns of a term), proofs.Counting
// (no group has more than 16 rows), proofs.Order (rows descend) and proofs.Accepted (the entry of every
// table is read as its cell).
#![tactic(auto)]
