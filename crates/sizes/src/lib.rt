// The sizes of document 01, and all that is computed from them: how much a text, a library and a
// netlist may hold, and where each thing stands in the lent tables (docs/TABLES.md). Each number has
// its one home here, and in specs/Sizes.antt and specs/Places.antt.
#![tactic(auto)]

// "Both texts .. above 65,535 bytes": the most bytes of a text.
pub const TEXT_BYTES: usize = 65535;

// "The program scoap .. has a report buffer of 65,536 bytes."
pub const REPORT_BYTES: usize = 65536;

// "else the refusal number times 1,000,000 plus the line": more than a text has lines, and than reports have bytes.
pub const CODE_LINES: usize = 1000000;

// "Line numbers run from 1 to 1,000"; a gate drives a line of its own.
pub const LINES: usize = 1000;

pub const GATES: usize = LINES;

// The digits of the highest line, and the first number that has more.
pub const NUMBER_DIGITS: usize = 4;

pub const NUMBERS_END: usize = 10000;

// "A library has at most 32 entries", each with a name of at most 8 bytes and at most 8 pins; "1 to 16
// rows" a group, each of "1 to 7 digits", in an entry that begins with Name3 "up to 8"; "Decimal fields have 1 to 5 digits".
pub const CELLS: usize = 32;

pub const NAME_BYTES: usize = 8;

pub const PINS: usize = 8;

pub const ROWS: usize = 16;

pub const ROW_DIGITS: usize = 7;

pub const DEEP_DIGITS: usize = 8;

pub const DECIMAL_DIGITS: usize = 5;

// The most columns of a row: each pin at 1 and at 0, the output at 1 and at 0, "observe the output".
pub const COLUMNS: usize = 2 * PINS + 3;

// "The numbers table has six costs for each line": of each kind, combinational and sequential, those of
// setting it to 0 and to 1, then of each kind that of observing it.
pub const KINDS: usize = 2;

pub const VALUES: usize = 2;

pub const OBSERVED_AT: usize = KINDS * VALUES;

pub const COSTS: usize = OBSERVED_AT + KINDS;

// "a combinational price .., 1 to 999": the highest, and how many numbers there are from 0 to it.
pub const MOST_PRICE: u32 = 999;

pub const PRICES: u32 = 1 + MOST_PRICE;

// ---- the library table

// A row: its depth and its columns. A group: its count of rows, and its rows.
pub const ROW_WORDS: usize = 2;

pub const GROUP_WORDS: usize = 1 + ROWS * ROW_WORDS;

// The groups of a cell: CC, SC, then CO and SO; the first of each.
pub const CC_GROUP: usize = 0;

pub const SC_GROUP: usize = CC_GROUP + VALUES;

pub const CO_GROUP: usize = SC_GROUP + VALUES;

pub const SO_GROUP: usize = CO_GROUP + PINS;

pub const GROUPS: usize = SO_GROUP + PINS;

// A cell: the length of its name, its name, its pins, its heading, its groups.
pub const PINS_AT: usize = 1 + NAME_BYTES;

pub const HEADING_AT: usize = PINS_AT + 1;

pub const GROUPS_AT: usize = HEADING_AT + 1;

pub const CELL_WORDS: usize = GROUPS_AT + GROUPS * GROUP_WORDS;

// The count of cells, then the cells: the published size.
pub const CELLS_AT: usize = 1;

pub const LIBRARY: usize = CELLS_AT + CELLS * CELL_WORDS;

// ---- the netlist table

// The count of gates; for each line what drives it, whether it is an output, whether it is mentioned, its
// range; whether there is a range; then the gates. What is said of line l stands at the part's number and
// l, what drives it at l itself.
pub const OUTPUTS_AT: usize = LINES;

pub const MENTIONS_AT: usize = OUTPUTS_AT + LINES;

pub const RANGES_AT: usize = MENTIONS_AT + LINES;

pub const RANGED_AT: usize = RANGES_AT + LINES + 1;

pub const GATES_AT: usize = RANGED_AT + 1;

// A gate: its cell, then its lines, which are the one that it drives and those of its pins.
pub const GATE_LINES: usize = 1 + PINS;

pub const GATE_WORDS: usize = 1 + GATE_LINES;

pub const NETLIST: usize = GATES_AT + GATES * GATE_WORDS;

// ---- the numbers table

pub const NUMBERS: usize = LINES * COSTS;

// ---- the standing table

// The count of pads, the counts of the four runs, the pads in the order of their commits, and a numbers table.
pub const RUNS: usize = 4;

pub const RUNS_AT: usize = 1;

pub const PADS: usize = LINES;

pub const PADS_AT: usize = RUNS_AT + RUNS;

pub const STANDING_NUMBERS: usize = PADS_AT + PADS;

pub const STANDING: usize = STANDING_NUMBERS + NUMBERS;

// What asking answers: for each line its CO and its SO.
pub const OBSERVED: usize = LINES * KINDS;

// ---- the table of ranks

// Of a line that may be padded: how many lines have CO never, how many over, the largest figure, the sum of the figures.
pub const RANK_WORDS: usize = 4;

pub const RANKS: usize = LINES * RANK_WORDS;

// ---- the set of module `sweep_links::awake`

// A bit for each gate, in words.
pub const WORD_BITS: usize = 64;

pub const AWAKE_WORDS: usize = GATES / WORD_BITS + 1;

// ---- the links of crate `sweep_links`

// What a link is: it tells a pin of a gate, or a gate, and there are eight pins to a gate.
pub type Link = u16;

// A number for each line, and one for each pin of each gate. Both count from 1: place 0 is for none.
pub const LINE_PLACES: usize = 1 + LINES;

pub const PIN_PLACES: usize = 1 + GATES * PINS;

// For each line the last pin that reads it, for each pin the one before it that reads the same line, for
// each line the gate that drives it, and for each gate, from 0, whether its pins are tied.
pub const READERS_AT: usize = 0;

pub const NEXT_AT: usize = READERS_AT + LINE_PLACES;

pub const DRIVERS_AT: usize = NEXT_AT + PIN_PLACES;

pub const TIED_AT: usize = DRIVERS_AT + LINE_PLACES;

pub const LINKS: usize = TIED_AT + GATES;

// ---- the walk of crate `trial_back`

// The lines that wait on its stack, and the turns that it takes at most: one that would need more ends early.
pub const BACK_LINES: usize = 64;

pub const BACK_TURNS: usize = 100;

// ---- the marks of crate `plan_marks`

// For each line, counted from 0, and each value: the visit, the row as its entry writes it, the columns
// by which it asks, and where the line of the gate's last pin stands in the netlist table.
pub const MARK_WORDS: usize = 4;

pub const MARKS: usize = LINE_PLACES * VALUES * MARK_WORDS;

// ---- best numbers within a budget

// The queue of crate `budget_queue`: a leaf for each line and value, and as many places before the leaves, of
// which the first is for none.
pub const LEAVES: usize = LINES * VALUES;

pub const QUEUE: usize = 2 * LEAVES;

// What is handed out: the cost of the last step; then for each leaf whether its value is fixed, and its
// number or its offer.
pub const FLAGS_AT: usize = 1;

pub const FLAG_WORDS: usize = 2;

pub const BEST: usize = FLAGS_AT + LEAVES * FLAG_WORDS;
