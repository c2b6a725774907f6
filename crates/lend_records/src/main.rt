// A program that lends netlists as records: of each list the report, or the refusal's number and the
// record's place. Its output is stored beside it. It has a list for each number that records can meet,
// and accepted ones; lists of 2,000 records and more, of which it prints what is left in lent memory;
// that records and a text that say the same come to the same is proved, in crate `analysis_records`,
// proofs/Same.antt.
#![tactic(auto)]

ghost use Rattle.std.specs.Prelude.{◌<◌, ◌^◌};
ghost use Rattle.reading.specs.Answer.{answer_read};
ghost use Rattle.demands.specs.Answer.{lent_of};
ghost use Rattle.analysis_records.specs.Outcome.{RecordsPromised};

use analysis_records::{Record, analyse_records};
use demands::Summary;
use files::FILE_BYTES;
use reading::Refusal;

// The published size, one entry below it, and entries past it.
const NUMBERS: usize = sizes::NUMBERS;

const NUMBERS_SHORT: usize = sizes::NUMBERS - 1;

const NUMBERS_ROOM: usize = sizes::NUMBERS + 3;

const LIBRARY_ROOM: usize = sizes::LIBRARY + 3;

const NETLIST_ROOM: usize = sizes::NETLIST + 3;

// Enough for a refusal: `refused,`, two numbers of at most twenty digits, a comma and a line end.
const REFUSAL_BYTES: usize = 50;

// No list has more good records: each line is driven once and marked output once. And one more.
const MOST: usize = 2 * sizes::LINES + 1;

const GOOD: usize = 2 * sizes::LINES;

// The last line's number.
const LAST: u32 = sizes::LINES as u32;

// The latch without the record behind it.
const LATCH: usize = 5;

// What stands in lent memory before a call.
const BEFORE: u8 = 7;

const NAND2: &[u8] = b"Name,NAND2,2\nCC,13,21,M,5\nCO,203,211\nSC,12,20,M,4\nSO,202,210\nEnd\n";

// A library of one cell that has no pins.
const TIE1: &[u8] = b"Name,TIE1,0\nCC,Z,1\nCO\nSC,Z,0\nSO\nEnd\n";

// A library text that ends within an entry.
const BROKEN: &[u8] = b"Name,NAND2,2\nCC,13,21,M,5\n";

fn print_refusal(rt: &impl Print, r: Refusal) {
    let mut text = [0u8; REFUSAL_BYTES];
    let length = writer::show(&mut text, Err(r));
    files::print(rt, files::front(&text, length));
}

// Lends the records, and hands on what the call answers.
fn lend(
    lib: &[u8],
    records: &[Record],
    library: &mut [u32],
    netlist: &mut [u32],
    numbers: &mut [u32],
    report: &mut [u8],
) -> Result<Summary, Refusal>
    ensures { RecordsPromised lib.now records.now
        (lent_of library.old netlist.old numbers.old report.old)
        (lent_of library.new netlist.new numbers.new report.new)
        (answer_read result) }
{
    analyse_records(lib, records, library, netlist, numbers, report)
}

// Lends the records with a library and a netlist table of the published sizes, a numbers table of ENTRIES and a report buffer
// of BYTES.
fn lend_and_print<const ENTRIES: usize, const BYTES: usize>(
    rt: &impl Print,
    lib: &[u8],
    records: &[Record],
)
    requires { (ENTRIES < 2 ^ 60) × (BYTES < 2 ^ 60) }
{
    let mut library = [0u32; sizes::LIBRARY];
    let mut netlist = [0u32; sizes::NETLIST];
    let mut numbers = [0u32; ENTRIES];
    let mut report = [0u8; BYTES];
    let answer = lend(
        lib,
        records,
        &mut library,
        &mut netlist,
        &mut numbers,
        &mut report,
    );
    match answer {
        Ok(s) => files::print(rt, files::front(&report, s.length)),
        Err(r) => print_refusal(rt, r),
    }
}

fn mark(kind: u32, line: u32) -> Record {
    Record {
        kind,
        cell: 0,
        line,
        pins: [0; sizes::PINS],
    }
}

fn gate(cell: u32, line: u32, p: u32, q: u32, r: u32) -> Record {
    Record {
        kind: 2,
        cell,
        line,
        pins: [p, q, r, 0, 0, 0, 0, 0],
    }
}

// Those that are not refused are the latch: each gate reads the other's output.
fn latch_with(last: Record) -> [Record; LATCH + 1] {
    [
        mark(0, 1),
        mark(0, 2),
        gate(0, 3, 1, 4, 0),
        gate(0, 4, 2, 3, 0),
        mark(1, 3),
        last,
    ]
}

// Lends the latch with each of these records behind it.
fn lend_each(rt: &impl Print, records: &[Record]) {
    for last in records {
        lend_and_print::<NUMBERS, 512>(rt, NAND2, &latch_with(*last));
    }
}

// ---- long lists

// What drives a line: the first eight are inputs, each other has a gate of the last of 32 cells, whose eight
// pins read the eight lines before it.
fn driver(line: u32) -> Record {
    if line <= 8 {
        return mark(0, line);
    }
    let p = line - 8;
    Record {
        kind: 2,
        cell: 31,
        line,
        pins: [p, p + 1, p + 2, p + 3, p + 4, p + 5, p + 6, p + 7],
    }
}

// Every line driven, then every line marked output, then the last record.
fn full_with(last: Record) -> [Record; MOST] {
    let mut list = [last; MOST];
    let drivers = (1..=LAST).map(driver);
    let outputs = (1..=LAST).map(|line| mark(1, line));
    for (place, record) in list.iter_mut().zip(drivers.chain(outputs)) {
        *place = record;
    }
    list
}

// Says of lent memory, from a place on, whether it is as it was before the call, or zero.
fn print_left<T: Copy + PartialEq + From<u8>>(rt: &impl Print, lent: &[T], from: usize) {
    let all_are = |value: u8| lent.iter().skip(from).all(|x| *x == T::from(value));
    if all_are(BEFORE) {
        files::print(rt, b",kept");
    } else if all_are(0) {
        files::print(rt, b",zero");
    } else {
        files::print(rt, b",other");
    }
}

// A number in decimal. As in `files::print`, nothing is said of a write that fails.
fn print_number(rt: &impl Print, n: usize) {
    let _ = rt.print(n);
}

// So many numbers of a table from a place on.
fn print_words(rt: &impl Print, table: &[u32], from: usize, count: usize) {
    for word in table.iter().skip(from).take(count) {
        files::print(rt, b",");
        print_number(rt, *word as usize);
    }
}

// The numbers of the n-th gate, where there may be such a one.
fn print_gate(rt: &impl Print, netlist: &[u32], n: usize) {
    if (1..=sizes::GATES).contains(&n) {
        let at = sizes::GATES_AT + (n - 1) * sizes::GATE_WORDS;
        print_words(rt, netlist, at, sizes::GATE_WORDS);
    }
}

// Lends tables with entries past their published sizes, and a numbers table of ENTRIES, all that is lent filled before. Prints
// of an accepted list the report's length, what stands behind it and past each published size, the last gate, and the last
// line's numbers; of a refused one its refusal, and what the whole of each table and of the report is.
fn lend_filled<const ENTRIES: usize>(rt: &impl Print, lib: &[u8], records: &[Record])
    requires { ENTRIES < 2 ^ 60 }
{
    let mut library = [BEFORE as u32; LIBRARY_ROOM];
    let mut netlist = [BEFORE as u32; NETLIST_ROOM];
    let mut numbers = [BEFORE as u32; ENTRIES];
    let mut report = [BEFORE; sizes::REPORT_BYTES];
    let answer = lend(
        lib,
        records,
        &mut library,
        &mut netlist,
        &mut numbers,
        &mut report,
    );
    match answer {
        Ok(s) => {
            files::print(rt, b"accepted,");
            print_number(rt, s.length);
            print_left(rt, &library, sizes::LIBRARY);
            print_left(rt, &netlist, sizes::NETLIST);
            print_left(rt, &numbers, NUMBERS);
            print_left(rt, &report, s.length);
            files::print(rt, b"\ngate");
            print_gate(rt, &netlist, netlist[0] as usize);
            files::print(rt, b"\nnumbers");
            print_words(rt, &numbers, NUMBERS - 6, 6);
        }
        Err(r) => {
            print_refusal(rt, r);
            files::print(rt, b"left");
            print_left(rt, &library, 0);
            print_left(rt, &netlist, 0);
            print_left(rt, &numbers, 0);
            print_left(rt, &report, 0);
        }
    }
    files::print(rt, b"\n");
}

// The long lists, against a library of 32 cells.
fn lend_full(rt: &impl Print, lib: &[u8]) {
    let full = full_with(mark(1, LAST));
    let good = &full[..GOOD];
    lend_filled::<NUMBERS_ROOM>(rt, lib, good);
    // one bad record behind 2,000 good ones: 15, 14, 11, 10
    lend_filled::<NUMBERS_ROOM>(rt, lib, &full);
    for last in [driver(9), mark(0, 0), mark(4, 1)] {
        lend_filled::<NUMBERS_ROOM>(rt, lib, &full_with(last));
    }
    // 1: nothing is read
    lend_filled::<NUMBERS_SHORT>(rt, lib, good);
}

fn main(rt: HostRuntime) {
    let with_last = latch_with(mark(0, 0));
    let latch = &with_last[..LATCH];
    lend_and_print::<NUMBERS, 512>(&rt, NAND2, latch);
    lend_and_print::<NUMBERS, 512>(&rt, NAND2, &[]);
    // a gate without pins, and its line marked output
    lend_and_print::<NUMBERS, 512>(&rt, TIE1, &[gate(0, 3, 0, 0, 0), mark(1, 3)]);
    // 1, 2 and 3
    lend_and_print::<NUMBERS_SHORT, 512>(&rt, NAND2, latch);
    lend_and_print::<NUMBERS, 512>(&rt, &[10; FILE_BYTES], latch);
    lend_and_print::<NUMBERS, 512>(&rt, BROKEN, latch);
    // 10: an unknown kind, an unused cell, an unused pin, a pin after a 0
    lend_each(
        &rt,
        &[
            mark(4, 1),
            Record {
                cell: 1,
                ..mark(0, 5)
            },
            Record {
                pins: [0, 1, 0, 0, 0, 0, 0, 0],
                ..mark(1, 5)
            },
            gate(0, 5, 1, 0, 2),
        ],
    );
    // 11: line 0, line 1,001, pin 1,001
    let past = LAST + 1;
    lend_each(&rt, &[mark(0, 0), mark(1, past), gate(0, 5, 1, past, 0)]);
    // the largest number in each field: 10, 10, 10, 10, then 11, 11, 11, and 12
    lend_each(
        &rt,
        &[
            mark(u32::MAX, 5),
            Record {
                cell: u32::MAX,
                ..mark(0, 5)
            },
            Record {
                pins: [0, 0, 0, 0, 0, 0, 0, u32::MAX],
                ..mark(1, 5)
            },
            gate(0, 5, 1, 0, u32::MAX),
            mark(0, u32::MAX),
            gate(0, u32::MAX, 1, 2, 0),
            gate(u32::MAX, 5, 1, u32::MAX, 0),
            gate(u32::MAX, 5, 1, 2, 0),
        ],
    );
    // 12 to 15, and 17
    lend_each(
        &rt,
        &[
            gate(1, 5, 1, 2, 0),
            gate(0, 5, 1, 0, 0),
            mark(0, 4),
            mark(1, 3),
        ],
    );
    lend_and_print::<NUMBERS, 8>(&rt, NAND2, latch);
    // an open line; 14, where it has a driver; 20, where an output is marked that has none
    lend_each(&rt, &[mark(3, 5), mark(3, 4), mark(1, 5)]);
    let mut long = files::Loaded::none();
    files::load_into(&rt, b"lib.txt", &mut long);
    match long.length {
        Some(n) => lend_full(&rt, files::front(&long.buffer, n)),
        None => files::print(&rt, b"unreadable\n"),
    }
}
