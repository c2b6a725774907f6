// What a program prints of its texts, as bytes in a buffer that it lends: the program itself then loads its files,
// calls, and writes just the bytes that the call counts.
//
// Open to others: `put_analysis`. It has no condition on its input; specs/Printed.antt says what it promises.
ghost use Rattle.analysis_call.specs.Printed.{Printed};

use analysis_texts::Tables;

// What `scoap` prints of a library and a netlist: the report, or the refusal. Its tables are its own, and its report
// buffer is the one lent, which is long enough for every report.
pub fn put_analysis(lib: &[u8], net: &[u8], report: &mut [u8; sizes::REPORT_BYTES]) -> usize
    ensures { Printed lib.now net.now report.old report.new result }
{
    let mut library = [0u32; sizes::LIBRARY];
    let mut netlist = [0u32; sizes::NETLIST];
    let mut numbers = [0u32; sizes::NUMBERS];
    let answer = crate::analyse_into(
        lib,
        net,
        &mut library,
        &mut netlist,
        &mut numbers,
        report,
        Tables::Own,
    );
    match answer {
        Ok(s) => s.length,
        Err(r) => writer::show(report, Err(r)),
    }
}
