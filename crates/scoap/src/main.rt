// The program scoap: reads lib.txt and net.txt of the current folder and prints the report, or `refused,number,line`, or
// `unreadable` where a file cannot be read. What it prints of files that were loaded is proved: `put_output` puts it ready,
// and `print_output` takes nothing else.
#![tactic(auto)]

ghost use Rattle.std.specs.Prelude.{◌≡◌};
ghost use Rattle.sizes.specs.Sizes as Size;
ghost use Rattle.demands.specs.Printed.{printed};
ghost use Rattle.files.specs.Output.{of_files, PrintsFiles};

use files::{Loaded, front, load_into, put_unreadable};

fn put_output(lib: &Loaded, net: &Loaded, output: &mut [u8; sizes::REPORT_BYTES]) -> usize
    ensures { PrintsFiles Size.report_bytes printed lib.now.length lib.now.buffer net.now.length
        net.now.buffer output.new result }
{
    let Some(lib_length) = lib.length else {
        return put_unreadable(output);
    };
    let Some(net_length) = net.length else {
        return put_unreadable(output);
    };
    analysis_call::printed::put_analysis(
        front(&lib.buffer, lib_length),
        front(&net.buffer, net_length),
        output,
    )
}

// Writes what the program prints of its files. The files are handed on for the condition alone.
fn print_output(rt: &impl Print, lib: &Loaded, net: &Loaded, bytes: &[u8])
    requires { bytes.now ≡ of_files printed lib.now.length lib.now.buffer net.now.length net.now.buffer }
{
    files::print(rt, bytes);
}

fn main(rt: HostRuntime) {
    let mut lib = Loaded::none();
    let mut net = Loaded::none();
    load_into(&rt, b"lib.txt", &mut lib);
    load_into(&rt, b"net.txt", &mut net);
    let mut output = [0u8; sizes::REPORT_BYTES];
    let length = put_output(&lib, &net, &mut output);
    print_output(&rt, &lib, &net, front(&output, length));
}
