// The program scoap_cell: reads table.txt of the current folder, a line `NAME,n,BITS`, and prints the library entry of that
// truth table, or `refused,number,line`, or `unreadable` where the file cannot be read. What it prints of a file that was
// loaded is proved: `put_output` puts it ready, and `print_output` takes nothing else.
#![tactic(auto)]

ghost use Rattle.std.specs.Prelude.{◌≡◌};
ghost use Rattle.files.specs.Output.{of_file, PrintsFile};
ghost use Rattle.truth_entry.specs.Bounded.{entry_room};
ghost use Rattle.scoap_cell.specs.Output.{entry_printed};

use files::{Loaded, front, load_into, put_unreadable};
use truth_entry::ENTRY_BYTES;

fn put_output(table: &Loaded, output: &mut [u8; ENTRY_BYTES]) -> usize
    ensures { PrintsFile entry_room entry_printed table.now.length table.now.buffer output.new result }
{
    let Some(length) = table.length else {
        return put_unreadable(output);
    };
    truth_entry::put_printed(front(&table.buffer, length), output)
}

// Writes what the program prints of its file. The file is handed on for the condition alone.
fn print_output(rt: &impl Print, table: &Loaded, bytes: &[u8])
    requires { bytes.now ≡ of_file entry_printed table.now.length table.now.buffer }
{
    files::print(rt, bytes);
}

fn main(rt: HostRuntime) {
    let mut table = Loaded::none();
    load_into(&rt, b"table.txt", &mut table);
    let mut output = [0u8; ENTRY_BYTES];
    let length = put_output(&table, &mut output);
    print_output(&rt, &table, front(&output, length));
}
