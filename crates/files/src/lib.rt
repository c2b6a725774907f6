// Files and standard output, for the programs of this repository: reading a whole file by its name, printing bytes, and what
// every program prints of its files alike.
//
// For those programs alone: `Loaded`, `load_into`, `load_file`, `load`, `front`, `put_unreadable` and `print`. A file that cannot
// be opened or read to its end is unreadable, a directory among them. A file longer than a text may be fills the buffer, and is
// seen to be longer. specs/Output.antt says what a program prints of files that were loaded.
#![tactic(auto)]

ghost use Rattle.std.specs.Prelude.{◌≡◌, ◌≤◌, length, take};
ghost use Rattle.writer.specs.Put.{Put};
ghost use Rattle.files.specs.Loads.{Within, Seen, next_of};
ghost use Rattle.files.specs.Output.{unreadable};

use std::fs::File;
use std::io;
use std::io::Read;
use std::ops::ControlFlow;
use std::rt::Files;
use writer::bytes::Cursor;

// One byte more than a text may have.
pub const FILE_BYTES: usize = sizes::TEXT_BYTES + 1;

// A file that was loaded: the buffer, and how many of its bytes are the file's; none where the file is unreadable.
#[derive(Clone, Copy)]
pub struct Loaded {
    pub buffer: [u8; FILE_BYTES],
    pub length: Option<usize>,
}

impl Loaded {
    // A buffer, and no file yet.
    pub fn none() -> Loaded
        ensures { result.length ≡ None }
    {
        Loaded {
            buffer: [0; FILE_BYTES],
            length: None,
        }
    }
}

// `load` into its own buffer. So the programs do: a file that is handed back by value is copied twice.
pub fn load_into(rt: &impl Files, path: &[u8], file: &mut Loaded)
    ensures { Seen file.new.length file.new.buffer }
{
    file.length = load(rt, path, &mut file.buffer);
}

// The same with a buffer that is handed back.
pub fn load_file(rt: &impl Files, path: &[u8]) -> Loaded
    ensures { Seen result.length result.buffer }
{
    let mut file = Loaded::none();
    load_into(rt, path, &mut file);
    file
}

// The name is one of a file that `rt` finds; one that is not UTF-8 finds none. How many bytes were loaded; none where the
// file is unreadable.
pub fn load(rt: &impl Files, path: &[u8], buffer: &mut [u8; FILE_BYTES]) -> Option<usize>
    ensures { Seen result buffer.new }
{
    let Ok(name) = str::from_utf8(path) else {
        return None;
    };
    let Ok(mut file) = File::open(rt, name) else {
        return None;
    };
    fill(&mut file, buffer)
}

// Reads until a read fails, the file ends or the buffer is full.
fn fill(file: &mut impl Read, buffer: &mut [u8]) -> Option<usize>
    ensures { Within result buffer.new }
{
    let mut at = 0;
    loop {
        let got = file.read(&mut buffer[at..]);
        match next(buffer, at, got) {
            ControlFlow::Break(loaded) => return loaded,
            ControlFlow::Continue(end) => at = end,
        }
    }
}

// What a read's answer means, that was to fill the buffer from a place on: it is filled to a place, with more to come, or as
// far as it can be.
fn next(buffer: &[u8], at: usize, got: io::Result<usize>) -> ControlFlow<Option<usize>, usize>
    requires { at ≤ length buffer.now }
    ensures { result ≡ next_of (length buffer.now) at got }
{
    let Ok(count) = got else {
        return ControlFlow::Break(None);
    };
    let rest = buffer.len() - at;
    let end = at + count.min(rest);
    if (end == at) | (end == buffer.len()) {
        ControlFlow::Break(Some(end))
    } else {
        ControlFlow::Continue(end)
    }
}

// The first n bytes of a buffer, all of it where it has fewer.
pub fn front(buffer: &[u8], n: usize) -> &[u8]
    ensures { result.now ≡ take n buffer.now }
{
    buffer.get(..n).unwrap_or(buffer)
}

// What is printed where a file cannot be read, into the front of a buffer.
#[tactic(auto, using(writer::proofs::Steps::puts_lender), unfolding(crate::specs::Output::unreadable, text::specs::Bytes::bytes))]
pub fn put_unreadable(output: &mut [u8]) -> usize
    ensures { Put 0 unreadable output.old output.new result }
{
    let mut text = Cursor::new(output);
    text.put_bytes(b"unreadable\n");
    text.at
}

// A write that fails ends the printing, and nothing is said of it: a program always ends with status 0.
pub fn print(rt: &impl Print, bytes: &[u8]) {
    let _ = rt.write_all(bytes);
}
