// The program scoap_plan LINE VALUE KIND: reads lib.txt and net.txt of the current folder and prints the cheapest way to set
// the line to the value, of kind 0 (combinational) or 1 (sequential), or `refused,number,line`, or `unreadable` where a file
// cannot be read, or how it is used. What it prints of arguments and of files that were loaded is proved: `put_output` puts it
// ready, and `print_output` takes nothing else.
//
// Module `arguments`: what the program is asked for.
#![tactic(auto)]

mod arguments;

ghost use Rattle.std.specs.Prelude.{◌≡◌, ◌≤◌, length};
ghost use Rattle.sizes.specs.Sizes as Size;
ghost use Rattle.files.specs.Output.{PrintsFiles};
ghost use Rattle.scoap_plan.specs.Arguments.{arguments_of};
ghost use Rattle.scoap_plan.specs.Output.{plan_shown, plan_output, PlanOutputs};

use crate::arguments::{Arguments, Words, put_usage, read_arguments};
use files::{Loaded, front, load_into, put_unreadable};
use std::env::FillError;
use std::rt::Env;

// One byte more than a decimal may have.
const ARGUMENT_BYTES: usize = sizes::DECIMAL_DIGITS + 1;

// What is printed of good arguments. The buffer is cleared first, so that what it held plays no part.
fn put_of_files(
    asked: Arguments,
    lib: &Loaded,
    net: &Loaded,
    output: &mut [u8; sizes::REPORT_BYTES],
) -> usize
    ensures { PrintsFiles Size.report_bytes (plan_shown asked.line asked.value asked.kind) lib.now.length lib.now.buffer
        net.now.length net.now.buffer output.new result }
{
    let Some(lib_length) = lib.length else {
        return put_unreadable(output);
    };
    let Some(net_length) = net.length else {
        return put_unreadable(output);
    };
    table::clear_bytes(output);
    plan_calls::put_plan(
        front(&lib.buffer, lib_length),
        front(&net.buffer, net_length),
        asked.line as usize,
        asked.value as usize,
        asked.kind as usize,
        output,
    )
}

fn put_output(
    words: &Words,
    lib: &Loaded,
    net: &Loaded,
    output: &mut [u8; sizes::REPORT_BYTES],
) -> usize
    ensures { PlanOutputs (arguments_of words.now.count words.now.line.now words.now.value.now words.now.kind.now)
        lib.now.length lib.now.buffer net.now.length net.now.buffer output.new result }
{
    match read_arguments(words) {
        Some(asked) => put_of_files(asked, lib, net, output),
        None => put_usage(output),
    }
}

// Writes what the program prints of its arguments and its files. They are handed on for the condition alone.
fn print_output(rt: &impl Print, words: &Words, lib: &Loaded, net: &Loaded, bytes: &[u8])
    requires { bytes.now ≡ plan_output (arguments_of words.now.count words.now.line.now words.now.value.now words.now.kind.now)
        lib.now.length lib.now.buffer net.now.length net.now.buffer }
{
    files::print(rt, bytes);
}

// How many words the program was started with, its name among them. No word fits into an empty buffer but an empty one.
fn count_words(rt: &impl Env) -> usize {
    for i in 0..usize::MAX {
        if let Err(FillError::NotPresent) = rt.arg(i, &mut []) {
            return i;
        }
    }
    usize::MAX
}

// The i-th word, in the front of a buffer; no bytes where it is missing or longer than the buffer.
fn argument<'a>(rt: &impl Env, i: usize, buffer: &'a mut [u8]) -> &'a [u8]
    ensures { length result.now ≤ length buffer.old }
{
    match rt.arg(i, buffer) {
        Ok(length) => &buffer[..length],
        Err(_) => &[],
    }
}

fn main(rt: HostRuntime) {
    let mut line = [0u8; ARGUMENT_BYTES];
    let mut value = [0u8; ARGUMENT_BYTES];
    let mut kind = [0u8; ARGUMENT_BYTES];
    let words = Words {
        count: count_words(&rt),
        line: argument(&rt, 1, &mut line),
        value: argument(&rt, 2, &mut value),
        kind: argument(&rt, 3, &mut kind),
    };
    let mut lib = Loaded::none();
    let mut net = Loaded::none();
    load_into(&rt, b"lib.txt", &mut lib);
    load_into(&rt, b"net.txt", &mut net);
    let mut output = [0u8; sizes::REPORT_BYTES];
    let length = put_output(&words, &lib, &net, &mut output);
    print_output(&rt, &words, &lib, &net, front(&output, length));
}
