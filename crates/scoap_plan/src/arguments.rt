// The arguments of the program `scoap_plan`: a line, a value and a kind as decimals, or the usage.
//
// For this crate: `Words`, `Arguments`, `read_arguments`, `put_usage`. specs/Arguments.antt has what they answer.
ghost use Rattle.std.specs.Prelude.{◌≡◌};
ghost use Rattle.text.specs.Numeral.{numeral_read};
ghost use Rattle.writer.specs.Put.{Put};
ghost use Rattle.scoap_plan.specs.Arguments.{three_decimals, arguments_of, usage};

use writer::bytes::Cursor;

// The program's name and its three arguments.
const WORDS: usize = 4;

// What the program was started with: how many words, its name among them, and the three behind the name.
#[derive(Clone, Copy)]
pub struct Words<'a> {
    pub count: usize,
    pub line: &'a [u8],
    pub value: &'a [u8],
    pub kind: &'a [u8],
}

// Which plan is asked for. Any number may be typed in the place of a kind; `plan_calls::put_plan` refuses others than its own.
#[derive(Clone, Copy)]
pub struct Arguments {
    pub line: u32,
    pub value: u32,
    pub kind: u32,
}

fn three_decimals(line: Option<u32>, value: Option<u32>, kind: Option<u32>) -> Option<Arguments>
    ensures { result ≡ three_decimals (numeral_read line) (numeral_read value) (numeral_read kind) }
{
    Some(Arguments {
        line: line?,
        value: value?,
        kind: kind?,
    })
}

// The arguments, or none where the usage is to be printed.
pub fn read_arguments(words: &Words) -> Option<Arguments>
    ensures { result ≡ arguments_of words.now.count words.now.line.now words.now.value.now words.now.kind.now }
{
    if words.count != WORDS {
        return None;
    }
    three_decimals(
        text::fields::decimal(words.line),
        text::fields::decimal(words.value),
        text::fields::decimal(words.kind),
    )
}

#[tactic(auto, using(writer::proofs::Steps::puts_lender), unfolding(crate::specs::Arguments::usage, text::specs::Bytes::bytes))]
pub fn put_usage(output: &mut [u8]) -> usize
    ensures { Put 0 usage output.old output.new result }
{
    let mut text = Cursor::new(output);
    text.put_bytes(b"usage: scoap_plan LINE VALUE KIND\n");
    text.at
}
