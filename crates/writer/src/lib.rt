// A text in a lent buffer, or a refusal: the end of every call that writes a text, with what is printed and the number
// for C. The bytes are put by module `bytes`.
//
// specs/Refused.antt says what is printed of a refusal, specs/Buffer.antt what a text in a buffer, or a refusal, comes to.
//
// A text in the front of a lent buffer is answered by its length, `Result<usize, Refusal>`. For the crates above:
// `put_refusal`, `refuse`, `close` and `show`, which have no condition; `refusal_code` and `code`, which ask that a refusal's
// line is below `code_lines`.
#![tactic(auto)]

pub mod bytes;

ghost use Rattle.std.specs.Prelude.{◌≡◌, ◌<◌};
ghost use Rattle.reading.specs.Answer.{answer_read};
ghost use Rattle.writer.specs.Put.{Puts};
ghost use Rattle.writer.specs.Refused.{refusal_bytes};
ghost use Rattle.writer.specs.Buffer.{Refuses, Closes, code_lines, refusal_code, code_of, LineBelow, ShownBy};

use crate::bytes::Cursor;
use reading::Refusal;

const COMMA: u8 = 44;

const LINE_END: u8 = 10;

// "the refusal number times 1,000,000 plus the line"
const CODE_LINES: u64 = sizes::CODE_LINES as u64;

// A refusal as a program prints it; its line may be any (`Refusal`).
pub fn put_refusal(text: &mut Cursor, r: Refusal)
    ensures { Puts (refusal_bytes r.number r.line) text.old text.new }
{
    text.put_bytes(b"refused,");
    text.put_digits(r.number as u64);
    text.put_byte(COMMA);
    text.put_digits(r.line as u64);
    text.put_byte(LINE_END);
}

// A refusal that leaves the buffer zero.
#[tactic(auto, unfolding(reading::specs::Answer::answer_read))]
pub fn refuse(buffer: &mut [u8], refusal: Refusal) -> Result<usize, Refusal>
    ensures { Refuses refusal.number refusal.line buffer.old buffer.new result }
{
    table::clear_bytes(buffer);
    Err(refusal)
}

// The end of a text that was put into the buffer's front, up to a place: its length, or the refusal of a text that is
// longer than the buffer, at line 0. (By any number, as `Refusal` has it: a `Cause` would ask more of a call that
// docs/ARCHITECTURE.md names.)
#[tactic(auto, unfolding(reading::specs::Answer::answer_read, reading::specs::Choice::pick))]
pub fn close(buffer: &mut [u8], end: usize, number: u32) -> Result<usize, Refusal>
    ensures { Closes number end buffer.old buffer.new result }
{
    if end <= buffer.len() {
        Ok(end)
    } else {
        refuse(buffer, Refusal { number, line: 0 })
    }
}

// How many bytes of the buffer are to be printed: those of its text, or of the refusal, which is put there.
#[tactic(auto, unfolding(reading::specs::Answer::answer_read, crate::specs::Buffer::ShownBy))]
pub fn show(buffer: &mut [u8], written: Result<usize, Refusal>) -> usize
    ensures { ShownBy (answer_read written) buffer.old buffer.new result }
{
    match written {
        Ok(n) => n,
        Err(r) => {
            let mut text = Cursor::new(buffer);
            put_refusal(&mut text, r);
            text.at
        }
    }
}

// For C: a refusal by one number.
pub fn refusal_code(r: Refusal) -> u64
    requires { r.line < code_lines }
    ensures { result ≡ refusal_code r.number r.line }
{
    r.number as u64 * CODE_LINES + r.line as u64
}

// For C: the text's length, or the refusal, by one number.
#[tactic(auto, unfolding(reading::specs::Answer::answer_read, crate::specs::Buffer::code_of))]
pub fn code(written: Result<usize, Refusal>) -> u64
    requires { LineBelow (answer_read written) }
    ensures { result ≡ code_of (answer_read written) }
{
    match written {
        Ok(n) => n as u64,
        Err(r) => refusal_code(r),
    }
}
