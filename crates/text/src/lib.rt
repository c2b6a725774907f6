// The text layer: classes of bytes, lines and fields of a lent text, and whether two strings of bytes are the same. What a
// field says is in module `fields`.
//
// Open to other crates, each for every input: `line`, `field`, `after`, `is_last`, `same`. For the crates above: `class_of`,
// and the type `Class`.
#![tactic(auto)]

pub mod fields;

ghost use Rattle.std.specs.Prelude.{◌≡◌, ◌&&◌, ◌+◌, ◌≤◌, leb, ltb, length, drop};
ghost use Rattle.text.specs.Class.{class_of, ends, end_of};
ghost use Rattle.text.specs.Lines.{span, part, next_after, same_bytes, some_ends};

// The class of a byte. `class_of` gives its cases.
#[derive(Clone, Copy)]
pub enum Class {
    Digit,
    Letter,
    Comma,
    LineEnd,
    Other,
}

#[tactic(auto, unfolding(crate::specs::Class::class_of, crate::specs::Class::between, reading::specs::Choice::pick))]
pub fn class_of(b: u8) -> Class
    ensures { result ≡ class_of b }
{
    match b {
        48..=57 => Class::Digit,
        65..=90 => Class::Letter,
        44 => Class::Comma,
        10 => Class::LineEnd,
        _ => Class::Other,
    }
}

// What a cursor walks over: the lines of a text, or the fields of a line.
#[derive(Clone, Copy)]
enum Piece {
    Line,
    Field,
}

// Whether a byte ends a line, or a field.
#[tactic(auto, unfolding(crate::specs::Class::ends))]
fn ends(b: u8, piece: Piece) -> bool
    ensures { result ≡ ends piece (class_of b) }
{
    matches!(
        (piece, class_of(b)),
        (Piece::Line, Class::LineEnd) | (Piece::Field, Class::Comma)
    )
}

// Whether one of the eight bytes from a place on ends a line. Not `any`, which looks at one at a time: that takes longer.
fn line_ends(text: &[u8], at: usize) -> bool
    requires { at + 8 ≤ length text.now }
    ensures { result ≡ some_ends text.now at 8 }
{
    let mut found = false;
    for b in &text[at..at + 8] {
        found |= ends(*b, Piece::Line);
    }
    found
}

// Of the first line so many bytes, by eights, that it does not end in them: eight are looked at at once. (This loop and that of
// `first` go over every byte that is read, so that they stand as they were measured (D151), without `find` and `position`.)
fn eights(text: &[u8]) -> usize
    ensures { (result ≤ length text.now)
        × (result + span 10 (drop result text.now) ≡ span 10 text.now) }
{
    let whole = text.len() / 8;
    for k in 0..whole {
        if line_ends(text, 8 * k) {
            return 8 * k;
        }
    }
    8 * whole
}

// Where to look for the end of the first line, or of the first field: fields are short.
#[tactic(auto, unfolding(crate::specs::Class::end_of))]
fn look_from(text: &[u8], piece: Piece) -> usize
    ensures { (result ≤ length text.now)
        × (result + span (end_of piece) (drop result text.now) ≡ span (end_of piece) text.now) }
{
    match piece {
        Piece::Line => eights(text),
        Piece::Field => 0,
    }
}

// The first line, or the first field, up to its end or to the text's.
fn first(text: &[u8], piece: Piece) -> &[u8]
    ensures { result.now ≡ part (end_of piece) text.now 0 }
{
    for i in look_from(text, piece)..text.len() {
        if ends(text[i], piece) {
            return &text[..i];
        }
    }
    text
}

// The line, or the field, from a cursor on; empty from a cursor past the end.
#[tactic(auto, unfolding(crate::specs::Lines::part))]
fn part(text: &[u8], from: usize, piece: Piece) -> &[u8]
    ensures { result.now ≡ part (end_of piece) text.now from }
{
    // No `get`: the archive as WebAssembly takes no optional reference (pads/narrow).
    if from <= text.len() {
        first(&text[from..], piece)
    } else {
        &text[text.len()..]
    }
}

#[tactic(auto, unfolding(crate::specs::Class::end_of))]
pub fn line(text: &[u8], from: usize) -> &[u8]
    ensures { result.now ≡ part 10 text.now from }
{
    part(text, from, Piece::Line)
}

#[tactic(auto, unfolding(crate::specs::Class::end_of))]
pub fn field(line: &[u8], from: usize) -> &[u8]
    ensures { result.now ≡ part 44 line.now from }
{
    part(line, from, Piece::Field)
}

// The cursor after a part that starts at `from`: that of the next field of a line, or of the next line of a text. It is
// past the text's end after the last part, and stays there.
#[tactic(auto, unfolding(crate::specs::Lines::next_after, reading::specs::Choice::pick))]
pub fn after(text: &[u8], from: usize, part: &[u8]) -> usize
    ensures { result ≡ next_after text.now from part.now }
{
    if from <= text.len() {
        from + part.len() + 1
    } else {
        from
    }
}

// Whether the field at a cursor is the last of its line; `next` is the cursor behind it.
pub fn is_last(line: &[u8], at: usize, next: usize) -> bool
    ensures { result ≡ (leb at (length line.now) && ltb (length line.now) next) }
{
    at <= line.len() && line.len() < next
}

// Whether two strings of bytes are the same, byte for byte.
#[tactic(auto, using(crate::proofs::Steps::same_bytes_eq))]
pub fn same(a: &[u8], b: &[u8]) -> bool
    ensures { result ≡ same_bytes a.now b.now }
{
    a == b
}
