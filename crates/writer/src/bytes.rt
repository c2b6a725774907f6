// Writing bytes into a lent buffer: a byte, several, a number in decimal or in octal.
//
// A cursor is a lent buffer with a place in it. Bytes past the buffer's end are not stored, and the cursor then
// stands past the end, at the length and 1, and stays there, so that a caller asks once, at the end,
// whether all was stored. specs/Put.antt says what a call leaves, specs/Decimal.antt and specs/Octal.antt what the digits
// of a number are.
//
// For the crates above: `Cursor` and its methods, of which `put_digits` takes a number that `put_decimal` is too narrow for.
// None has a condition.
ghost use Rattle.std.specs.Prelude.{[], ◌∷◌, ◌≡◌, ℕ, suc, ◌+◌, ◌^◌, ◌≤◌, ◌<◌, length};
ghost use Rattle.std.proofs.lemmas.List.Edits.{sets};
ghost use Rattle.writer.specs.Decimal.{decimal_bytes, two_digits, Room};
ghost use Rattle.writer.specs.Digits.{digits};
ghost use Rattle.writer.specs.Octal.{octal_bytes};
ghost use Rattle.writer.specs.Put.{Put, Puts};

const ZERO: u8 = 48;

// A byte at a place of a buffer; the place behind it.
fn put_one(buffer: &mut [u8], at: usize, b: u8) -> usize
    ensures { Put at (b ∷ []) buffer.old buffer.new result }
{
    if at < buffer.len() {
        buffer[at] = b;
        return at + 1;
    }
    if at == buffer.len() {
        buffer.len() + 1
    } else {
        at
    }
}

// A lent buffer, and the place at which the next byte is put.
#[derive(Drop)]
pub struct Cursor<'a> {
    pub buffer: &'a mut [u8],
    pub at: usize,
}

impl<'a> Cursor<'a> {
    // At the buffer's front.
    pub fn new(buffer: &'a mut [u8]) -> Cursor<'a>
        ensures lent { result.buffer.ghost_name ≡ buffer.entry.ghost_name }
        ensures same { result.buffer.now ≡ buffer.old }
        ensures front { result.at ≡ 0 }
    {
        Cursor { buffer, at: 0 }
    }

    pub fn put_byte(&mut self, b: u8)
        ensures { Puts (b ∷ []) self.old self.new }
    {
        self.at = put_one(self.buffer, self.at, b);
    }

    pub fn put_bytes(&mut self, word: &[u8])
        ensures { Puts word.now self.old self.new }
    {
        for b in word {
            self.put_byte(*b);
        }
    }

    // A number in decimal, byte by byte.
    pub fn put_digits(&mut self, n: u64)
        ensures { Puts (decimal_bytes n) self.old self.new }
    {
        self.at = put_in_base::<10>(self.buffer, self.at, n);
    }

    // A number in octal.
    pub fn put_octal(&mut self, n: u64)
        ensures { Puts (octal_bytes n) self.old self.new }
    {
        self.at = put_in_base::<8>(self.buffer, self.at, n);
    }

    // A number in decimal: each digit is stored once, at its place; byte by byte at the buffer's end.
    pub fn put_decimal(&mut self, n: u32)
        ensures { Puts (decimal_bytes n) self.old self.new }
    {
        let at = self.at;
        if at < self.buffer.len() {
            let digits = width(n);
            if digits <= self.buffer.len() - at {
                put_within(self.buffer, at, n, at + digits);
                self.at = at + digits;
                return;
            }
        }
        self.put_digits(n as u64);
    }
}

// The digits of a number in a base, byte by byte: those above the last, the routine calling itself, and the last. (No method:
// a cursor that no call takes by its address stays in registers. As a method it cost a report a tenth more instructions.)
fn put_in_base<const BASE: u64>(buffer: &mut [u8], at: usize, n: u64) -> usize
    requires { (2 ≤ BASE) × (BASE ≤ 10) }
    ensures { (more : ℕ) → n < BASE ^ suc more → Put at (digits BASE more n) buffer.old buffer.new result }
{
    let last = ZERO + (n % BASE) as u8;
    if n < BASE {
        put_one(buffer, at, last)
    } else {
        let next = put_in_base::<BASE>(buffer, at, n / BASE);
        put_one(buffer, next, last)
    }
}

// How many digits a number has.
fn width(n: u32) -> usize
    ensures { result ≡ length (decimal_bytes n) }
{
    if n < 10 { 1 } else { n.ilog10() as usize + 1 }
}

// Two digits.
fn put_two(buffer: &mut [u8], at: usize, n: u32)
    requires { (n < 100) × (at + 2 ≤ length buffer.old) }
    ensures { buffer.new ≡ sets buffer.old at (two_digits n) }
{
    buffer[at] = ZERO + (n / 10) as u8;
    buffer[at + 1] = ZERO + (n % 10) as u8;
}

// A number in decimal where there is room for it, from its last digits to its first.
fn put_within(buffer: &mut [u8], at: usize, n: u32, end: usize)
    requires { Room buffer.old at n end }
    ensures { buffer.new ≡ sets buffer.old at (decimal_bytes n) }
{
    let mut rest = n;
    let mut behind = end;
    while 100 <= rest {
        behind -= 2;
        put_two(buffer, behind, rest % 100);
        rest /= 100;
    }
    if rest < 10 {
        buffer[at] = ZERO + rest as u8;
    } else {
        put_two(buffer, at, rest);
    }
}
