// Text written into a room: bytes, numbers in decimal, and bytes in hex.
#![tactic(auto)]

ghost use Rattle.std.specs.Prelude.{◌+◌, ◌*◌, ◌≤◌, ◌<◌, [], ◌∷◌, ◌≡◌, length};
ghost use Rattle.digits.specs.Wrote.{Wrote, HasRoom, Adds};
ghost use Rattle.model.specs.Session.{decimal, hex_letter, hex_text};

// A text that goes up to place `at` of the room that it is written into.
#[derive(Drop)]
pub struct Text<'a> {
    pub out: &'a mut [u8],
    pub at: usize,
}

// How many digits n has.
fn count(n: u64) -> usize
    ensures { (result ≡ length (decimal n)) × (1 ≤ result) × (result ≤ 20) }
{
    match n.checked_ilog10() {
        Some(k) => k as usize + 1,
        None => 1,
    }
}

// The digits come from the last to the first. They are counted before, so that each is written where it stays; the first is what is
// left, without a division. By index here and in `put_hex`: through items that are lent, what is written goes by their loans, and a
// loop's invariant can't name `out`.
fn put_decimal(out: &mut [u8], at: usize, n: u64) -> usize
    requires { at + 20 ≤ length out.old }
    ensures wrote { Wrote out.old at (decimal n) out.new result }
    ensures short { result ≤ at + 20 }
{
    let end = at + count(n);
    let mut rest = n;
    for i in (at + 1..end).rev() {
        out[i] = 48 + (rest % 10) as u8;
        rest = rest / 10;
    }
    out[at] = 48 + rest as u8;
    end
}

// The letter of a hex digit: by a sum, since an indexed constant table is built anew at each use.
fn letter(n: u8) -> u8
    requires { n < 16 }
    ensures { result ≡ hex_letter n }
{
    if n < 10 {
        return 48 + n;
    }
    55 + n
}

// This and the function `put_decimal` are on a room and a place, of which their loops and proofs speak: the methods are their face.
fn put_hex(out: &mut [u8], at: usize, bytes: &[u8]) -> usize
    requires { at + 2 * length bytes.now ≤ length out.old }
    ensures { Wrote out.old at (hex_text bytes.now) out.new result }
{
    for (k, b) in bytes.iter().enumerate() {
        out[at + 2 * k] = letter(*b / 16);
        out[at + 2 * k + 1] = letter(*b % 16);
    }
    at + 2 * bytes.len()
}

impl<'a> Text<'a> {
    ghost use Rattle.digits.specs.Wrote.{HasRoom, Adds};

    pub fn put_byte(&mut self, byte: u8)
        requires { HasRoom self.old 1 }
        ensures { Adds self.old (byte ∷ []) self.new }
    {
        self.out[self.at] = byte;
        self.at += 1;
    }

    pub fn put_bytes(&mut self, bytes: &[u8])
        requires { HasRoom self.old (length bytes.now) }
        ensures { Adds self.old bytes.now self.new }
    {
        let end = self.at + bytes.len();
        self.out[self.at..end].copy_from_slice(bytes);
        self.at = end;
    }

    pub fn put_decimal(&mut self, n: u64)
        requires { HasRoom self.old 20 }
        ensures adds { Adds self.old (decimal n) self.new }
        ensures short { self.new.at ≤ self.old.at + 20 }
    {
        self.at = put_decimal(self.out, self.at, n);
    }

    pub fn put_hex(&mut self, bytes: &[u8])
        requires { HasRoom self.old (2 * length bytes.now) }
        ensures adds { Adds self.old (hex_text bytes.now) self.new }
        ensures short { self.new.at ≡ self.old.at + 2 * length bytes.now }
    {
        self.at = put_hex(self.out, self.at, bytes);
    }
}
