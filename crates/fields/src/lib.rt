// One field of a line, read where it stands, in one pass: what it spells is `field_of` of the model.
#![tactic(auto)]

ghost use Rattle.std.specs.Prelude.{◌≡◌, ◌+◌, ◌-◌, ◌^◌, ◌<◌, ◌≤◌, length, drop, replicate, ◌==◌, nat_le, slice_index};
ghost use Rattle.model.specs.Lines.{spelt, number_field, packed, name_field, right_field, hex_digit, hex_digits, hex_field, field_of};
ghost use Rattle.fields.specs.Fields.{field_from, end_from, found, word_field, kind_of, stretch};

pub mod hexes;

// The kinds of fields. Data come last in a line, and run to its end.
#[derive(Clone, Copy, PartialEq, Eq)]
pub enum Kind {
    Number,
    Name,
    Right,
    Data,
}

// What a field spells, and where it ends. It spells a number, a name as one number, a right as 0 or 1, or how many bytes of
// data.
#[derive(Clone, Copy)]
pub struct Field {
    pub value: u64,
    pub end: usize,
}

// The largest number.
const MOST: u64 = 4_294_967_295;

// Whether a field ends before the byte at i: at a tab, or where the line ends.
#[tactic(auto, using(crate::proofs::FieldEnds::ends_inside, crate::proofs::FieldEnds::ends_past))]
fn ends(line: &[u8], i: usize) -> bool
    ensures { result ≡ (length (field_from line.now i) == 0) }
{
    line.len() <= i || line[i] == b'\t'
}

// A field of one byte, which spells a value; or one that goes on.
#[tactic(auto, unfolding(crate::specs::Fields::found, model::specs::Lines::spelt))]
fn alone(line: &[u8], start: usize, value: u64) -> Option<Field>
    requires { start < length line.now }
    ensures { result ≡ found (spelt (length (field_from line.now (start + 1)) == 0) value) (start + 1) }
{
    let end = start + 1;
    ends(line, end).then_some(Field { value, end })
}

// What digits spell that were read to their end.
#[tactic(auto, unfolding(crate::specs::Fields::found, model::specs::Lines::spelt))]
fn within(value: u64, end: usize) -> Option<Field>
    ensures { result ≡ found (spelt (nat_le value MOST) value) end }
{
    if value > MOST {
        return None;
    }
    Some(Field { value, end })
}

// A number that starts with a digit other than 0. A value that one more digit makes too large is refused before it, so that no
// sum wraps, however many digits there are.
fn digits(line: &[u8], start: usize) -> Option<Field>
    requires { (start < length line.now) × (48 < slice_index line.now start) × (slice_index line.now start ≤ 57) }
    ensures { result ≡ found (number_field (field_from line.now start)) (end_from line.now start) }
{
    let mut v = u64::from(line[start] - b'0');
    // By index: the place is part of what is found.
    for i in start + 1..line.len() {
        // Digits first: a `match` looks for a tab before them, and takes two instructions more for each digit.
        let b = line[i];
        if !b.is_ascii_digit() {
            return if b == b'\t' { within(v, i) } else { None };
        }
        if v > MOST / 10 {
            return None;
        }
        v = v * 10 + u64::from(b - b'0');
    }
    within(v, line.len())
}

fn number(line: &[u8], start: usize) -> Option<Field>
    ensures { result ≡ found (number_field (field_from line.now start)) (end_from line.now start) }
{
    match line.get(start)? {
        b'0' => alone(line, start, 0),
        b'1'..=b'9' => digits(line, start),
        _ => None,
    }
}

// Blanks after the n bytes in v, up to eight.
#[tactic(auto, using(crate::proofs::Readings::paddings))]
fn padded(v: u64, n: usize) -> u64
    requires { (n ≤ 8) × (v < 256 ^ n) }
    ensures { result ≡ packed v (replicate (8 - n) 32) }
{
    let mut p = v;
    for _ in n..8 {
        p = p * 256 + u64::from(b' ');
    }
    p
}

// What n bytes spell that were read to their end.
#[tactic(auto, unfolding(crate::specs::Fields::found, model::specs::Lines::spelt))]
fn named(v: u64, n: usize, end: usize) -> Option<Field>
    requires { (n ≤ 8) × (v < 256 ^ n) }
    ensures { result ≡ found (spelt (nat_le 1 n) (packed v (replicate (8 - n) 32))) end }
{
    if n == 0 {
        return None;
    }
    Some(Field {
        value: padded(v, n),
        end,
    })
}

#[tactic(auto, using(crate::proofs::Readings::names))]
fn name(line: &[u8], start: usize) -> Option<Field>
    ensures { result ≡ found (name_field (field_from line.now start)) (end_from line.now start) }
{
    if line.len() <= start {
        return None;
    }
    let mut v = 0;
    // By index: the place is part of what is found.
    for i in start..line.len() {
        match line[i] {
            b'\t' => return named(v, i - start, i),
            b' ' => return None,
            b if i - start < 8 => v = v * 256 + u64::from(b),
            _ => return None,
        }
    }
    named(v, line.len() - start, line.len())
}

// The first field of a line, as a call's name: a 1 and then its bytes, at most seven.
#[tactic(auto, using(crate::proofs::Readings::words))]
pub fn word(line: &[u8]) -> Option<Field>
    ensures { result ≡ found (word_field (field_from line.now 0)) (end_from line.now 0) }
{
    let mut value = 1;
    for (end, b) in line.iter().enumerate() {
        match *b {
            b'\t' => return Some(Field { value, end }),
            b if end < 7 => value = value * 256 + u64::from(b),
            _ => return None,
        }
    }
    Some(Field {
        value,
        end: line.len(),
    })
}

fn right(line: &[u8], start: usize) -> Option<Field>
    ensures { result ≡ found (right_field (field_from line.now start)) (end_from line.now start) }
{
    match line.get(start)? {
        b'R' => alone(line, start, 0),
        b'W' => alone(line, start, 1),
        _ => None,
    }
}

// A difference that wraps tests a range at once; by patterns of ranges a line of 256 bytes takes a twentieth more instructions.
#[tactic(auto, using(crate::proofs::Spelling::hex_decimal, crate::proofs::Spelling::hex_letter, crate::proofs::Spelling::hex_none))]
fn is_digit(b: u8) -> bool
    ensures { result ≡ hex_digit b }
{
    b.wrapping_sub(b'0') < 10 || b.wrapping_sub(b'A') < 6
}

fn all_hex(f: &[u8]) -> bool
    ensures { result ≡ hex_digits f.now }
{
    moves::find_by(f, 0, |b| !is_digit(b)) == f.len()
}

// What is left of a line.
fn rest(line: &[u8], start: usize) -> &[u8]
    ensures { result.now ≡ drop start line.now }
{
    line.get(start..).unwrap_or(&[])
}

// Data, which run to the line's end: a tab is no digit. They are checked and counted here, and decoded by `hexes`.
fn data(line: &[u8], start: usize) -> Option<Field>
    ensures { result ≡ found (hex_field (drop start line.now)) (start + length (drop start line.now)) }
{
    let f = rest(line, start);
    if f.len() % 2 == 1 || 514 < f.len() || !all_hex(f) {
        return None;
    }
    Some(Field {
        value: (f.len() / 2) as u64,
        end: start + f.len(),
    })
}

// The field of a kind that starts at a place.
#[tactic(auto, unfolding(model::specs::Lines::field_of))]
pub fn read_field(kind: Kind, line: &[u8], start: usize) -> Option<Field>
    ensures { result ≡ found (field_of (kind_of kind) (stretch (kind_of kind) line.now start)) (start + length (stretch (kind_of kind) line.now start)) }
{
    match kind {
        Kind::Number => number(line, start),
        Kind::Name => name(line, start),
        Kind::Right => right(line, start),
        Kind::Data => data(line, start),
    }
}
