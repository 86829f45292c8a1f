// The bytes that hexadecimal digits spell: `hex_bytes` of the model.
ghost use Rattle.std.specs.Prelude.{◌≡◌, ◌+◌, ◌*◌, ◌/◌, ◌%◌, ◌<◌, ◌≤◌, true, length, slice_index};
ghost use Rattle.lists.specs.Bytes.{over};
ghost use Rattle.model.specs.Lines.{hex_digit, hex_value, hex_digits, hex_bytes};

// Two digits at once, the first lower: the compiler reads them as one number, and decodes many pairs at a time.
fn pair(digits: &[u8]) -> u16
    requires { length digits.now ≡ 2 }
    ensures { (result % 256 ≡ slice_index digits.now 0) × (result / 256 ≡ slice_index digits.now 1) }
{
    u16::from(digits[0]) + u16::from(digits[1]) * 256
}

// The lower four bits, and 9 more for a letter, which has bit 6.
#[tactic(auto, using(crate::proofs::Spelling::value_is, crate::proofs::Spelling::value_small))]
fn hex_value(b: u16) -> u16
    requires { hex_digit b ≡ true }
    ensures { (result ≡ hex_value b) × (result ≤ 15) }
{
    b % 16 + b / 64 * 9
}

fn byte_of(digits: u16) -> u8
    requires { (hex_digit (digits % 256) ≡ true) × (hex_digit (digits / 256) ≡ true) }
    ensures { result ≡ hex_value (digits % 256) * 16 + hex_value (digits / 256) }
{
    (hex_value(digits % 256) * 16 + hex_value(digits / 256)) as u8
}

// The bytes that pairs of digits spell, over the first of `out`.
pub fn decode(f: &[u8], out: &mut [u8])
    requires { (hex_digits f.now ≡ true) × (length f.now / 2 ≤ length out.old) }
    ensures { out.new ≡ over out.old 0 (hex_bytes f.now) }
{
    // The place is counted: through items of `out`, what is written goes by their loans, and the loop's invariant can't name `out`.
    for (i, digits) in f.chunks_exact(2).enumerate() {
        out[i] = byte_of(pair(digits));
    }
}
