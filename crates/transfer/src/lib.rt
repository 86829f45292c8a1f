// What follows translation: the checks 17, 18 and 22, and the bytes moved.
#![tactic(auto)]

ghost use Rattle.std.specs.Prelude.{◌≤◌, ◌≡◌, length};
ghost use Rattle.transfer.specs.Transferred.{RunIn, placed, fetch_answer, fetched, store_answer, stored};

use keys::Guard;
use model::{Answer, Right, Space};

// The checks, and where in scratch the first byte lies. `storing` is a Boolean as in `keys::permits`. Address and length are added in
// 64 bits, where their sum does not wrap.
#[tactic(auto, using(std::proofs::lemmas::Bool::Decides::nat_tests), unfolding(crate::specs::Transferred::placed, model::specs::Calls::writes, lists::specs::Choice::implies, lists::specs::Choice::choose))]
fn place_of(
    x: &Space,
    right: Right,
    guard: &Guard,
    storing: bool,
    address: u32,
    length: usize,
) -> Result<usize, Answer>
    requires { length ≤ 256 }
    ensures { result ≡ placed x.now right guard.now storing address length }
{
    let end = address as usize + length;
    if end > usize::from(x.pages) * 4096 {
        return Err(Answer::Addressing);
    }
    if storing && right != Right::Write {
        return Err(Answer::Protection);
    }
    if !keys::permits(guard, storing, address, length) {
        return Err(Answer::KeyProtection);
    }
    Ok(usize::from(x.first) * 4096 + address as usize)
}

// A fetch from the space that was reached: whoever reaches it may read.
pub fn fetch_from(
    x: &Space,
    guard: &Guard,
    scratch: &[u8],
    address: u32,
    buffer: &mut [u8],
) -> Answer
    requires { (length buffer.old ≤ 256) × (RunIn x.now scratch.now) }
    ensures value { result ≡ fetch_answer x.now guard.now address (length buffer.old) }
    ensures buffer_after { buffer.new ≡ fetched x.now guard.now address scratch.now buffer.old }
{
    match place_of(x, Right::Read, guard, false, address, buffer.len()) {
        Ok(place) => {
            moves::fill(buffer, &scratch[place..]);
            Answer::Done { value: 0 }
        }
        Err(refusal) => refusal,
    }
}

// What a fetch and a store share is `place_of`: they differ in what is lent.
// A store to the space that was reached: the part of scratch from the address's place on is lent to the byte writer.
pub fn store_to(
    x: &Space,
    right: Right,
    guard: &Guard,
    scratch: &mut [u8],
    address: u32,
    bytes: &[u8],
) -> Answer
    requires { (length bytes.now ≤ 256) × (RunIn x.now scratch.old) }
    ensures value { result ≡ store_answer x.now right guard.now address (length bytes.now) }
    ensures scratch_after { scratch.new ≡ stored x.now right guard.now address scratch.old bytes.now }
{
    match place_of(x, right, guard, true, address, bytes.len()) {
        Ok(place) => {
            moves::put(&mut scratch[place..], bytes);
            Answer::Done { value: 0 }
        }
        Err(refusal) => refusal,
    }
}
