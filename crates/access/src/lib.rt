// FETCH and STORE: from a register, through its token, to the bytes of a space. Each is decided and carried out on what it has
// seen of the tables, of any state that it was seen in; and of a sound state that is lent.
#![tactic(auto)]

ghost use Rattle.std.specs.Prelude.{◌*◌, ◌≡◌, length};
ghost use Rattle.model.specs.Calls.{judge};
ghost use Rattle.model.specs.Leaves.{scratch_judged, buffer_judged};
ghost use Rattle.model.specs.Replies.{call_of};
ghost use Rattle.model.specs.declared.Operation.TheVariants.{Fetch, Store};
ghost use Rattle.transfer.specs.Transferred.{RunIn};
ghost use Rattle.asks.specs.Asks.{asks_by};
ghost use Rattle.views.specs.Views.{view_of};
ghost use Rattle.access.specs.Access.{reached_by, Fetches, Stores};

use model::{Answer, Caller, Kind, Operation, Reach};
use sound::Sound;
use views::View;

// What a register reaches, for so many bytes: the checks 2 and 3, and 14 to 16 by translation.
#[tactic(auto, using(std::proofs::lemmas::Bool::Decides::nat_tests), unfolding(crate::specs::Access::reached_by, lists::specs::Choice::choose))]
fn reached(v: &View, register: u32, length: usize) -> Result<Reach, Answer>
    ensures { result ≡ reached_by v.now register length }
{
    v.caller()?;
    limits::register(register, 2)?;
    if !limits::good_length(length) {
        return Err(Answer::Limit {
            kind: Kind::Length,
            place: 4,
        });
    }
    translation::translate(v.slot, v.guest.list, v.entry, v.token)
}

// The buffer is filled from the space that is reached, or stays as it is.
pub fn fetch_seen(
    v: &View,
    scratch: &[u8],
    register: u32,
    address: u32,
    buffer: &mut [u8],
) -> Answer
    requires { RunIn v.now.space scratch.now }
    ensures { Fetches v.now register address scratch.now buffer.old result buffer.new }
{
    match reached(v, register, buffer.len()) {
        Ok(_) => transfer::fetch_from(&v.space, &v.guard, scratch, address, buffer),
        Err(refusal) => refusal,
    }
}

// The bytes go to the space that is reached, or scratch stays as it is. What a fetch and a store share is `reached`: they differ in what
// is lent and in what is promised of it.
pub fn store_seen(v: &View, scratch: &mut [u8], register: u32, address: u32, bytes: &[u8]) -> Answer
    requires { RunIn v.now.space scratch.old }
    ensures { Stores v.now register address scratch.old bytes.now result scratch.new }
{
    match reached(v, register, bytes.len()) {
        Ok(reach) => transfer::store_to(&v.space, reach.right, &v.guard, scratch, address, bytes),
        Err(refusal) => refusal,
    }
}

// FETCH and STORE in a sound state, by what they see of it.
pub fn fetch(
    s: &Sound,
    scratch: &[u8],
    caller: Caller,
    register: u32,
    address: u32,
    buffer: &mut [u8],
) -> Answer
    requires { length scratch.now ≡ s.now.state.now.frames * 4096 }
    ensures value { result ≡ (judge s.now.state.now (call_of caller (Fetch register address)) (length buffer.old)).answer }
    ensures buffer_after { buffer.new ≡ buffer_judged s.now.state.now (call_of caller (Fetch register address)) scratch.now buffer.old }
    ensures seen { Fetches (view_of s.now.state.now (asks_by caller.guest (Fetch register address))) register address scratch.now buffer.old result buffer.new }
{
    let operation = Operation::Fetch { register, address };
    let v = views::seen_by(s.state, caller, operation);
    fetch_seen(&v, scratch, register, address, buffer)
}

pub fn store(
    s: &Sound,
    scratch: &mut [u8],
    caller: Caller,
    register: u32,
    address: u32,
    bytes: &[u8],
) -> Answer
    requires { length scratch.old ≡ s.now.state.now.frames * 4096 }
    ensures value { result ≡ (judge s.now.state.now (call_of caller (Store register address)) (length bytes.now)).answer }
    ensures scratch_after { scratch.new ≡ scratch_judged s.now.state.now (call_of caller (Store register address)) scratch.old bytes.now }
    ensures seen { Stores (view_of s.now.state.now (asks_by caller.guest (Store register address))) register address scratch.old bytes.now result scratch.new }
{
    let operation = Operation::Store { register, address };
    let v = views::seen_by(s.state, caller, operation);
    store_seen(&v, scratch, register, address, bytes)
}
