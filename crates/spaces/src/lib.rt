// The space manager's public face. No function asks anything of its caller: check 1, then a call of the inner layer, which is
// for callers that hold a sound state. The contract of each is the model's step on the given tables, scratch and buffer; it speaks of
// the tables by value, so that they go in and come back so.
#![tactic(auto)]

ghost use Rattle.std.specs.Prelude.{[], true, false, ◌≡◌, length};
ghost use Rattle.std.specs.Fn.{FnOnceReturnsAtMut};
ghost use Rattle.model.specs.Calls.{ready};
ghost use Rattle.model.specs.Answers.{number as number_of, value as value_of};
ghost use Rattle.model.specs.Fresh.{fresh as fresh_of};
ghost use Rattle.model.specs.Promise.{Promise, step_of};
ghost use Rattle.model.specs.Replies.{reply, call_of};
ghost use Rattle.model.specs.declared.Answer.TheVariants.{Unsound};
ghost use Rattle.model.specs.declared.Operation.TheVariants.{Enrol, Create, Destroy, Permit, Isolate, Query, Add, Remove, Load, Mode, Fetch, Store, Reset, Key, Block};

use model::{Answer, Caller, Reply, Right, Settings, State};
use sound::Sound;

// The paper's number of an answer, and its value.
pub fn number(a: Answer) -> u32
    ensures { result ≡ number_of a }
{
    answers::number(a)
}

pub fn value(a: Answer) -> u32
    ensures { result ≡ value_of a }
{
    answers::value(a)
}

// The fresh state for a number of frames.
pub fn fresh(frames: u32) -> Reply
    ensures { result ≡ fresh_of frames }
{
    fresh::fresh(frames)
}

// Check 1, and then a call that reads scratch at most, on the state where it stands.
fn checked<F: FnOnce(&mut Sound) -> Answer>(mut s: State, scratch: &[u8], call: F) -> Reply
    requires callable { F.IsAlwaysCallable call }
    requires keeps { (p : _) (a : _) (q : _) → F.post call p a q → q.now.state.ghost_name ≡ p.now.state.ghost_name }
    ensures unready { ready s (length scratch.now) ≡ false → result ≡ reply Unsound s }
    ensures made { ready s (length scratch.now) ≡ true → (before : _) × (after : _) × FnOnceReturnsAtMut F.FnOnce call before result.answer after × (before.state.now ≡ s) × (after.state.now ≡ result.state) }
{
    if !ready::is_ready(&s, scratch.len()) {
        return Reply {
            answer: Answer::Unsound,
            state: s,
        };
    }
    let answer = call(&mut Sound { state: &mut s });
    Reply { answer, state: s }
}

// ENROL, CREATE, DESTROY and RESET change scratch too, and QUERY, FETCH and STORE give no state back: each has check 1 written out. One
// function more for four of them and another for the rest, whose closures would be handed scratch as well, would be no plainer.
pub fn enrol(mut s: State, scratch: &mut [u8], caller: Caller, settings: Settings) -> Reply
    ensures { Promise (step_of s scratch.old (call_of caller (Enrol settings)) []) result.answer result.state scratch.new [] }
{
    let answer = if ready::is_ready(&s, scratch.len()) {
        enrolling::enrol(&mut Sound { state: &mut s }, scratch, caller, settings)
    } else {
        Answer::Unsound
    };
    Reply { answer, state: s }
}

pub fn create(mut s: State, scratch: &mut [u8], caller: Caller, name: u64, pages: u32) -> Reply
    ensures { Promise (step_of s scratch.old (call_of caller (Create name pages)) []) result.answer result.state scratch.new [] }
{
    let answer = if ready::is_ready(&s, scratch.len()) {
        creating::create(&mut Sound { state: &mut s }, scratch, caller, name, pages)
    } else {
        Answer::Unsound
    };
    Reply { answer, state: s }
}

pub fn destroy(mut s: State, scratch: &mut [u8], caller: Caller, id: u32) -> Reply
    ensures { Promise (step_of s scratch.old (call_of caller (Destroy id)) []) result.answer result.state scratch.new [] }
{
    let answer = if ready::is_ready(&s, scratch.len()) {
        withdrawing::destroy(&mut Sound { state: &mut s }, scratch, caller, id)
    } else {
        Answer::Unsound
    };
    Reply { answer, state: s }
}

pub fn permit(s: State, scratch: &[u8], caller: Caller, id: u32, guest: u32, right: Right) -> Reply
    ensures { Promise (step_of s scratch.now (call_of caller (Permit id guest right)) []) result.answer result.state scratch.now [] }
{
    checked(s, scratch, |s| rights::permit(s, caller, id, guest, right))
}

pub fn isolate(s: State, scratch: &[u8], caller: Caller, id: u32) -> Reply
    ensures { Promise (step_of s scratch.now (call_of caller (Isolate id)) []) result.answer result.state scratch.now [] }
{
    checked(s, scratch, |s| rights::isolate(s, caller, id))
}

// QUERY changes nothing: the state is not returned.
pub fn query(mut s: State, scratch: &[u8], caller: Caller, owner: u32, name: u64) -> Answer
    ensures { Promise (step_of s scratch.now (call_of caller (Query owner name)) []) result s scratch.now [] }
{
    if !ready::is_ready(&s, scratch.len()) {
        return Answer::Unsound;
    }
    rights::query(&Sound { state: &mut s }, caller, owner, name)
}

pub fn add(s: State, scratch: &[u8], caller: Caller, id: u32, right: Right) -> Reply
    ensures { Promise (step_of s scratch.now (call_of caller (Add id right)) []) result.answer result.state scratch.now [] }
{
    checked(s, scratch, |s| rights::add(s, caller, id, right))
}

pub fn remove(s: State, scratch: &[u8], caller: Caller, token: u32) -> Reply
    ensures { Promise (step_of s scratch.now (call_of caller (Remove token)) []) result.answer result.state scratch.now [] }
{
    checked(s, scratch, |s| rights::remove(s, caller, token))
}

pub fn load(s: State, scratch: &[u8], caller: Caller, register: u32, value: u32) -> Reply
    ensures { Promise (step_of s scratch.now (call_of caller (Load register value)) []) result.answer result.state scratch.now [] }
{
    checked(s, scratch, |s| cpus::load(s, caller, register, value))
}

pub fn mode(s: State, scratch: &[u8], caller: Caller, mode: u32) -> Reply
    ensures { Promise (step_of s scratch.now (call_of caller (Mode mode)) []) result.answer result.state scratch.now [] }
{
    checked(s, scratch, |s| cpus::mode(s, caller, mode))
}

pub fn key(s: State, scratch: &[u8], caller: Caller, key: u32) -> Reply
    ensures { Promise (step_of s scratch.now (call_of caller (Key key)) []) result.answer result.state scratch.now [] }
{
    checked(s, scratch, |s| cpus::key(s, caller, key))
}

pub fn block(
    s: State,
    scratch: &[u8],
    caller: Caller,
    id: u32,
    address: u32,
    key: u32,
    mark: u32,
) -> Reply
    ensures { Promise (step_of s scratch.now (call_of caller (Block id address key mark)) []) result.answer result.state scratch.now [] }
{
    checked(
        s,
        scratch,
        |s| blocks::block(s, caller, id, address, key, mark),
    )
}

// FETCH and STORE leave the tables: the state is not returned.
pub fn fetch(
    mut s: State,
    scratch: &[u8],
    caller: Caller,
    register: u32,
    address: u32,
    buffer: &mut [u8],
) -> Answer
    ensures { Promise (step_of s scratch.now (call_of caller (Fetch register address)) buffer.old) result s scratch.now buffer.new }
{
    if !ready::is_ready(&s, scratch.len()) {
        return Answer::Unsound;
    }
    access::fetch(
        &Sound { state: &mut s },
        scratch,
        caller,
        register,
        address,
        buffer,
    )
}

pub fn store(
    mut s: State,
    scratch: &mut [u8],
    caller: Caller,
    register: u32,
    address: u32,
    bytes: &[u8],
) -> Answer
    ensures { Promise (step_of s scratch.old (call_of caller (Store register address)) bytes.now) result s scratch.new bytes.now }
{
    if !ready::is_ready(&s, scratch.len()) {
        return Answer::Unsound;
    }
    access::store(
        &Sound { state: &mut s },
        scratch,
        caller,
        register,
        address,
        bytes,
    )
}

pub fn reset(mut s: State, scratch: &mut [u8], caller: Caller) -> Reply
    ensures { Promise (step_of s scratch.old (call_of caller Reset) []) result.answer result.state scratch.new [] }
{
    let answer = if ready::is_ready(&s, scratch.len()) {
        withdrawing::reset(&mut Sound { state: &mut s }, scratch, caller)
    } else {
        Answer::Unsound
    };
    Reply { answer, state: s }
}

// Any of the fifteen as a value.
pub use calls::serve;
