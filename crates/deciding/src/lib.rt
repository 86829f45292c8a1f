// Any call on a sound state with its scratch: each goes to the function that carries it out.
#![tactic(auto)]

ghost use Rattle.std.specs.Prelude.{◌*◌, ◌≡◌, length};
ghost use Rattle.model.specs.Replies.{reply};
ghost use Rattle.asks.specs.Asks.{asks_by};
ghost use Rattle.views.specs.Views.{view_of};
ghost use Rattle.deciding.specs.Served.{Served};
ghost use Rattle.deciding.specs.Decisions.{DecidedTo};

use model::{Answer, Call, Operation};
use sound::Sound;

// `scratch` and `buffer` are the machine's frames and the call's own buffer. The length of scratch is asked here, and is no invariant of
// Sound, since it goes by what is lent beside the state. What a call comes to that does not ask for whole tables hangs on what it sees of
// them alone.
pub fn serve(s: &mut Sound, scratch: &mut [u8], call: &Call, buffer: &mut [u8]) -> Answer
    requires { length scratch.old ≡ s.old.state.now.frames * 4096 }
    ensures same_state { s.new.state.ghost_name ≡ s.old.state.ghost_name }
    ensures served { Served s.old.state.now call.now (reply result s.new.state.now) scratch.old buffer.old scratch.new buffer.new }
    ensures seen { DecidedTo (view_of s.old.state.now (asks_by call.now.caller.guest call.now.operation)) call.now.operation scratch.old buffer.old result scratch.new buffer.new }
{
    let caller = call.caller;
    match call.operation {
        Operation::Enrol { settings } => enrolling::enrol(s, scratch, caller, settings),
        Operation::Create { name, pages } => creating::create(s, scratch, caller, name, pages),
        Operation::Destroy { id } => withdrawing::destroy(s, scratch, caller, id),
        Operation::Permit { id, guest, right } => rights::permit(s, caller, id, guest, right),
        Operation::Isolate { id } => rights::isolate(s, caller, id),
        Operation::Query { owner, name } => rights::query(s, caller, owner, name),
        Operation::Add { id, right } => rights::add(s, caller, id, right),
        Operation::Remove { token } => rights::remove(s, caller, token),
        Operation::Load { register, value } => cpus::load(s, caller, register, value),
        Operation::Mode { mode } => cpus::mode(s, caller, mode),
        Operation::Fetch { register, address } => {
            access::fetch(s, scratch, caller, register, address, buffer)
        }
        Operation::Store { register, address } => {
            access::store(s, scratch, caller, register, address, buffer)
        }
        Operation::Reset => withdrawing::reset(s, scratch, caller),
        Operation::Key { key } => cpus::key(s, caller, key),
        Operation::Block {
            id,
            address,
            key,
            mark,
        } => blocks::block(s, caller, id, address, key, mark),
    }
}
