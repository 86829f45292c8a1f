// CREATE, for callers that hold a sound state and its scratch.
#![tactic(auto)]

ghost use Rattle.std.specs.Prelude.{◌*◌, ◌≤◌, ◌≡◌, length};
ghost use Rattle.model.specs.Calls.{creating as creating_in};
ghost use Rattle.model.specs.Replies.{call_of};
ghost use Rattle.sound.specs.Answered.{AnsweredOver};
ghost use Rattle.model.specs.declared.Operation.TheVariants.{Create};
ghost use Rattle.making.specs.Placing.{CallPlacedTo};

use making::Placed;
use model::{Answer, Caller, Kind, State};
use sound::Sound;

// All its checks.
fn decide(s: &State, caller: Caller, name: u64, pages: u32) -> Result<Placed, Answer>
    requires { s.now.frames ≤ 512 }
    ensures { CallPlacedTo s.now.frames s.now.next s.now.spaces s.now.guests (call_of caller (Create name pages)) name pages (λ t. creating_in t caller.guest name pages) result }
{
    let Some(at) = lookup::caller_place(&s.guests, caller.guest) else {
        return Err(Answer::BadCaller);
    };
    if !names::good_name(name) {
        return Err(Answer::Limit {
            kind: Kind::Name,
            place: 2,
        });
    }
    if pages == 0 || 512 < pages {
        return Err(Answer::Limit {
            kind: Kind::Pages,
            place: 3,
        });
    }
    if lookup::find_named(&s.spaces, caller.guest, name).is_some() {
        return Err(Answer::NameTaken);
    }
    if lookup::data_spaces(&s.spaces, caller.guest) == s.guests[at].allowance as usize {
        return Err(Answer::AllowanceUsed);
    }
    making::place(&s.spaces, s.frames, s.next, caller.guest, name, pages)
}

pub fn create(s: &mut Sound, scratch: &mut [u8], caller: Caller, name: u64, pages: u32) -> Answer
    requires { length scratch.old ≡ s.old.state.now.frames * 4096 }
    ensures { AnsweredOver s.old (call_of caller (Create name pages)) result s.new scratch.old scratch.new }
{
    match decide(s.state, caller, name, pages) {
        Ok(placed) => making::settle(s.state, scratch, placed),
        Err(refusal) => refusal,
    }
}
