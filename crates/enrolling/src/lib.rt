// ENROL, for callers that hold a sound state and its scratch.
#![tactic(auto)]

ghost use Rattle.std.specs.Prelude.{◌*◌, ◌≤◌, ◌<◌, Err, ◌≡◌, length};
ghost use Rattle.enrolling.specs.Enrolling.{settings_checked, EnrolsTo};
ghost use Rattle.model.specs.Calls.{may_enrol, new_guest};
ghost use Rattle.model.specs.Replies.{call_of};
ghost use Rattle.sound.specs.Answered.{AnsweredOver};
ghost use Rattle.model.specs.declared.Answer.TheVariants.{Limit};
ghost use Rattle.model.specs.declared.Operation.TheVariants.{Enrol};

use making::Placed;
use model::{Answer, BASE, Caller, Guest, Kind, Settings, State};
use sound::Sound;

// Whether ENROL may be made for a guest: 1 to 8 and not enrolled.
#[tactic(auto, unfolding(model::specs::Calls::may_enrol, lists::specs::Choice::both))]
fn may_enrol(guests: &[Guest; 8], g: u32) -> bool
    ensures { result ≡ may_enrol guests.now g }
{
    1 <= g && g <= 8 && !guests[g as usize - 1].enrolled
}

fn outside(kind: Kind, place: u8) -> Result<(), Answer>
    ensures { result ≡ Err (Limit kind place) }
{
    Err(Answer::Limit { kind, place })
}

// The first of ENROL's settings outside its limits refuses it.
#[tactic(auto, unfolding(crate::specs::Enrolling::settings_checked, lists::specs::Choice::choose, lists::specs::Choice::both))]
fn check(x: Settings) -> Result<(), Answer>
    ensures { result ≡ settings_checked x }
{
    if x.pages == 0 || 512 < x.pages {
        return outside(Kind::Pages, 2);
    }
    if 31 < x.allowance {
        return outside(Kind::Allowance, 3);
    }
    if 1 < x.share {
        return outside(Kind::Flag, 4);
    }
    if x.list == 0 || 30 < x.list {
        return outside(Kind::ListSize, 5);
    }
    if 1 < x.asf {
        return outside(Kind::Flag, 6);
    }
    Ok(())
}

// The guest, of settings inside their limits.
#[tactic(auto, unfolding(model::specs::Calls::new_guest))]
fn new_guest(x: Settings) -> Guest
    requires { (x.allowance < 256) × (x.list < 256) }
    ensures { result ≡ new_guest x }
{
    Guest {
        enrolled: true,
        allowance: x.allowance as u8,
        share: x.share == 1,
        list: x.list as u8,
        asf: x.asf == 1,
    }
}

// All its checks.
fn decide(s: &State, caller: Caller, settings: Settings) -> Result<Placed, Answer>
    requires { s.now.frames ≤ 512 }
    ensures { EnrolsTo s.now.frames s.now.next s.now.spaces s.now.guests caller settings result }
{
    if !may_enrol(&s.guests, caller.guest) {
        return Err(Answer::BadCaller);
    }
    check(settings)?;
    making::place(
        &s.spaces,
        s.frames,
        s.next,
        caller.guest,
        BASE,
        settings.pages,
    )
}

pub fn enrol(s: &mut Sound, scratch: &mut [u8], caller: Caller, settings: Settings) -> Answer
    requires { length scratch.old ≡ s.old.state.now.frames * 4096 }
    ensures { AnsweredOver s.old (call_of caller (Enrol settings)) result s.new scratch.old scratch.new }
{
    match decide(s.state, caller, settings) {
        Ok(placed) => {
            s.state.guests[caller.guest as usize - 1] = new_guest(settings);
            making::settle(s.state, scratch, placed)
        }
        Err(refusal) => refusal,
    }
}
