// LOAD, MODE and KEY: the registers, the mode and the access key of the caller's CPU. Each is decided on what it has seen of the
// tables, of any state that it was seen in; and done on a sound state.
#![tactic(auto)]

ghost use Rattle.std.specs.Prelude.{◌≡◌};
ghost use Rattle.model.specs.Replies.{call_of};
ghost use Rattle.model.specs.declared.Operation.TheVariants.{Load, Mode, Key};
ghost use Rattle.sound.specs.Answered.{Answered};
ghost use Rattle.edits.specs.Edits.{Decided, edited, Seen};

use edits::{Edit, Granted};
use model::{Answer, Caller, Operation};
use sound::Sound;
use views::View;

pub fn decide_load(v: &View, register: u32, value: u32) -> Result<Granted, Answer>
    ensures { Decided v.now (Load register value) (edited result) }
{
    let cpu = v.caller()?;
    let register = limits::register(register, 2)?;
    Ok(Granted::from(Edit::Register {
        cpu,
        register,
        value,
    }))
}

pub fn load(s: &mut Sound, caller: Caller, register: u32, value: u32) -> Answer
    ensures answered { Answered s.old (call_of caller (Load register value)) result s.new }
    ensures seen { Seen s.old (call_of caller (Load register value)) result }
{
    let operation = Operation::Load { register, value };
    edits::call(s, caller, operation, |v| decide_load(v, register, value))
}

pub fn decide_mode(v: &View, mode: u32) -> Result<Granted, Answer>
    ensures { Decided v.now (Mode mode) (edited result) }
{
    let cpu = v.caller()?;
    let mode = limits::flag(mode, 2)?;
    // only access-register mode asks for the ASF control
    if mode && !v.guest.asf {
        return Err(Answer::SpecialOperation);
    }
    Ok(Granted::from(Edit::Mode { cpu, mode }))
}

pub fn mode(s: &mut Sound, caller: Caller, mode: u32) -> Answer
    ensures answered { Answered s.old (call_of caller (Mode mode)) result s.new }
    ensures seen { Seen s.old (call_of caller (Mode mode)) result }
{
    let operation = Operation::Mode { mode };
    edits::call(s, caller, operation, |v| decide_mode(v, mode))
}

pub fn decide_key(v: &View, key: u32) -> Result<Granted, Answer>
    ensures { Decided v.now (Key key) (edited result) }
{
    let cpu = v.caller()?;
    let key = limits::key(key, 2)?;
    Ok(Granted::from(Edit::Key { cpu, key }))
}

pub fn key(s: &mut Sound, caller: Caller, key: u32) -> Answer
    ensures answered { Answered s.old (call_of caller (Key key)) result s.new }
    ensures seen { Seen s.old (call_of caller (Key key)) result }
{
    let operation = Operation::Key { key };
    edits::call(s, caller, operation, |v| decide_key(v, key))
}
