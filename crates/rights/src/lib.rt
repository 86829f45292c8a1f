// PERMIT, ISOLATE, QUERY, ADD and REMOVE. Each is decided on what it has seen of the tables, of any state that it was seen in; and
// done on a sound state.
#![tactic(auto)]

ghost use Rattle.std.specs.Prelude.{◌≡◌};
ghost use Rattle.model.specs.Calls.{judge};
ghost use Rattle.model.specs.Replies.{call_of};
ghost use Rattle.model.specs.declared.Operation.TheVariants.{Permit as PermitCall, Isolate, Query, Add, Remove};
ghost use Rattle.sound.specs.Answered.{Answered};
ghost use Rattle.edits.specs.Edits.{Decided, edited, Seen};
ghost use Rattle.rights.specs.Isolated.{IsolatedTo, SeenIsolated};

use edits::{Edit, Edited, Granted};
use model::{Answer, Caller, Entry, Kind, Operation, Permit, Right, Standing};
use sound::Sound;
use views::View;

// The right becomes the greater of old and new.
pub fn decide_permit(v: &View, id: u32, guest: u32, right: Right) -> Result<Granted, Answer>
    ensures { Decided v.now (PermitCall id guest right) (edited result) }
{
    let caller = u32::from(v.caller()?) + 1;
    if guest == caller || 8 <= v.other {
        return Err(Answer::Limit {
            kind: Kind::OtherGuest,
            place: 3,
        });
    }
    let slot = lookup::owned_at(v.slot as usize, v.space, caller)?;
    if !v.guest.share {
        return Err(Answer::NoSharing);
    }
    let grant = permits::raise(v.permit.grant, right);
    Ok(Granted::from(Edit::Permit {
        place: slot * 8 + v.other as u8,
        permit: Permit { grant },
    }))
}

pub fn permit(s: &mut Sound, caller: Caller, id: u32, guest: u32, right: Right) -> Answer
    ensures answered { Answered s.old (call_of caller (PermitCall id guest right)) result s.new }
    ensures seen { Seen s.old (call_of caller (PermitCall id guest right)) result }
{
    let operation = Operation::Permit { id, guest, right };
    edits::call(s, caller, operation, |v| decide_permit(v, id, guest, right))
}

// All permits for the space go, and with them other guests' entries for it; the owner's stay. Two tables change, all over: what
// is decided is the slot that is closed.
pub fn decide_isolate(v: &View, id: u32) -> Result<u8, Answer>
    ensures { IsolatedTo v.now id result }
{
    let caller = u32::from(v.caller()?) + 1;
    lookup::owned_at(v.slot as usize, v.space, caller)
}

pub fn isolate(s: &mut Sound, caller: Caller, id: u32) -> Answer
    ensures answered { Answered s.old (call_of caller (Isolate id)) result s.new }
    ensures seen { SeenIsolated s.old caller id result }
{
    let operation = Operation::Isolate { id };
    let v = views::seen_by(s.state, caller, operation);
    match decide_isolate(&v, id) {
        Ok(slot) => {
            closing::close(s.state, slot);
            Answer::Done { value: 0 }
        }
        Err(refusal) => refusal,
    }
}

// An absent space and one that the caller may not read are answered alike. No table changes.
pub fn decide_query(v: &View, owner: u32, name: u64) -> Result<Granted, Answer>
    ensures { Decided v.now (Query owner name) (edited result) }
{
    let caller = u32::from(v.caller()?) + 1;
    if !lookup::is_guest(owner) {
        return Err(Answer::Limit {
            kind: Kind::OtherGuest,
            place: 2,
        });
    }
    if !names::good_name(name) {
        return Err(Answer::Limit {
            kind: Kind::Name,
            place: 3,
        });
    }
    if 32 <= v.slot || !permits::is_entitled(v.space, v.permit, caller, Right::Read) {
        return Err(Answer::NoSpace);
    }
    Ok(Granted {
        value: v.space.id,
        edit: Edit::Nothing,
    })
}

pub fn query(s: &Sound, caller: Caller, owner: u32, name: u64) -> Answer
    ensures value { result ≡ (judge s.now.state.now (call_of caller (Query owner name)) 0).answer }
    ensures seen { Seen s.now (call_of caller (Query owner name)) result }
{
    let operation = Operation::Query { owner, name };
    let v = views::seen_by(s.state, caller, operation);
    Edited::from(decide_query(&v, owner, name)).answer
}

// The lowest unused entry of the list stands for the space. The value is its token; entries are numbered from 2.
pub fn decide_add(v: &View, id: u32, right: Right) -> Result<Granted, Answer>
    ensures { Decided v.now (Add id right) (edited result) }
{
    let at = v.caller()?;
    if 32 <= v.slot {
        return Err(Answer::NoSpace);
    }
    if !permits::is_entitled(v.space, v.permit, u32::from(at) + 1, right) {
        return Err(Answer::NotPermitted);
    }
    // no list has more than 30 entries
    if 30 <= v.free || v.guest.list <= v.free {
        return Err(Answer::ListFull);
    }
    let sequence = v.unused.sequence;
    Ok(Granted {
        value: u32::from(sequence) * 65536 + (u32::from(v.free) + 2),
        edit: Edit::Entry {
            place: at * 30 + v.free,
            entry: Entry {
                standing: Standing::Valid {
                    slot: v.slot,
                    right,
                },
                sequence,
            },
        },
    })
}

pub fn add(s: &mut Sound, caller: Caller, id: u32, right: Right) -> Answer
    ensures answered { Answered s.old (call_of caller (Add id right)) result s.new }
    ensures seen { Seen s.old (call_of caller (Add id right)) result }
{
    let operation = Operation::Add { id, right };
    edits::call(s, caller, operation, |v| decide_add(v, id, right))
}

// Valid or revoked, the entry becomes unused.
pub fn decide_remove(v: &View, token: u32) -> Result<Granted, Answer>
    ensures { Decided v.now (Remove token) (edited result) }
{
    let at = v.caller()?;
    if token == 0 || entries::is_malformed(token) {
        return Err(Answer::AletSpecification);
    }
    if !entries::is_assigned(v.entry, v.guest.list, token) {
        return Err(Answer::AlenTranslation);
    }
    Ok(Granted::from(Edit::Entry {
        place: at * 30 + ((token % 65536) as u8 - 2),
        entry: entries::release(v.entry),
    }))
}

pub fn remove(s: &mut Sound, caller: Caller, token: u32) -> Answer
    ensures answered { Answered s.old (call_of caller (Remove token)) result s.new }
    ensures seen { Seen s.old (call_of caller (Remove token)) result }
{
    let operation = Operation::Remove { token };
    edits::call(s, caller, operation, |v| decide_remove(v, token))
}
