// What a call decides that changes one element of the tables at most: its answer, and the element; and how it is stored, in tables
// that are lent.
#![tactic(auto)]

ghost use Rattle.std.specs.Prelude.{◌≡◌};
ghost use Rattle.model.specs.Changes.{applied};
ghost use Rattle.model.specs.Replies.{reply, call_of};
ghost use Rattle.sound.specs.Answered.{Answered};
ghost use Rattle.edits.specs.Edits.{Fits, change_of, edited, Decided, Seen};

use model::{Answer, Caller, Cell, Entry, Operation, Permit, State};
use sound::Sound;
use views::View;

// The element that is stored. That there is none is a case: `change_of` gives the model's `Keep` for it.
#[derive(Clone, Copy)]
pub enum Edit {
    Nothing,
    Permit { place: u8, permit: Permit },
    Entry { place: u8, entry: Entry },
    Register { cpu: u8, register: u8, value: u32 },
    Mode { cpu: u8, mode: bool },
    Key { cpu: u8, key: u8 },
    Cell { place: u16, cell: Cell },
}

// A call that passes its checks: the value that it answers, and the element that it stores.
#[derive(Clone, Copy)]
pub struct Granted {
    pub value: u32,
    pub edit: Edit,
}

// Most calls answer the value 0.
impl From<Edit> for Granted {
    ghost from_gives = { λ edit granted. granted ≡ record { value = 0; edit = edit } };

    fn from(edit: Edit) -> Granted {
        Granted { value: 0, edit }
    }
}

// What any call comes to: its answer, and the element.
#[derive(Clone, Copy)]
pub struct Edited {
    pub answer: Answer,
    pub edit: Edit,
}

// A refused call stores nothing.
impl From<Result<Granted, Answer>> for Edited {
    ghost from_gives = { λ decided e. e ≡ edited decided };

    fn from(decided: Result<Granted, Answer>) -> Edited {
        match decided {
            Ok(granted) => Edited {
                answer: Answer::Done {
                    value: granted.value,
                },
                edit: granted.edit,
            },
            Err(answer) => Edited {
                answer,
                edit: Edit::Nothing,
            },
        }
    }
}

// The element is stored in its table, where the tables stand.
#[tactic(auto, using(crate::proofs::Kept::insides, crate::proofs::Kept::stored_by), unfolding(crate::specs::Edits::change_of))]
pub fn store(s: &mut State, edit: Edit)
    requires { Fits edit }
    ensures { s.new ≡ applied s.old (change_of edit) }
{
    match edit {
        Edit::Nothing => {}
        Edit::Permit { place, permit } => {
            s.permits[place as usize] = permit;
        }
        Edit::Entry { place, entry } => {
            s.entries[place as usize] = entry;
        }
        Edit::Register {
            cpu,
            register,
            value,
        } => {
            s.cpus[cpu as usize].registers[register as usize] = value;
        }
        Edit::Mode { cpu, mode } => {
            s.cpus[cpu as usize].mode = mode;
        }
        Edit::Key { cpu, key } => {
            s.cpus[cpu as usize].key = key;
        }
        Edit::Cell { place, cell } => {
            s.cells[place as usize] = cell;
        }
    }
}

// What a call came to, carried out: its answer.
pub fn carry(s: &mut State, e: Edited) -> Answer
    requires { Fits e.edit }
    ensures { reply result s.new ≡ reply e.answer (applied s.old (change_of e.edit)) }
{
    store(s, e.edit);
    e.answer
}

// A call on a sound state: decided on what it sees, and carried out. What it comes to hangs on that alone.
pub fn call<F: FnOnce(&View) -> Result<Granted, Answer>>(
    s: &mut Sound,
    caller: Caller,
    operation: Operation,
    decide: F,
) -> Answer
    requires callable { F.IsAlwaysCallable decide }
    requires decides { (v : _) (r : _) → F.post decide v r → Decided v.now operation (edited r) }
    ensures answered { Answered s.old (call_of caller operation) result s.new }
    ensures seen { Seen s.old (call_of caller operation) result }
{
    let v = views::seen_by(s.state, caller, operation);
    carry(s.state, decide(&v).into())
}
