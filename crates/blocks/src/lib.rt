// BLOCK: the key and the mark of one block of a space that the caller owns. It is decided on what it has seen of the tables, of any
// state that it was seen in; and done on a sound state.
#![tactic(auto)]

ghost use Rattle.std.specs.Prelude.{◌*◌, ◌≡◌, ltb};
ghost use Rattle.model.specs.Replies.{call_of};
ghost use Rattle.model.specs.declared.Operation.TheVariants.{Block};
ghost use Rattle.sound.specs.Answered.{Answered};
ghost use Rattle.edits.specs.Edits.{Decided, edited, Seen};

use edits::{Edit, Granted};
use model::{Answer, Caller, Cell, Operation, Space};
use sound::Sound;
use views::View;

fn has_address(x: Space, address: u32) -> bool
    ensures { result ≡ ltb address (x.pages * 4096) }
{
    (address as usize) < x.pages as usize * 4096
}

// Ownership alone is asked about: no token, no mode and no access key.
pub fn decide_block(v: &View, id: u32, address: u32, key: u32, mark: u32) -> Result<Granted, Answer>
    ensures { Decided v.now (Block id address key mark) (edited result) }
{
    let caller = u32::from(v.caller()?) + 1;
    let key = limits::key(key, 4)?;
    let mark = limits::flag(mark, 5)?;
    lookup::owned_at(v.slot as usize, v.space, caller)?;
    if !has_address(v.space, address) {
        return Err(Answer::Addressing);
    }
    Ok(Granted::from(Edit::Cell {
        place: views::block_place(v.space, address) as u16,
        cell: Cell { key, mark },
    }))
}

pub fn block(s: &mut Sound, caller: Caller, id: u32, address: u32, key: u32, mark: u32) -> Answer
    ensures answered { Answered s.old (call_of caller (Block id address key mark)) result s.new }
    ensures seen { Seen s.old (call_of caller (Block id address key mark)) result }
{
    let operation = Operation::Block {
        id,
        address,
        key,
        mark,
    };
    edits::call(
        s,
        caller,
        operation,
        |v| decide_block(v, id, address, key, mark),
    )
}
