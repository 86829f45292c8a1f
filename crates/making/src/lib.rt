// What ENROL and CREATE have in common: where a new space goes, and how it is made there.
#![tactic(auto)]

ghost use Rattle.std.specs.Prelude.{◌+◌, ◌*◌, ◌<◌, ◌≤◌, ◌≡◌, length};
ghost use Rattle.model.specs.Changes.{space_added};
ghost use Rattle.model.specs.Leaves.{in_run};
ghost use Rattle.model.specs.Step.{clear_frames};
ghost use Rattle.model.specs.declared.Answer.TheVariants.{Done};
ghost use Rattle.making.specs.Placing.{PlacedTo};

use model::{Answer, Space, State};

// A space that is to be made, and the slot in which it is to stand.
#[derive(Clone, Copy)]
pub struct Placed {
    pub slot: u8,
    pub space: Space,
}

// The checks 9, 11 and 10. A new space takes the lowest free slot and the lowest run of free frames.
pub fn place(
    spaces: &[Space; 32],
    frames: u32,
    next: u32,
    owner: u32,
    name: u64,
    pages: u32,
) -> Result<Placed, Answer>
    requires { (frames ≤ 512) × (1 ≤ pages) × (pages ≤ 512) × (owner ≤ 8) }
    ensures { PlacedTo frames next spaces.now owner name pages result }
{
    let Some(slot) = lookup::free_slot(spaces) else {
        return Err(Answer::SlotsUsed);
    };
    if 65536 <= next {
        return Err(Answer::NoIdentification);
    }
    let first = runs::free_run(spaces, frames, pages);
    if frames <= first {
        return Err(Answer::NoRun);
    }
    Ok(Placed {
        slot: slot as u8,
        space: Space {
            id: next,
            owner: owner as u8,
            name,
            first: first as u16,
            pages: pages as u16,
        },
    })
}

// The space is made: its frames become zeros, it stands in its slot, and its identification is used up.
pub fn settle(s: &mut State, scratch: &mut [u8], placed: Placed) -> Answer
    requires { (placed.slot < 32) × (s.old.next < 65536) × (placed.space.first * 4096 + placed.space.pages * 4096 ≤ length scratch.old) }
    ensures state_after { s.new ≡ space_added s.old placed.slot placed.space }
    ensures scratch_after { scratch.new ≡ clear_frames (in_run placed.space.first placed.space.pages) scratch.old }
    ensures value { result ≡ Done placed.space.id }
{
    let Placed { slot, space } = placed;
    frames::clear(scratch, space.first as usize, space.pages as usize);
    s.next += 1;
    s.spaces[slot as usize] = space;
    Answer::Done { value: space.id }
}
