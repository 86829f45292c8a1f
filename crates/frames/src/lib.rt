// The frames of spaces: filled with zeros where a space is made and where spaces go.
#![tactic(auto)]

ghost use Rattle.std.specs.Prelude.{◌+◌, ◌*◌, ◌/◌, ◌≤◌, ◌≡◌, length};
ghost use Rattle.lists.specs.Choice.{choose};
ghost use Rattle.model.specs.Changes.{freed};
ghost use Rattle.model.specs.Leaves.{in_run};
ghost use Rattle.model.specs.Searches.{is_data};
ghost use Rattle.model.specs.Step.{clear_frames};
ghost use Rattle.frames.specs.Runs.{RunsInside, slots_of};

use model::Space;

// The frames of a run become zeros: they are one part of scratch, so that one fill does it.
pub fn clear(scratch: &mut [u8], first: usize, pages: usize)
    requires { first * 4096 + pages * 4096 ≤ length scratch.old }
    ensures { scratch.new ≡ clear_frames (in_run first pages) scratch.old }
{
    let from = first * 4096;
    moves::clear(&mut scratch[from..], pages * 4096);
}

// How many frames of a space are freed where a guest is reset: all of a data space of the guest, of others none.
#[tactic(auto, unfolding(lists::specs::Choice::choose))]
pub fn freed_pages(x: Space, guest: u32) -> u16
    ensures { result ≡ choose (is_data guest x) x.pages 0 }
{
    if slots::is_data(x, guest) { x.pages } else { 0 }
}

// The frames of a guest's data spaces become zeros, run by run.
pub fn clear_data(scratch: &mut [u8], spaces: &[Space; 32], guest: u32)
    requires { RunsInside (length scratch.old / 4096) spaces.now }
    ensures { scratch.new ≡ clear_frames (freed spaces.now spaces.now (slots_of (is_data guest) spaces.now)) scratch.old }
{
    for x in spaces.iter() {
        clear(scratch, x.first as usize, freed_pages(*x, guest) as usize);
    }
}
