// DESTROY and RESET. The first changes what belongs to one slot, the second what belongs to a guest. The slots of a guest's spaces
// are a table of Booleans. Its last place is no slot and false: an entry that names no slot looks there, so that every
// entry is looked up alike.
#![tactic(auto)]

ghost use Rattle.std.specs.Prelude.{◌*◌, ◌<◌, false, ◌≡◌, length};
ghost use Rattle.lists.specs.Choice.{choose};
ghost use Rattle.model.specs.Changes.{vacated, unpermitted, freed, blanked, applied};
ghost use Rattle.model.specs.Leaves.{flag};
ghost use Rattle.model.specs.Replies.{call_of};
ghost use Rattle.sound.specs.Answered.{AnsweredOver};
ghost use Rattle.model.specs.Searches.{is_owned, is_data};
ghost use Rattle.model.specs.Sizes.{max_frames};
ghost use Rattle.model.specs.Tables.{no_space};
ghost use Rattle.model.specs.declared.Change.TheVariants.{DestroySpace, ResetGuest};
ghost use Rattle.model.specs.declared.Operation.TheVariants.{Destroy, Reset};
ghost use Rattle.frames.specs.Runs.{RunsInside, slots_of};
ghost use Rattle.withdrawing.specs.Sets.{IsSet, entries_reset};

use model::{Answer, Caller, Cell, Entry, Permit, Space, State};
use sound::Sound;

// The tables without the space in a slot: the slot is empty, the space's permits are gone, no guest keeps an entry for it, and its
// frames lose their keys.
fn destroy_at(s: &mut State, slot: u8)
    requires { (slot < 32) × RunsInside max_frames s.old.spaces }
    ensures { s.new ≡ applied s.old (DestroySpace slot) }
{
    let x = s.spaces[slot as usize];
    s.spaces[slot as usize] = Space::default();
    closing::permits_without(&mut s.permits, slot);
    // no guest keeps its entries
    closing::entries_without(&mut s.entries, 0, slot);
    closing::cells_without(&mut s.cells, x.first, x.pages);
}

// Every valid entry for the space becomes revoked, its permits vanish, and its frames, filled with zeros, are free for use again.
pub fn destroy(s: &mut Sound, scratch: &mut [u8], caller: Caller, id: u32) -> Answer
    requires { length scratch.old ≡ s.old.state.now.frames * 4096 }
    ensures { AnsweredOver s.old (call_of caller (Destroy id)) result s.new scratch.old scratch.new }
{
    if lookup::caller_place(&s.state.guests, caller.guest).is_none() {
        return Answer::BadCaller;
    }
    let slot = match lookup::owned_space(&s.state.spaces, caller.guest, id) {
        Ok(slot) => slot,
        Err(refusal) => return refusal,
    };
    let x = s.state.spaces[slot as usize];
    if slots::is_base(x) {
        return Answer::PrimarySpace;
    }
    destroy_at(s.state, slot);
    frames::clear(scratch, x.first as usize, x.pages as usize);
    Answer::Done { value: 0 }
}

// The slots of all spaces of a guest.
fn owned_slots(spaces: &[Space; 32], owner: u32) -> [bool; 33]
    ensures { IsSet (slots_of (is_owned owner) spaces.now) result }
{
    let mut t = [false; 33];
    for (u, x) in spaces.iter().enumerate() {
        t[u] = slots::is_owned(*x, owner);
    }
    t
}

// The data spaces of a guest go.
fn vacate(spaces: &mut [Space; 32], guest: u32)
    ensures { spaces.new ≡ vacated (slots_of (is_data guest) spaces.old) spaces.old }
{
    for x in spaces.iter_mut() {
        if slots::is_data(*x, guest) {
            *x = Space::default();
        }
    }
}

// The frames of a guest's data spaces lose their keys and marks, run by run.
fn blank_frames(cells: &mut [Cell; 512], spaces: &[Space; 32], guest: u32)
    requires { RunsInside max_frames spaces.now }
    ensures { cells.new ≡ blanked (freed spaces.now spaces.now (slots_of (is_data guest) spaces.now)) cells.old }
{
    for x in spaces.iter() {
        closing::cells_without(cells, x.first, frames::freed_pages(*x, guest));
    }
}

// The permits for closed spaces go.
fn unpermit(permits: &mut [Permit; 256], closed: &[bool; 33])
    ensures { permits.new ≡ unpermitted (flag closed.now) permits.old }
{
    for (k, p) in permits.iter_mut().enumerate() {
        if closed[k / 8] {
            *p = Permit::default();
        }
    }
}

// All entries of a guest become unused, and other guests' entries for closed spaces revoked.
fn clear_lists(entries: &mut [Entry; 240], guest: u32, closed: &[bool; 33])
    requires { flag closed.now 32 ≡ false }
    ensures { entries.new ≡ entries_reset guest (flag closed.now) entries.old }
{
    let own = guest as usize;
    for (k, e) in entries.iter_mut().enumerate() {
        let u = losses::look_place(*e);
        *e = losses::entry_reset(*e, k / 30 + 1 == own, closed[u]);
    }
}

// The tables without the data spaces of a guest, its primary space isolated, and all its entries unused.
fn reset_at(s: &mut State, guest: u32)
    requires { RunsInside max_frames s.old.spaces }
    ensures { s.new ≡ applied s.old (ResetGuest guest) }
{
    let closed = owned_slots(&s.spaces, guest);
    unpermit(&mut s.permits, &closed);
    clear_lists(&mut s.entries, guest, &closed);
    // the frames are those of the spaces that go, so these go last
    blank_frames(&mut s.cells, &s.spaces, guest);
    vacate(&mut s.spaces, guest);
}

// The caller's data spaces are destroyed, their frames filled with zeros, its primary space is isolated, and all its entries become
// unused.
pub fn reset(s: &mut Sound, scratch: &mut [u8], caller: Caller) -> Answer
    requires { length scratch.old ≡ s.old.state.now.frames * 4096 }
    ensures { AnsweredOver s.old (call_of caller Reset) result s.new scratch.old scratch.new }
{
    if lookup::caller_place(&s.state.guests, caller.guest).is_none() {
        return Answer::BadCaller;
    }
    frames::clear_data(scratch, &s.state.spaces, caller.guest);
    reset_at(s.state, caller.guest);
    Answer::Done { value: 0 }
}
