// Withdrawing, element by element: what becomes of one entry.
#![tactic(auto)]

ghost use Rattle.std.specs.Prelude.{◌≤◌, ◌<◌, ◌≡◌, eqb};
ghost use Rattle.lists.specs.Choice.{choose};
ghost use Rattle.model.specs.Changes.{released, revoked};
ghost use Rattle.losses.specs.Looks.{named_slot, look_place, revoked_entry, kept_list};

use model::{Entry, Standing};

// The slot that an entry names, and 32, which is no slot, where it names none: a number, as in `look_place`, so that over a table
// entries are compared with no branch.
#[tactic(auto, unfolding(crate::specs::Looks::named_slot))]
fn named_slot(e: Entry) -> u32
    ensures { result ≡ named_slot e.standing }
{
    match e.standing {
        Standing::Valid { slot, .. } => u32::from(slot),
        Standing::Unused | Standing::Revoked => 32,
    }
}

// Where an entry looks in a set of slots: at the slot that it names, else at the last place, 32, as the definition `look_place` says,
// which this promises: a set of 33 is asked of every entry alike.
#[tactic(auto, unfolding(crate::specs::Looks::look_place, lists::specs::Choice::choose))]
pub fn look_place(e: Entry) -> usize
    ensures { result ≡ look_place e.standing }
{
    let u = named_slot(e);
    if u < 32 { u as usize } else { 32 }
}

// A choice of two whole entries: over a table it becomes a choice of numbers, with no branch.
#[tactic(auto, unfolding(lists::specs::Choice::choose))]
fn revoke_if(e: Entry, lost: bool) -> Entry
    ensures { result ≡ choose lost (revoked_entry e) e }
{
    let gone = Entry {
        standing: Standing::Revoked,
        sequence: e.sequence,
    };
    if lost { gone } else { e }
}

// What becomes of an entry whose guest loses the space in a slot.
pub fn entry_without(e: Entry, slot: u8) -> Entry
    requires { slot < 32 }
    ensures { result ≡ revoked (eqb slot) e }
{
    revoke_if(e, slot as u32 == named_slot(e))
}

// The place of the list that keeps its entries for a space, by its guest: 8, which is no list, where none keeps them. The loops
// below and above it count from this number.
#[tactic(auto, using(std::proofs::lemmas::Bool::Decides::nat_tests), unfolding(crate::specs::Looks::kept_list, lists::specs::Choice::choose, lists::specs::Choice::both))]
pub fn kept_list(owner: usize) -> usize
    ensures { (result ≡ kept_list owner) × (result ≤ 8) }
{
    if (1..=8).contains(&owner) {
        owner - 1
    } else {
        8
    }
}

// What becomes of an entry where a guest is reset: its own are released, others' entries for its spaces revoked.
#[tactic(auto, unfolding(lists::specs::Choice::choose))]
pub fn entry_reset(e: Entry, own: bool, closed: bool) -> Entry
    ensures { result ≡ choose own (released e) (choose closed (revoked_entry e) e) }
{
    if own {
        entries::release(e)
    } else {
        revoke_if(e, closed)
    }
}
