// Looking things up in the tables.
#![tactic(auto)]

ghost use Rattle.std.specs.Prelude.{◌<◌, ◌≡◌};
ghost use Rattle.model.specs.Leaves.{caller_place};
ghost use Rattle.model.specs.Searches.{slot_of, slot_named, free_slot, data_spaces};
ghost use Rattle.lookup.specs.Found.{found};
ghost use Rattle.lookup.specs.Owned.{owned_at, owned_space};
ghost use Rattle.lookup.specs.Rows.{is_guest, row_of, place_by, slot_row};

use model::{Answer, Guest, Space};

#[tactic(auto, using(std::proofs::lemmas::Bool::Decides::nat_tests), unfolding(lists::specs::Choice::both))]
pub fn is_guest(g: u32) -> bool
    ensures { result ≡ is_guest g }
{
    (1..=8).contains(&g)
}

// The row of a guest in the tables; the first for a number that is no guest's.
#[tactic(auto, unfolding(crate::specs::Rows::row_of, lists::specs::Choice::choose, lists::specs::Choice::both))]
pub fn row(g: u32) -> usize
    ensures { (result ≡ row_of g) × (result < 8) }
{
    if is_guest(g) { g as usize - 1 } else { 0 }
}

// The place of an enrolled guest, by what stands in its row; 8 for any other number, as a view of the tables keeps it: the model's
// `place_by` and what is decided on a view speak of that number.
#[tactic(auto, unfolding(crate::specs::Rows::place_by, lists::specs::Choice::choose, lists::specs::Choice::both))]
pub fn place_of(x: Guest, g: u32) -> usize
    ensures { result ≡ place_by x g }
{
    if is_guest(g) && x.enrolled {
        g as usize - 1
    } else {
        8
    }
}

// The same, by the table.
pub fn caller_place(guests: &[Guest; 8], g: u32) -> Option<usize>
    ensures { result ≡ found 8 (caller_place guests.now g) }
{
    let at = place_of(guests[row(g)], g);
    if at < 8 { Some(at) } else { None }
}

// The slot of the live space with that identification.
pub fn find_space(spaces: &[Space; 32], id: u32) -> Option<usize>
    ensures { result ≡ found 32 (slot_of spaces.now id) }
{
    spaces.iter().position(|x| slots::is_space(*x, id))
}

// The row of a slot in its table; the first where there is none.
#[tactic(auto, unfolding(crate::specs::Rows::slot_row, lists::specs::Choice::choose))]
pub fn slot_row(u: usize) -> usize
    ensures { (result ≡ slot_row u) × (result < 32) }
{
    if u < 32 { u } else { 0 }
}

// The checks 5 and 6, for the space x in slot u, which a guest names by its identification, as its owner alone may: the slot, or
// the answer that refuses it.
pub fn owned_at(u: usize, x: Space, guest: u32) -> Result<u8, Answer>
    ensures { result ≡ owned_at u x guest }
{
    if 32 <= u {
        return Err(Answer::NoSpace);
    }
    if u32::from(x.owner) != guest {
        return Err(Answer::NotOwner);
    }
    Ok(u as u8)
}

// The same, by the table.
pub fn owned_space(spaces: &[Space; 32], guest: u32, id: u32) -> Result<u8, Answer>
    ensures { result ≡ owned_space spaces.now guest id }
{
    let Some(u) = find_space(spaces, id) else {
        return Err(Answer::NoSpace);
    };
    owned_at(u, spaces[u], guest)
}

// The slot of the live space with that owner and name.
pub fn find_named(spaces: &[Space; 32], owner: u32, name: u64) -> Option<usize>
    ensures { result ≡ found 32 (slot_named spaces.now owner name) }
{
    spaces.iter().position(|x| slots::is_named(*x, owner, name))
}

// The lowest slot with no live space.
pub fn free_slot(spaces: &[Space; 32]) -> Option<usize>
    ensures { result ≡ found 32 (free_slot spaces.now) }
{
    spaces.iter().position(|x| !slots::is_live(*x))
}

// How many data spaces a guest owns.
pub fn data_spaces(spaces: &[Space; 32], owner: u32) -> usize
    ensures { result ≡ data_spaces spaces.now owner }
{
    spaces.iter().filter(|x| slots::is_data(**x, owner)).count()
}
