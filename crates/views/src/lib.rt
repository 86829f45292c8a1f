// What a call looks at in the tables: a few elements, read out of a state that is lent. Which elements they are is `view_of` of the
// specs.
#![tactic(auto)]

ghost use Rattle.std.specs.Prelude.{◌+◌, ◌/◌, ◌<◌, ◌≤◌, ◌≡◌, MatchResult, Some};
ghost use Rattle.asks.specs.Asks.{asks_by};
ghost use Rattle.lookup.specs.Found.{found};
ghost use Rattle.model.specs.declared.Answer.TheVariants.{BadCaller};
ghost use Rattle.views.specs.Search.{slot_sought, slot_through, slot_for};
ghost use Rattle.views.specs.Taking.{free_for, free_place};
ghost use Rattle.views.specs.Token.{token_by};
ghost use Rattle.views.specs.Views.{cell_place, view_of};

use asks::{Asks, Sought, Uses};
use keys::Guard;
use model::{
    Answer, BASE, Call, Caller, Cpu, Entry, Guest, Operation, Permit, Space, Standing, State,
};

// What it sees: the places of the caller and of the other guest, 8 for one that is not enrolled; what stands in the caller's
// row; the token, and the entry that it names; the slot of the space, what stands there, and the other guest's permit for it;
// the entry that may be taken, counted from 0, and what stands there; the caller's access key, and what protects the block of the
// address and the block after it. What is not there has a number, and is no Option, since `view_of` is in the words of the model,
// whose searches come to the number of places (model `Leaves.caller_place`, `Searches.slot_of`, `Searches.free_entry`).
#[derive(Clone, Copy)]
pub struct View {
    pub place: usize,
    pub guest: Guest,
    pub other: usize,
    pub token: u32,
    pub entry: Entry,
    pub slot: u8,
    pub space: Space,
    pub permit: Permit,
    pub free: u8,
    pub unused: Entry,
    pub guard: Guard,
}

impl View {
    // Check 2: the place of a caller that is enrolled.
    pub fn caller(&self) -> Result<u8, Answer>
        ensures { MatchResult result (λ at. (at ≡ self.now.place) × (self.now.place < 8)) (λ a. (a ≡ BadCaller) × (8 ≤ self.now.place)) }
    {
        if 8 <= self.place {
            return Err(Answer::BadCaller);
        }
        Ok(self.place as u8)
    }
}

// The token, by the caller's CPU.
pub fn token_seen(a: Asks, c: Cpu) -> u32
    ensures { result ≡ token_by a.uses c }
{
    let uses = a.uses;
    match uses {
        Uses::Token { token } => token,
        Uses::Register { register } => {
            if 15 < register {
                return 0;
            }
            translation::token_used(&c, register)
        }
    }
}

#[tactic(auto, unfolding(crate::specs::Search::slot_sought))]
fn find(spaces: &[Space; 32], sought: Sought) -> Option<usize>
    ensures { result ≡ found 32 (slot_sought (Some sought) spaces.now) }
{
    match sought {
        Sought::Id { id } => lookup::find_space(spaces, id),
        Sought::Named { owner, name } => lookup::find_named(spaces, owner, name),
    }
}

// The slot of the space that is named; 32 where there is none.
fn slot_sought(spaces: &[Space; 32], sought: Option<Sought>) -> u8
    ensures { result ≡ slot_sought sought spaces.now }
{
    match sought {
        Some(named) => find(spaces, named).unwrap_or(32) as u8,
        None => 32,
    }
}

// Through a token: the caller's primary space for token 0, else the space of the entry.
fn slot_through(spaces: &[Space; 32], caller: u32, token: u32, e: Entry) -> u8
    ensures { result ≡ slot_through caller token e.standing spaces.now }
{
    if token == 0 {
        return slot_sought(
            spaces,
            Some(Sought::Named {
                owner: caller,
                name: BASE,
            }),
        );
    }
    match e.standing {
        Standing::Valid { slot, right: _ } => slot,
        Standing::Unused | Standing::Revoked => 32,
    }
}

fn slot_for(spaces: &[Space; 32], a: Asks, token: u32, e: Entry) -> u8
    ensures { result ≡ slot_for a token e spaces.now }
{
    match a.uses {
        Uses::Token { .. } => slot_sought(spaces, a.sought),
        Uses::Register { .. } => slot_through(spaces, a.caller, token, e),
    }
}

// The lowest entry of the list in a row that may be taken, counted from 0; the list's length where there is none.
fn free_for(takes: bool, list: u8, entries: &[Entry; 240], row: usize) -> u8
    requires { row < 8 }
    ensures { result ≡ free_for takes list entries.now row }
{
    if !takes {
        return 0;
    }
    let own = &entries[row * 30..row * 30 + list.min(30) as usize];
    own.iter()
        .position(|e| entries::may_take(*e))
        .unwrap_or(own.len()) as u8
}

// Where the entry that a search came to stands, for the guest at a row.
pub fn free_place(row: usize, free: u8) -> usize
    requires { row < 8 }
    ensures { (result ≡ free_place row free) × (result < 240) }
{
    if free < 30 {
        return row * 30 + free as usize;
    }
    row * 30
}

// Where the cell of the block stands in which the byte at an address of a space lies, and where that of the block after it. There
// are always such places: those of an address that the space does not have are of no account.
pub fn block_place(x: Space, address: u32) -> usize
    ensures { (result ≡ cell_place x (address / 4096)) × (result < 512) }
{
    (x.first as usize + (address / 4096) as usize) % 512
}

pub fn beyond_place(x: Space, address: u32) -> usize
    ensures { (result ≡ cell_place x (address / 4096 + 1)) × (result < 512) }
{
    (block_place(x, address) + 1) % 512
}

// What a call sees of a state. It is put into each call, which then reads only what that call looks at.
#[inline(always)]
pub fn seen_in(s: &State, a: Asks) -> View
    ensures { result ≡ view_of s.now a }
{
    let row = lookup::row(a.caller);
    let guest = s.guests[row];
    let cpu = s.cpus[row];
    let token = token_seen(a, cpu);
    let entry = s.entries[translation::entry_place(row, token)];
    let slot = slot_for(&s.spaces, a, token, entry);
    let free = free_for(a.takes, guest.list, &s.entries, row);
    let u = lookup::slot_row(slot as usize);
    let space = s.spaces[u];
    let column = lookup::row(a.other);
    let other = s.guests[column];
    let permit = s.permits[u * 8 + column];
    let unused = s.entries[free_place(row, free)];
    let block = s.cells[block_place(space, a.address)];
    let beyond = s.cells[beyond_place(space, a.address)];
    View {
        place: lookup::place_of(guest, a.caller),
        guest,
        other: lookup::place_of(other, a.other),
        token,
        entry,
        slot,
        space,
        permit,
        free,
        unused,
        guard: Guard {
            key: cpu.key,
            block,
            beyond,
        },
    }
}

// What a caller's call sees of it.
#[inline(always)]
pub fn seen_by(s: &State, caller: Caller, operation: Operation) -> View
    ensures { result ≡ view_of s.now (asks_by caller.guest operation) }
{
    seen_in(s, asks::asked_by(&Call { caller, operation }))
}
