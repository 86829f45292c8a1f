// One entry of a list and its token: whether it is in use, and how it becomes unused.
#![tactic(auto)]

ghost use Rattle.std.specs.Prelude.{◌≡◌};
ghost use Rattle.model.specs.Changes.{released};
ghost use Rattle.model.specs.Searches.{is_unused, may_take};
ghost use Rattle.model.specs.Tokens.{malformed, unassigned};
ghost use Rattle.entries.specs.Assigned.{assigned_to};

use model::{Entry, Standing};

#[tactic(auto, unfolding(model::specs::Searches::is_unused))]
pub fn is_unused(e: Entry) -> bool
    ensures { result ≡ is_unused e.standing }
{
    matches!(e.standing, Standing::Unused)
}

// Whether ADD may take an entry, and whether no token is assigned to it: so far both where it is unused.
pub fn may_take(e: Entry) -> bool
    ensures { result ≡ may_take e.standing }
{
    is_unused(e)
}

fn is_unassigned(e: Entry) -> bool
    ensures { result ≡ unassigned e.standing }
{
    is_unused(e)
}

// An entry that was in use becomes unused, and its sequence goes up, so that no token that was given for it fits again
// until the sequence has gone round. An unused entry stays as it is.
#[tactic(auto, unfolding(model::specs::Changes::released, model::specs::Changes::released_from))]
pub fn release(e: Entry) -> Entry
    ensures { result ≡ released e }
{
    match e.standing {
        Standing::Unused => e,
        Standing::Valid { .. } | Standing::Revoked => Entry {
            standing: Standing::Unused,
            sequence: e.sequence.wrapping_add(1),
        },
    }
}

// A token is a sequence times 65,536 and an entry number. Token 0 is no entry's, and is not malformed.
#[tactic(auto, using(std::proofs::lemmas::Bool::Decides::nat_tests), unfolding(model::specs::Tokens::malformed, lists::specs::Choice::both, lists::specs::Choice::either))]
pub fn is_malformed(token: u32) -> bool
    ensures { result ≡ malformed token }
{
    token != 0 && (16777216 <= token || !(2..=31).contains(&(token % 65536)))
}

// Whether a token is assigned to the entry whose number it has, in a list of that size.
#[tactic(auto, using(std::proofs::lemmas::Bool::Decides::nat_tests), unfolding(lists::specs::Choice::both))]
pub fn is_assigned(e: Entry, list: u8, token: u32) -> bool
    ensures { result ≡ assigned_to e list token }
{
    token % 65536 <= u32::from(list) + 1
        && !is_unassigned(e)
        && u32::from(e.sequence) == token / 65536
}
