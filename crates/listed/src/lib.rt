// The entries of access lists: whether each names a space that its guest may use so, and whether those above a list are untouched.
#![tactic(auto)]

ghost use Rattle.std.specs.Prelude.{◌<◌, ◌≡◌, length};
ghost use Rattle.lists.specs.Choice.{both};
ghost use Rattle.model.specs.SoundTest.{untouched_test};
ghost use Rattle.listed.specs.Standings.{right_rank, valid_with, standing_with, standings_with, entry_with, entries_with, above_test};

use model::{Entry, Guest, Right, Standing};

// What a power has to be above. The rights stand in order.
#[tactic(auto, unfolding(crate::specs::Standings::right_rank))]
fn rank(r: Right) -> u8
    ensures { result ≡ right_rank r }
{
    r as u8
}

#[tactic(auto, using(std::proofs::lemmas::Bool::Decides::nat_tests), unfolding(lists::specs::Choice::both, crate::specs::Standings::valid_with))]
fn valid_ok(powers: &[u8; 256], k: usize, slot: u8, right: Right) -> bool
    requires { k < 8 }
    ensures { result ≡ valid_with powers.now k slot right }
{
    slot < 32 && rank(right) < powers[usize::from(slot) * 8 + k]
}

#[tactic(auto, unfolding(crate::specs::Standings::standing_with))]
fn standing_ok(powers: &[u8; 256], k: usize, x: Standing) -> bool
    requires { k < 8 }
    ensures { result ≡ standing_with powers.now k x }
{
    match x {
        Standing::Valid { slot, right } => valid_ok(powers, k, slot, right),
        Standing::Unused | Standing::Revoked => true,
    }
}

// An entry by value: that its sequence has 8 bits is then known of it.
#[tactic(auto, using(std::proofs::lemmas::Bool::Decides::nat_tests), unfolding(lists::specs::Choice::both, crate::specs::Standings::entry_with))]
fn entry_ok(powers: &[u8; 256], k: usize, e: Entry) -> bool
    requires { k < 8 }
    ensures entry { result ≡ entry_with powers.now k e }
    ensures standing { result ≡ standing_with powers.now k e.standing }
{
    standing_ok(powers, k, e.standing)
}

// By index, since the lists lie one behind the other in one table and are read side by side: the compiler unrolls the eight.
fn all_ok(powers: &[u8; 256], entries: &[Entry; 240]) -> bool
    ensures entries { result ≡ entries_with powers.now entries.now }
    ensures standings { result ≡ standings_with powers.now entries.now }
{
    for i in 0..30usize {
        for k in 0..8usize {
            if !entry_ok(powers, k, entries[k * 30 + i]) {
                return false;
            }
        }
    }
    true
}

#[tactic(auto, unfolding(lists::specs::Choice::both, model::specs::SoundTest::untouched_test))]
fn untouched(e: Entry) -> bool
    ensures { result ≡ untouched_test e }
{
    entries::is_unused(e) && e.sequence == 0
}

fn above_ok(guests: &[Guest; 8], entries: &[Entry; 240]) -> bool
    ensures { result ≡ above_test guests.now entries.now }
{
    for (k, g) in guests.iter().enumerate() {
        let above = &entries[k * 30 + usize::from(g.list.min(30))..k * 30 + 30];
        if !above.iter().all(|e| untouched(*e)) {
            return false;
        }
    }
    true
}

#[tactic(auto, unfolding(lists::specs::Choice::both))]
pub fn entries_ok(powers: &[u8; 256], guests: &[Guest; 8], entries: &[Entry; 240]) -> bool
    ensures test { result ≡ both (entries_with powers.now entries.now) (above_test guests.now entries.now) }
    ensures standings { result ≡ both (standings_with powers.now entries.now) (above_test guests.now entries.now) }
    ensures long { length entries.now ≡ 240 }
{
    all_ok(powers, entries) && above_ok(guests, entries)
}
