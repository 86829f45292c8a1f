// Key-controlled protection: whether the blocks in which a fetch or store lies allow it.
#![tactic(auto)]

ghost use Rattle.std.specs.Prelude.{◌≤◌, ◌≡◌};
ghost use Rattle.model.specs.Keys.{allows_key};
ghost use Rattle.keys.specs.Guards.{guard_allows};

use model::Cell;

// What an access is held against: the access key, what protects the block in which it starts, and what protects the block after
// it, into which it may reach.
#[derive(Clone, Copy, Default, PartialEq, Eq)]
pub struct Guard {
    pub key: u8,
    pub block: Cell,
    pub beyond: Cell,
}

// One block. `storing` tells a store from a fetch: a Boolean, as in the rule itself (`allows_key`), which it is put into as it is; an
// enum of two would be turned into one at each call and in each contract.
#[tactic(auto, using(std::proofs::lemmas::Bool::Decides::nat_tests), unfolding(model::specs::Keys::allows_key, lists::specs::Choice::both, lists::specs::Choice::either))]
fn allows(storing: bool, key: u8, c: Cell) -> bool
    ensures { result ≡ allows_key storing key c }
{
    key == 0 || key == c.key || (!storing && !c.mark)
}

// An access of no more bytes than a block has: all blocks in which it lies have to allow it.
#[tactic(auto, using(std::proofs::lemmas::Bool::Decides::nat_tests), unfolding(crate::specs::Guards::guard_allows, lists::specs::Choice::both, lists::specs::Choice::either))]
pub fn permits(g: &Guard, storing: bool, address: u32, length: usize) -> bool
    requires { length ≤ 256 }
    ensures { result ≡ guard_allows g.now storing address length }
{
    allows(storing, g.key, g.block)
        && ((address % 4096) as usize + length <= 4096 || allows(storing, g.key, g.beyond))
}
