// One permit: what it allows, and how it is raised.
#![tactic(auto)]

ghost use Rattle.std.specs.Prelude.{◌≡◌, eqb};
ghost use Rattle.lists.specs.Choice.{either};
ghost use Rattle.model.specs.Changes.{allows as allowed, raised};

use model::{Grant, Permit, Right, Space};

// Write includes read.
#[tactic(auto, unfolding(model::specs::Changes::allows, model::specs::Changes::raised))]
pub fn allows(g: Grant, r: Right) -> bool
    ensures { result ≡ allowed g r }
{
    g >= Grant::from(r)
}

// Whether a guest owns a space, or has a permit for it that allows the right.
#[tactic(auto, using(std::proofs::lemmas::Bool::Decides::nat_tests), unfolding(lists::specs::Choice::either))]
pub fn is_entitled(x: Space, p: Permit, guest: u32, right: Right) -> bool
    ensures { result ≡ either (eqb x.owner guest) (allowed p.grant right) }
{
    u32::from(x.owner) == guest || allows(p.grant, right)
}

// The greater of what was permitted and the right that is given now.
#[tactic(auto, unfolding(model::specs::Changes::raised))]
pub fn raise(g: Grant, r: Right) -> Grant
    ensures { result ≡ raised g r }
{
    g.max(Grant::from(r))
}
