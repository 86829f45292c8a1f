// One slot of the table of spaces: whether it is live, whose space it holds, of what name, and where its frames end.
#![tactic(auto, unfolding(lists::specs::Choice::both))]

ghost use Rattle.std.specs.Prelude.{◌+◌, ◌≡◌, eqb};
ghost use Rattle.model.specs.Names.{base_name};
ghost use Rattle.model.specs.Searches.{is_space, is_owned, is_named, is_data};
ghost use Rattle.model.specs.Tables.{live};

use model::{BASE, Space};

pub fn is_live(x: Space) -> bool
    ensures { result ≡ live x }
{
    x.id != 0
}

pub fn is_space(x: Space, id: u32) -> bool
    ensures { result ≡ is_space id x }
{
    is_live(x) && x.id == id
}

pub fn is_owned(x: Space, owner: u32) -> bool
    ensures { result ≡ is_owned owner x }
{
    is_live(x) && u32::from(x.owner) == owner
}

pub fn is_named(x: Space, owner: u32, name: u64) -> bool
    ensures { result ≡ is_named owner name x }
{
    is_owned(x, owner) && x.name == name
}

// A primary space is its owner's space named BASE; its other spaces are data spaces.
pub fn is_base(x: Space) -> bool
    ensures { result ≡ eqb x.name base_name }
{
    x.name == BASE
}

pub fn is_data(x: Space, owner: u32) -> bool
    ensures { result ≡ is_data owner x }
{
    is_owned(x, owner) && !is_base(x)
}

// The frame after the last one of a space.
pub fn end(x: &Space) -> u32
    ensures { result ≡ x.now.first + x.now.pages }
{
    u32::from(x.first) + u32::from(x.pages)
}
