// The slots of spaces, each by itself: a live space is in order, or the slot holds zeros. What is left of each slot for the other
// tests is its tag.
ghost use Rattle.std.specs.Prelude.{◌<◌, ◌≡◌};
ghost use Rattle.model.specs.SoundTest.{dead_test};
ghost use Rattle.sound.specs.Columns.{Slots};
ghost use Rattle.sound.specs.Elements.{live_with, slot_with, tag_of};

use model::{BASE, Guest, Space};
use names::Later;

#[tactic(auto, unfolding(lists::specs::Choice::both, model::specs::SoundTest::dead_test))]
fn dead_ok(x: &Space) -> bool
    ensures { result ≡ dead_test x.now }
{
    x.owner == 0 && x.name == 0 && x.first == 0 && x.pages == 0
}

#[tactic(auto, using(std::proofs::lemmas::Bool::Decides::nat_tests), unfolding(lists::specs::Choice::both, crate::specs::Elements::live_with))]
fn live_ok(later: &Later, x: &Space, o: &Guest, frames: u32, next: u32) -> bool
    ensures { result ≡ live_with frames next o.now x.now }
{
    1 <= x.owner
        && x.owner <= 8
        && o.enrolled
        && 1 <= x.pages
        && u32::from(x.first) + u32::from(x.pages) <= frames
        && x.id < next
        && later.good_name(x.name)
}

#[tactic(auto, unfolding(lists::specs::Choice::choose, crate::specs::Elements::slot_with))]
fn slot_ok(later: &Later, x: &Space, o: &Guest, frames: u32, next: u32) -> bool
    ensures { result ≡ slot_with frames next o.now x.now }
{
    if x.id == 0 {
        dead_ok(x)
    } else {
        live_ok(later, x, o, frames, next)
    }
}

// The owner, and 16 more for a primary space: one number, as in `tag_of`, by which one table counts both for each guest.
#[tactic(auto, unfolding(lists::specs::Choice::choose, crate::specs::Elements::tag_of))]
fn tag(x: &Space) -> u8
    ensures { (result ≡ tag_of x.now) × (result < 32) }
{
    if x.name == BASE {
        return x.owner % 16 + 16;
    }
    x.owner % 16
}

// One pass over the slots tests each and gives its tag.
pub fn tags_of(
    spaces: &[Space; 32],
    guests: &[Guest; 8],
    frames: u32,
    next: u32,
) -> Option<[u8; 32]>
    ensures { Slots result frames next guests.now spaces.now }
{
    let later = Later::new();
    let mut tags = [0u8; 32];
    for (i, x) in spaces.iter().enumerate() {
        let at = permitted::place(x.owner);
        if !slot_ok(&later, x, &guests[at], frames, next) {
            return None;
        }
        tags[i] = tag(x);
    }
    Some(tags)
}
