// Check 1: whether a state is sound, clause by clause of the paper.
#![tactic(auto)]

ghost use Rattle.std.specs.Prelude.{true, ◌≡◌};
ghost use Rattle.model.specs.SoundTest.{sound, head_test};

use model::State;

mod guests;
mod table;

#[tactic(auto, using(std::proofs::lemmas::Bool::Decides::nat_tests), unfolding(lists::specs::Choice::both, model::specs::SoundTest::head_test, model::specs::Fresh::frames_in_range))]
fn head_ok(frames: u32, next: u32) -> bool
    ensures { result ≡ head_test frames next }
{
    1 <= frames && frames <= 512 && 1 <= next && next <= 65536
}

pub fn is_sound(s: &State) -> bool
    ensures { result ≡ sound s.now }
{
    if !head_ok(s.frames, s.next) {
        return false;
    }
    let Some(tags) = table::tags_of(&s.spaces, &s.guests, s.frames, s.next) else {
        return false;
    };
    if !apart::all_apart(&s.spaces) {
        return false;
    }
    if !guests::guests_ok(&tags, &s.guests, &s.cpus) {
        return false;
    }
    let Some(powers) = permitted::powers_of(&tags, &s.guests, &s.permits) else {
        return false;
    };
    listed::entries_ok(&powers, &s.guests, &s.entries) && cells::cells_ok(&s.spaces, &s.cells)
}

// A sound state, lent.
#[derive(Drop)]
pub struct Sound<'a> {
    pub state: &'a mut State,
    pub ghost held: { sound state.now ≡ true },
}
