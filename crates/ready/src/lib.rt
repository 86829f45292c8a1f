// Check 1: a sound state with its scratch.
#![tactic(auto, unfolding(lists::specs::Choice::both, model::specs::Calls::ready))]

ghost use Rattle.std.specs.Prelude.{◌≡◌};
ghost use Rattle.model.specs.Calls.{ready};
ghost use Rattle.ready.specs.Usable.{usable};

use model::State;

// The state is sound and scratch has F x 4,096 bytes.
pub fn is_ready(s: &State, room: usize) -> bool
    ensures { result ≡ ready s.now room }
{
    sound::is_sound(s) && room == (s.frames as usize) * 4096
}

// The same where more scratch may be lent than the state has frames: the two are one sign apart.
pub fn is_usable(state: &State, room: usize) -> bool
    ensures { result ≡ usable state.now room }
{
    sound::is_sound(state) && (state.frames as usize) * 4096 <= room
}
