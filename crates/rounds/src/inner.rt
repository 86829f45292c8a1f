// Rounds of the inner layer, whose calls are lent a sound state and need its scratch: both are tested once, before the rounds.
// Each round gets the same state, and what it makes of it is dropped.
ghost use Rattle.std.specs.Prelude.{◌≡◌, ◌*◌, length};

use crate::turn::Kind;
use crate::{setup, turn};
use model::State;
use sound::Sound;

// The new space of ENROL and CREATE has as many pages as `size` says.
fn round(lent: &Sound, scratch: &mut [u8], buffer: &mut [u8], kind: Kind, size: u32, i: u32) -> u64
    requires { length scratch.old ≡ lent.now.state.now.frames * 4096 }
{
    let mut state = *lent.state;
    let s = &mut Sound { state: &mut state };
    let who = turn::caller(i);
    let answer = match kind {
        Kind::Enrol => enrolling::enrol(s, scratch, turn::newcomer(), turn::settings(size, i)),
        Kind::Create => creating::create(s, scratch, who, turn::NEW, size),
        Kind::Destroy => withdrawing::destroy(s, scratch, who, turn::own_data(i)),
        Kind::Permit => rights::permit(s, who, turn::own(i), turn::other(i), turn::right(i)),
        Kind::Isolate => rights::isolate(s, who, turn::own(i)),
        Kind::Query => {
            return turn::told(rights::query(s, who, turn::other(i), setup::name(i % 4)));
        }
        Kind::Add => rights::add(s, who, turn::any(i), turn::right(i)),
        Kind::Remove => rights::remove(s, who, turn::token(i)),
        Kind::Load => cpus::load(s, who, turn::register(i), i),
        Kind::Mode => cpus::mode(s, who, i / 8 % 2),
        Kind::Fetch => {
            let answer = access::fetch(
                s,
                scratch,
                who,
                turn::register(i),
                turn::address(i),
                buffer,
            );
            return turn::brought(answer, buffer);
        }
        Kind::Store => {
            return turn::told(access::store(
                s,
                scratch,
                who,
                turn::register(i),
                turn::address(i),
                buffer,
            ));
        }
        Kind::Reset => withdrawing::reset(s, scratch, who),
        Kind::Sound => return u64::from(sound::is_sound(&state)),
        Kind::Nothing => return u64::from(i),
        Kind::Key => cpus::key(s, who, turn::key(i)),
        Kind::Block => {
            blocks::block(
                s,
                who,
                turn::own(i),
                turn::block(i),
                turn::key(i),
                turn::mark(i),
            )
        }
    };
    turn::tasted(kind, answer, &state, i)
}

// By value, as in the other layer: each round gets the same state.
pub(crate) fn rounds(
    mut s: State,
    scratch: &mut [u8],
    buffer: &mut [u8],
    kind: Kind,
    size: u32,
    n: u32,
) -> u64 {
    if !sound::is_sound(&s) || scratch.len() != s.frames as usize * 4096 {
        return 0;
    }
    let lent = &Sound { state: &mut s };
    let mut sum = 0u64;
    for i in 0..n {
        sum = sum.wrapping_add(round(lent, scratch, buffer, kind, size, i));
    }
    sum
}
