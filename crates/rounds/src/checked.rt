// Rounds of the public face, which tests each time whether state and scratch are sound. Each round gets the same state, and
// what it makes of it is dropped. The inner layer's rounds are written like these, call by call: a trait of the two would name each
// call three times more, in the trait and in both impls.
use crate::turn::Kind;
use crate::{setup, turn};
use model::State;

// The new space of ENROL and CREATE has as many pages as `size` says.
fn round(s: State, scratch: &mut [u8], buffer: &mut [u8], kind: Kind, size: u32, i: u32) -> u64 {
    let who = turn::caller(i);
    let r = match kind {
        Kind::Enrol => spaces::enrol(s, scratch, turn::newcomer(), turn::settings(size, i)),
        Kind::Create => spaces::create(s, scratch, who, turn::NEW, size),
        Kind::Destroy => spaces::destroy(s, scratch, who, turn::own_data(i)),
        Kind::Permit => {
            spaces::permit(
                s,
                scratch,
                who,
                turn::own(i),
                turn::other(i),
                turn::right(i),
            )
        }
        Kind::Isolate => spaces::isolate(s, scratch, who, turn::own(i)),
        Kind::Query => {
            return turn::told(spaces::query(s, scratch, who, turn::other(i), setup::name(i % 4)));
        }
        Kind::Add => spaces::add(s, scratch, who, turn::any(i), turn::right(i)),
        Kind::Remove => spaces::remove(s, scratch, who, turn::token(i)),
        Kind::Load => spaces::load(s, scratch, who, turn::register(i), i),
        Kind::Mode => spaces::mode(s, scratch, who, i / 8 % 2),
        Kind::Fetch => {
            let answer = spaces::fetch(
                s,
                scratch,
                who,
                turn::register(i),
                turn::address(i),
                buffer,
            );
            return turn::brought(answer, buffer);
        }
        Kind::Store => {
            return turn::told(spaces::store(
                s,
                scratch,
                who,
                turn::register(i),
                turn::address(i),
                buffer,
            ));
        }
        Kind::Reset => spaces::reset(s, scratch, who),
        Kind::Sound => return u64::from(sound::is_sound(&s)),
        Kind::Nothing => return u64::from(i),
        Kind::Key => spaces::key(s, scratch, who, turn::key(i)),
        Kind::Block => {
            spaces::block(
                s,
                scratch,
                who,
                turn::own(i),
                turn::block(i),
                turn::key(i),
                turn::mark(i),
            )
        }
    };
    turn::tasted(kind, r.answer, &r.state, i)
}

pub(crate) fn rounds(
    s: State,
    scratch: &mut [u8],
    buffer: &mut [u8],
    kind: Kind,
    size: u32,
    n: u32,
) -> u64 {
    let mut sum = 0u64;
    for i in 0..n {
        sum = sum.wrapping_add(round(s, scratch, buffer, kind, size, i));
    }
    sum
}
