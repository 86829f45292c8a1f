// Every call on states that are not sound, each with one clause of soundness broken alone, and on scratch of another length than
// the state's. A line says what is broken, or what is sound beside it, and then has the fifteen answers' numbers in the order of
// the papers. A number has a + behind it where the call changed the tables, and a * where it changed bytes of scratch or buffer.
#![tactic(auto)]

mod altered;
mod sums;
mod trials;

use model::{Caller, Right, Settings, State};
use std::rt::Env;

// By value, as the public face takes a state and gives it back.
fn enrolled(s: State, scratch: &mut [u8], guest: u32, settings: Settings) -> State {
    spaces::enrol(s, scratch, Caller { guest }, settings).state
}

// 8 frames. Guest 1 shares and has ASF; its space TEMP, identification 3 in slot 2, is permitted to guest 2 with read, and guest 2
// has added it. Guest 2 neither shares nor has ASF. Each has a primary: identifications 1 and 2 in slots 0 and 1. Slot u has frame
// u.
fn shared() -> State {
    let mut scratch = [0u8; 32768];
    let one = Caller { guest: 1 };
    let two = Caller { guest: 2 };
    let a = enrolled(
        spaces::fresh(8).state,
        &mut scratch,
        1,
        Settings {
            pages: 1,
            allowance: 2,
            share: 1,
            list: 4,
            asf: 1,
        },
    );
    let b = enrolled(
        a,
        &mut scratch,
        2,
        Settings {
            pages: 1,
            allowance: 0,
            share: 0,
            list: 4,
            asf: 0,
        },
    );
    let c = spaces::create(b, &mut scratch, one, trials::TEMP, 1);
    let d = spaces::permit(c.state, &scratch, one, 3, 2, Right::Read);
    let e = spaces::add(d.state, &scratch, two, 3, Right::Read);
    e.state
}

// The program's arguments say what is broken, in order.
fn line(rt: &(impl Env + Print), s: State, k: u32) {
    let mut text = [0u8; 4096];
    let n = rt.arg(k as usize + 1, &mut text).unwrap_or(0);
    trials::say(rt, &text[..n]);
    trials::say(rt, b":");
    trials::all(rt, altered::state(s, k), altered::room(k));
}

fn main(rt: HostRuntime) {
    let s = shared();
    trials::say(&rt, b"sound:");
    trials::all(&rt, s, 32768);
    for k in 0..altered::COUNT {
        line(&rt, s, k);
    }
}
