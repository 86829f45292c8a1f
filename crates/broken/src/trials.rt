// The fifteen calls by their own functions, on one state and with `room` bytes of scratch. Each call has the state by value, as the public
// face takes it: what one call makes of it the next does not see.
use crate::sums;
use model::{Answer, Caller, Reply, Right, Settings, State};

pub const TEMP: u64 = 0x54454d5020202020;

pub const WORK: u64 = 0x574f524b20202020;

// What scratch and buffer are filled with.
const FILLED: u8 = 165;

fn guest(g: u32) -> Caller {
    Caller { guest: g }
}

// A write that fails is passed over: whoever compares the output sees what is missing. These lines are in each program that prints,
// since a crate of theirs would hold nothing else.
pub(crate) fn say(rt: &impl Print, text: &[u8]) {
    let _ = rt.write_all(text);
}

fn number(rt: &impl Print, a: Answer) {
    let _ = print!(rt; " {}", spaces::number(a));
}

// The tables had the sum `before`.
fn told(rt: &impl Print, before: u64, r: Reply) {
    number(rt, r.answer);
    if sums::sum(&r.state) != before {
        say(rt, b"+");
    }
}

// Scratch was filled before the call, and is filled again for the next.
fn told_scratch(rt: &impl Print, scratch: &mut [u8]) {
    if scratch.iter().any(|b| *b != FILLED) {
        say(rt, b"*");
    }
    scratch.fill(FILLED);
}

fn enrol(rt: &impl Print, s: State, before: u64, scratch: &mut [u8]) {
    let settings = Settings {
        pages: 1,
        allowance: 0,
        share: 0,
        list: 1,
        asf: 0,
    };
    told(rt, before, spaces::enrol(s, scratch, guest(3), settings));
}

fn fetch(rt: &impl Print, s: State, scratch: &[u8]) {
    let mut buffer = [0u8; 1];
    number(rt, spaces::fetch(s, scratch, guest(1), 0, 0, &mut buffer));
    if buffer[0] != 0 {
        say(rt, b"*");
    }
}

// The calls between DESTROY and FETCH.
fn before_fetch(rt: &impl Print, s: State, before: u64, scratch: &[u8]) {
    let c = guest(1);
    told(
        rt,
        before,
        spaces::permit(s, scratch, c, 3, 2, Right::Write),
    );
    told(rt, before, spaces::isolate(s, scratch, c, 3));
    number(rt, spaces::query(s, scratch, c, 1, TEMP));
    told(rt, before, spaces::add(s, scratch, c, 3, Right::Write));
    told(rt, before, spaces::remove(s, scratch, guest(2), 2));
    told(rt, before, spaces::load(s, scratch, c, 1, 2));
    told(rt, before, spaces::mode(s, scratch, c, 1));
}

// Those behind RESET.
fn behind_reset(rt: &impl Print, s: State, before: u64, scratch: &[u8]) {
    let c = guest(1);
    told(rt, before, spaces::key(s, scratch, c, 15));
    told(rt, before, spaces::block(s, scratch, c, 3, 4095, 15, 1));
}

// The calls that may change scratch, each of which finds it filled, with those between them.
fn each(rt: &impl Print, s: State, before: u64, scratch: &mut [u8]) {
    let c = guest(1);
    enrol(rt, s, before, scratch);
    told_scratch(rt, scratch);
    told(rt, before, spaces::create(s, scratch, c, WORK, 1));
    told_scratch(rt, scratch);
    told(rt, before, spaces::destroy(s, scratch, c, 3));
    told_scratch(rt, scratch);
    before_fetch(rt, s, before, scratch);
    fetch(rt, s, scratch);
    number(rt, spaces::store(s, scratch, c, 0, 0, b"A"));
    told_scratch(rt, scratch);
    told(rt, before, spaces::reset(s, scratch, c));
    told_scratch(rt, scratch);
    behind_reset(rt, s, before, scratch);
}

pub(crate) fn all(rt: &impl Print, s: State, room: usize) {
    let mut scratch = [FILLED; 32769];
    if let Some(lent) = scratch.get_mut(..room) {
        each(rt, s, sums::sum(&s), lent);
    }
    say(rt, b"\n");
}
