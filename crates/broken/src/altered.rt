// The sound state, as it is and with one thing altered: most alterations break one clause of soundness alone, and some, beside
// one that does, are sound. The program's arguments say what they are, in order.
use crate::trials;
use model::{BASE, Cell, Entry, Grant, Permit, Right, Standing, State};

pub const COUNT: u32 = 50;

fn head(s: &mut State, k: u32) {
    match k {
        0 => s.frames = 0,
        1 => s.frames = 513,
        2 => s.next = 0,
        _ => s.next = 65537,
    }
}

// TEMP, in slot 2.
fn live_space(s: &mut State, k: u32) {
    let x = &mut s.spaces[2];
    match k {
        4 => x.owner = 3,
        5 => x.pages = 0,
        6 => x.first = 8,
        7 => x.first = 0,
        8 => x.id = 4,
        9 => x.id = 1,
        10 => x.name = 0x74454d5020202020,
        _ => x.name = BASE,
    }
}

// Slot 3, which no space has.
fn dead_space(s: &mut State, k: u32) {
    let x = &mut s.spaces[3];
    match k {
        12 => x.owner = 1,
        13 => x.name = trials::TEMP,
        14 => x.first = 5,
        _ => x.pages = 1,
    }
}

// Guest 1, who is enrolled, and the mode of guest 2, who is too.
fn enrolled_guest(s: &mut State, k: u32) {
    match k {
        16 => s.spaces[0].name = trials::WORK,
        17 => s.guests[0].allowance = 0,
        18 => s.guests[0].allowance = 32,
        19 => s.guests[0].list = 0,
        20 => s.guests[0].list = 31,
        _ => s.cpus[1].mode = true,
    }
}

// Guest 3, who is not.
fn absent_guest(s: &mut State, k: u32) {
    match k {
        22 => s.guests[2].allowance = 1,
        23 => s.guests[2].share = true,
        24 => s.guests[2].list = 1,
        25 => s.guests[2].asf = true,
        26 => s.cpus[2].mode = true,
        _ => s.cpus[2].registers[15] = 1,
    }
}

// The permit of the space in slot u to guest h stands at place u * 8 + h - 1.
fn permit(s: &mut State, k: u32) {
    let reading = Permit {
        grant: Grant::Reading,
    };
    match k {
        28 => s.permits[25] = reading,
        29 => s.permits[8] = reading,
        30 => s.permits[18] = reading,
        _ => s.permits[16] = reading,
    }
}

// Entry n of guest g stands at place (g - 1) * 30 + n - 2.
fn entry(standing: Standing, sequence: u8) -> Entry {
    Entry { standing, sequence }
}

fn valid(slot: u8, right: Right) -> Entry {
    entry(Standing::Valid { slot, right }, 0)
}

fn list_entry(s: &mut State, k: u32) {
    match k {
        32 => s.entries[30] = valid(3, Right::Read),
        33 => s.entries[30] = valid(32, Right::Read),
        34 => s.entries[30] = valid(0, Right::Read),
        35 => s.entries[30] = valid(2, Right::Write),
        _ => s.entries[34] = entry(Standing::Unused, 1),
    }
}

// Frame 2 is TEMP's, frame 3 is free, and the eight frames end before frame 8.
fn cell(s: &mut State, k: u32) {
    let marked = Cell { key: 0, mark: true };
    match k {
        37 => s.cells[2] = Cell {
            key: 16,
            mark: false,
        },
        38 => s.cells[2] = Cell {
            key: 15,
            mark: false,
        },
        39 => s.cells[2] = marked,
        40 => s.cells[3] = Cell {
            key: 1,
            mark: false,
        },
        41 => s.cells[3] = marked,
        42 => s.cells[8] = Cell {
            key: 1,
            mark: false,
        },
        _ => s.cells[511] = marked,
    }
}

// Guest 2 is enrolled, guest 3 is not.
fn access_key(s: &mut State, k: u32) {
    match k {
        44 => s.cpus[1].key = 16,
        45 => s.cpus[1].key = 15,
        _ => s.cpus[2].key = 1,
    }
}

// By value: the state that is altered is a copy, and the next one is altered anew.
pub(crate) fn state(mut s: State, k: u32) -> State {
    match k {
        0..4 => head(&mut s, k),
        4..12 => live_space(&mut s, k),
        12..16 => dead_space(&mut s, k),
        16..22 => enrolled_guest(&mut s, k),
        22..28 => absent_guest(&mut s, k),
        28..32 => permit(&mut s, k),
        32..37 => list_entry(&mut s, k),
        37..44 => cell(&mut s, k),
        44..47 => access_key(&mut s, k),
        _ => {}
    }
    s
}

// How long scratch is: that of 8 frames, but for the last three.
pub(crate) fn room(k: u32) -> usize {
    match k {
        47 => 32767,
        48 => 32769,
        49 => 0,
        _ => 32768,
    }
}
