// The tables that the rounds are run on, made by calls of the public face. Guest g owns the spaces 4g - 3 to 4g; the first
// of them is its primary space.
use model::{Call, Caller, Operation, Right, Settings, State};

// The calls that fill tables and scratch: 8 ENROL with 3 CREATE each, 32 x 7 PERMIT, 8 x 30 ADD, 8 MODE, 8 x 16 LOAD and
// 8 x 16 x 5 STORE.
const FILLING: u32 = 1272;

// With them, those that make room again: 8 REMOVE and a DESTROY.
const FREEING: u32 = 1281;

// With both, those that set keys: 512 BLOCK and 8 KEY.
const KEYING: u32 = 1801;

const SPACE1: u64 = 6003370060464332832;

const SPACE2: u64 = 6003370060464398368;

const SPACE3: u64 = 6003370060464463904;

// The name of one of a guest's data spaces: SPACE and its digit, then two blanks.
pub(crate) fn name(k: u32) -> u64 {
    match k {
        1 => SPACE1,
        2 => SPACE2,
        _ => SPACE3,
    }
}

fn from(guest: u32, operation: Operation) -> Call {
    Call {
        caller: Caller { guest },
        operation,
    }
}

// Sixteen pages for each space: 32 spaces use all 512 frames.
fn make(k: u32) -> Call {
    if k % 4 == 0 {
        return from(
            k / 4 + 1,
            Operation::Enrol {
                settings: Settings {
                    pages: 16,
                    allowance: 31,
                    share: 1,
                    list: 30,
                    asf: 1,
                },
            },
        );
    }
    from(
        k / 4 + 1,
        Operation::Create {
            name: name(k % 4),
            pages: 16,
        },
    )
}

// Each space to the seven other guests, for writing.
fn share(k: u32) -> Call {
    let owner = k / 28;
    from(
        owner % 8 + 1,
        Operation::Permit {
            id: k / 7 + 1,
            guest: (owner % 8 + k % 7 + 1) % 8 + 1,
            right: Right::Write,
        },
    )
}

// Thirty of the 32 spaces into each guest's list.
fn enter(k: u32) -> Call {
    let guest = k / 30;
    from(
        guest + 1,
        Operation::Add {
            id: (guest * 4 + k % 30) % 32 + 1,
            right: Right::Write,
        },
    )
}

// Register r holds the token of entry r + 2, which is r + 2 itself.
fn point(k: u32) -> Call {
    from(
        k / 16 + 1,
        Operation::Load {
            register: k % 16,
            value: k % 16 + 2,
        },
    )
}

// The first 1,280 bytes of the space that each register leads to.
fn put(k: u32) -> Call {
    from(
        k / 80 + 1,
        Operation::Store {
            register: k / 5 % 16,
            address: k % 5 * 256,
        },
    )
}

// Key 5 and the mark for each block of each space, and the same access key for each guest.
fn protect(k: u32) -> Call {
    if k < 512 {
        return from(
            k / 64 + 1,
            Operation::Block {
                id: k / 16 + 1,
                address: k % 16 * 4096,
                key: 5,
                mark: 1,
            },
        );
    }
    from(k - 511, Operation::Key { key: 5 })
}

fn call(k: u32) -> Call {
    match k {
        0..32 => make(k),
        32..256 => share(k - 32),
        256..496 => enter(k - 256),
        496..504 => from(k - 495, Operation::Mode { mode: 1 }),
        504..632 => point(k - 504),
        632..FILLING => put(k - 632),
        FILLING..1280 => from(k - 1271, Operation::Remove { token: 31 }),
        1280 => from(8, Operation::Destroy { id: 32 }),
        _ => protect(k - FREEING),
    }
}

// Call k; a guest above the last makes none.
fn step(s: &mut State, scratch: &mut [u8], k: u32, last: u32) {
    let c = call(k);
    if c.caller.guest <= last {
        let mut bytes = [(k % 251) as u8; 256];
        *s = spaces::serve(*s, scratch, c, &mut bytes).state;
    }
}

// The calls by guests up to the last, of so many; where there are to be keys, they are set last.
fn made(scratch: &mut [u8], last: u32, calls: u32, keys: u32) -> State {
    let mut s = spaces::fresh(512).state;
    for k in 0..calls {
        step(&mut s, scratch, k, last);
    }
    if keys != 0 {
        for k in FREEING..KEYING {
            step(&mut s, scratch, k, last);
        }
    }
    s
}

// Full tables: 8 guests, 32 spaces, 512 frames used, 224 permits, 240 valid entries.
pub(crate) fn full(scratch: &mut [u8], keys: u32) -> State {
    made(scratch, 8, FILLING, keys)
}

// Nothing of guest 8: its ENROL can be done.
pub(crate) fn without_one_guest(scratch: &mut [u8], keys: u32) -> State {
    made(scratch, 7, FILLING, keys)
}

// A slot, its 16 frames and the last entry of each list are free: one more CREATE and one more ADD can be done.
pub(crate) fn with_room(scratch: &mut [u8], keys: u32) -> State {
    made(scratch, 8, FREEING, keys)
}
