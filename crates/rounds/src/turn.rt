// What the calls of round i are made with. All of it varies by round, and every call is one that is done.
use model::{Answer, Caller, Right, Settings, State};

// What a round does: one of the calls, the soundness test alone, or nothing.
#[derive(Clone, Copy, PartialEq, Eq)]
pub(crate) enum Kind {
    Enrol,
    Create,
    Destroy,
    Permit,
    Isolate,
    Query,
    Add,
    Remove,
    Load,
    Mode,
    Fetch,
    Store,
    Reset,
    Sound,
    Nothing,
    Key,
    Block,
}

// By the number on the command line; a number that is none of a call's is that of a round that makes no call.
impl From<u32> for Kind {
    fn from(number: u32) -> Kind {
        match number {
            1 => Kind::Enrol,
            2 => Kind::Create,
            3 => Kind::Destroy,
            4 => Kind::Permit,
            5 => Kind::Isolate,
            6 => Kind::Query,
            7 => Kind::Add,
            8 => Kind::Remove,
            9 => Kind::Load,
            10 => Kind::Mode,
            11 => Kind::Fetch,
            12 => Kind::Store,
            13 => Kind::Reset,
            14 => Kind::Sound,
            16 => Kind::Key,
            17 => Kind::Block,
            _ => Kind::Nothing,
        }
    }
}

// SPACE4 and two blanks: a name that no guest has used yet.
pub(crate) const NEW: u64 = 6003370060464529440;

pub(crate) fn caller(i: u32) -> Caller {
    Caller { guest: i % 8 + 1 }
}

// The guest that is not enrolled yet where one is to be.
pub(crate) fn newcomer() -> Caller {
    Caller { guest: 8 }
}

pub(crate) fn settings(pages: u32, i: u32) -> Settings {
    Settings {
        pages,
        allowance: i % 32,
        share: i % 2,
        list: i % 30 + 1,
        asf: i / 2 % 2,
    }
}

// The identification of one of the caller's spaces, the primary among them.
pub(crate) fn own(i: u32) -> u32 {
    i % 8 * 4 + i / 8 % 4 + 1
}

// The same of its data spaces alone.
pub(crate) fn own_data(i: u32) -> u32 {
    i % 8 * 4 + i / 8 % 3 + 2
}

// Any space but the last, which is not there where one more ADD is to be done.
pub(crate) fn any(i: u32) -> u32 {
    i % 31 + 1
}

// A guest that is not the caller.
pub(crate) fn other(i: u32) -> u32 {
    (i % 8 + i / 8 % 7 + 1) % 8 + 1
}

pub(crate) fn right(i: u32) -> Right {
    if i % 2 == 0 {
        Right::Read
    } else {
        Right::Write
    }
}

// A token of the caller's list, of which every sequence is still 0.
pub(crate) fn token(i: u32) -> u32 {
    i / 8 % 30 + 2
}

pub(crate) fn register(i: u32) -> u32 {
    i % 16
}

// With 256 bytes it stays below the 1,280 that were stored.
pub(crate) fn address(i: u32) -> u32 {
    i % 1024
}

pub(crate) fn key(i: u32) -> u32 {
    i / 8 % 16
}

pub(crate) fn mark(i: u32) -> u32 {
    i / 128 % 2
}

// Where one of the sixteen blocks of a space starts.
pub(crate) fn block(i: u32) -> u32 {
    i / 32 % 16 * 4096
}

// What a round adds to the checksum: the number and the value of its answer.
pub(crate) fn told(answer: Answer) -> u64 {
    u64::from(spaces::number(answer)).wrapping_add(u64::from(spaces::value(answer)))
}

// The same of a call that changes the tables, with an entry of them; of KEY with the access key that it set, and of BLOCK with the key
// of the frame that it set: the spaces' frames are in the order of their identifications. Which of them it is varies by round, so that
// the tables have to be made.
pub(crate) fn tasted(kind: Kind, answer: Answer, s: &State, i: u32) -> u64 {
    let taste = match kind {
        Kind::Key => s.cpus[(i % 8) as usize].key,
        Kind::Block => s.cells[(i % 8 * 64 + i / 8 % 4 * 16 + i / 32 % 16) as usize].key,
        _ => s.entries[(i % 240) as usize].sequence,
    };
    told(answer).wrapping_add(u64::from(taste))
}

// The same of a fetch, with the last byte that it brought.
pub(crate) fn brought(answer: Answer, buffer: &[u8]) -> u64 {
    let last = buffer.last().copied().unwrap_or(0);
    told(answer).wrapping_add(u64::from(last))
}
