// The public face on what no session reaches or shows: up to 512 frames, 32 spaces, the last identification, a free frame before
// the first space, the bytes of free frames. The program's arguments are lines as a session has them, each carried out on the
// tables and the scratch that the line before it left; all of it is done twice, by `serve` alone and with DESTROY, FETCH, STORE,
// RESET, KEY and BLOCK by their own functions. Each line is printed with the answer's number and value; the first and the last
// byte of the buffer, if it has one, which a fetch finds filled with 170; after a bar each, frame, key and mark of every frame
// that has a key or a mark; and, after a tilde each, the frame from which on the bytes were made zeros, made others or kept: those
// of the frames before the first tilde were kept. Scratch first holds 165 in every byte. A line that is no request is a heading.
#![tactic(auto)]

use model::{Answer, Call, Cell, Operation, Reply, Request, State};
use std::rt::Env;

// A write that fails is passed over: whoever compares the output sees what is missing. These lines are in each program that prints,
// since a crate of theirs would hold nothing else.
fn say(rt: &impl Print, text: &[u8]) {
    let _ = rt.write_all(text);
}

fn print(rt: &impl Print, n: u32) {
    let _ = print!(rt; " {n}");
}

fn told_answer(rt: &impl Print, a: Answer) {
    say(rt, b":");
    print(rt, spaces::number(a));
    print(rt, spaces::value(a));
}

fn told_buffer(rt: &impl Print, buffer: &[u8]) {
    if let (Some(first), Some(last)) = (buffer.first(), buffer.last()) {
        say(rt, b", bytes");
        print(rt, u32::from(*first));
        print(rt, u32::from(*last));
    }
}

fn told_cells(rt: &impl Print, cells: &[Cell; 512]) {
    for (f, cell) in cells.iter().enumerate() {
        if cell.key != 0 || cell.mark {
            say(rt, b" |");
            print(rt, f as u32);
            print(rt, u32::from(cell.key));
            print(rt, u32::from(cell.mark));
        }
    }
}

// What became of the bytes of one frame.
#[derive(Clone, Copy, PartialEq, Eq)]
enum Change {
    Kept,
    Zeros,
    Others,
}

fn change_of(before: &[u8], after: &[u8]) -> Change {
    if before == after {
        return Change::Kept;
    }
    if after.iter().all(|b| *b == 0) {
        return Change::Zeros;
    }
    Change::Others
}

fn told_change(rt: &impl Print, f: u32, change: Change) {
    say(rt, b" ~");
    print(rt, f);
    match change {
        Change::Kept => say(rt, b" kept"),
        Change::Zeros => say(rt, b" zeros"),
        Change::Others => say(rt, b" others"),
    }
}

fn told_frames(rt: &impl Print, before: &[u8], after: &[u8]) {
    let mut last = Change::Kept;
    let frames = before.chunks(4096).zip(after.chunks(4096));
    for (f, (before, after)) in (0..512u32).zip(frames) {
        let new = change_of(before, after);
        if new != last {
            told_change(rt, f, new);
            last = new;
        }
    }
    say(rt, b"\n");
}

// By the calls' own functions, where there is one here.
// By value, as the public face takes a state and gives it back.
fn by_itself(s: State, scratch: &mut [u8], call: Call, buffer: &mut [u8]) -> Reply {
    let caller = call.caller;
    match call.operation {
        Operation::Destroy { id } => spaces::destroy(s, scratch, caller, id),
        Operation::Fetch { register, address } => Reply {
            answer: spaces::fetch(s, scratch, caller, register, address, buffer),
            state: s,
        },
        Operation::Store { register, address } => Reply {
            answer: spaces::store(s, scratch, caller, register, address, buffer),
            state: s,
        },
        Operation::Reset => spaces::reset(s, scratch, caller),
        Operation::Key { key } => spaces::key(s, scratch, caller, key),
        Operation::Block {
            id,
            address,
            key,
            mark,
        } => spaces::block(s, scratch, caller, id, address, key, mark),
        _ => spaces::serve(s, scratch, call, buffer),
    }
}

// `own` tells which of the two answers, for every line of a run. A closure in its place would be handed through as many functions.
fn reply(s: State, scratch: &mut [u8], call: Call, buffer: &mut [u8], own: bool) -> Reply {
    if own {
        by_itself(s, scratch, call, buffer)
    } else {
        spaces::serve(s, scratch, call, buffer)
    }
}

// The state's own part of scratch is lent, and as much of `bytes` as the request is long: no line here asks for more.
fn carry_out(
    rt: &impl Print,
    s: &mut State,
    scratch: &mut [u8],
    call: Call,
    length: u32,
    bytes: &mut [u8],
    own: bool,
) {
    let size = s.frames as usize * 4096;
    let n = length as usize;
    if scratch.len() < size || bytes.len() < n {
        return;
    }
    let r = reply(*s, &mut scratch[..size], call, &mut bytes[..n], own);
    told_answer(rt, r.answer);
    told_buffer(rt, &bytes[..n]);
    told_cells(rt, &r.state.cells);
    *s = r.state;
}

fn begin(rt: &impl Print, s: &mut State, frames: u32) {
    let r = spaces::fresh(frames);
    told_answer(rt, r.answer);
    told_cells(rt, &r.state.cells);
    *s = r.state;
}

// Two headings alter the tables: nothing else leads there, or not in a run that is short enough.
fn alter(s: &mut State, heading: &[u8]) {
    if heading == b"next identification 65535".as_slice() {
        s.next = 65535;
    } else if heading == b"the first space in frame 1".as_slice() {
        s.spaces[0].first = 1;
    }
}

// One line, and what it did to each frame: scratch as it was before stands beside it, so that this takes 4 MB of stack.
fn line(rt: &impl Print, s: &mut State, scratch: &mut [u8; 2097152], text: &[u8], own: bool) {
    let before = *scratch;
    let mut bytes = [170u8; 257];
    say(rt, text);
    match lines::read_line(text, &mut bytes) {
        Request::Frames { frames } => begin(rt, s, frames),
        Request::Call { call, length } => carry_out(rt, s, scratch, call, length, &mut bytes, own),
        Request::NotRead => alter(s, text),
    }
    told_frames(rt, &before, scratch);
}

fn run(rt: &(impl Env + Print), own: bool) {
    let mut scratch = [165u8; 2097152];
    let mut text = [0u8; 4096];
    let mut s = spaces::fresh(0).state;
    for i in 1..usize::MAX {
        let Some(n) = arguments::at(rt, i, &mut text) else {
            break;
        };
        line(rt, &mut s, &mut scratch, &text[..n], own);
    }
}

fn main(rt: HostRuntime) {
    say(&rt, b"== by serve\n");
    run(&rt, false);
    say(&rt, b"== by their own functions\n");
    run(&rt, true);
}
