// Runs one of the calls many times over full tables, for `bench/calls` to time:
//
//     rounds CALL LAYER SIZE ROUNDS [KEYS]
//
// CALL is 1 to 13 in the paper's order (ENROL, CREATE, DESTROY, PERMIT, ISOLATE, QUERY, ADD, REMOVE, LOAD, MODE, FETCH, STORE,
// RESET), 14 for the soundness test alone, 15 for a round that makes no call, 16 for KEY and 17 for BLOCK. LAYER is 0 for the
// public face, which tests each time whether the state is sound, and 1 for the inner layer. SIZE is the number of pages for ENROL
// and CREATE, and of bytes for FETCH and STORE. KEYS is 0, or left out, for tables whose keys are all 0, and 1 for tables with a
// key and the mark in every block, which is every guest's access key too. It prints CALL, LAYER, KEYS and a checksum of answers,
// tables and bytes, which both layers share. With no arguments it makes a few rounds of everything.
#![tactic(auto)]

mod checked;
mod inner;
mod setup;
mod turn;

use model::State;
use std::rt::Env;
use turn::Kind;

// The number that the digits in a text make: of more than nine, the last nine. What is no digit is passed over.
fn decimal(text: &[u8]) -> u32 {
    text.iter().filter(|b| b.is_ascii_digit()).fold(
        0,
        |v: u32, b| v % 100000000 * 10 + u32::from(b.wrapping_sub(b'0')),
    )
}

// An argument that is a number; 0 where it is missing.
fn argument(rt: &impl Env, k: usize) -> u32 {
    let mut text = [0u8; 16];
    match arguments::at(rt, k, &mut text) {
        Some(n) => decimal(&text[..n]),
        None => 0,
    }
}

// Tables on which the call is done.
fn tables(scratch: &mut [u8], kind: Kind, keys: u32) -> State {
    match kind {
        Kind::Enrol => setup::without_one_guest(scratch, keys),
        Kind::Create | Kind::Add => setup::with_room(scratch, keys),
        _ => setup::full(scratch, keys),
    }
}

// The layer and the keys come as numbers, and are printed as they came.
fn rounds(
    s: State,
    scratch: &mut [u8],
    buffer: &mut [u8],
    kind: Kind,
    layer: u32,
    size: u32,
    n: u32,
) -> u64 {
    if layer == 0 {
        return checked::rounds(s, scratch, buffer, kind, size, n);
    }
    inner::rounds(s, scratch, buffer, kind, size, n)
}

// A write that fails is passed over: whoever compares the output sees what is missing.
fn put(rt: &impl Print, n: u64, end: &[u8]) {
    let _ = rt.print(n);
    let _ = rt.write_all(end);
}

fn run(
    rt: &impl Print,
    scratch: &mut [u8],
    buffer: &mut [u8],
    call: u32,
    layer: u32,
    size: u32,
    n: u32,
    keys: u32,
) {
    let kind = Kind::from(call);
    let s = tables(scratch, kind, keys);
    let m = buffer.len().min(size as usize);
    let sum = rounds(s, scratch, &mut buffer[..m], kind, layer, size, n);
    put(rt, u64::from(call), b" ");
    put(rt, u64::from(layer), b" ");
    put(rt, u64::from(keys), b" ");
    put(rt, sum, b"\n");
}

// A few rounds of each call in both layers, with 16 pages or bytes, without keys and with them.
fn run_all(rt: &impl Print, scratch: &mut [u8], buffer: &mut [u8]) {
    for k in 0..68u32 {
        run(rt, scratch, buffer, k / 4 + 1, k % 2, 16, 24, k / 2 % 2);
    }
}

// The scratch of 512 frames goes by its type, from which its length is known.
fn start(rt: &(impl Env + Print), scratch: &mut [u8; 2097152], buffer: &mut [u8; 256]) {
    if arguments::at(rt, 4, &mut []).is_none() {
        run_all(rt, scratch, buffer);
        return;
    }
    run(
        rt,
        scratch,
        buffer,
        argument(rt, 1),
        argument(rt, 2),
        argument(rt, 3),
        argument(rt, 4),
        argument(rt, 5),
    );
}

fn main(rt: HostRuntime) {
    let mut scratch = [0u8; 2097152];
    let mut buffer = [9u8; 256];
    start(&rt, &mut scratch, &mut buffer);
}
