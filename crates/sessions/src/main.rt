// Runs the session files that its arguments name. Of each it prints the name and the whole output of the session; then it runs
// the file again in other pieces, with less room for replies, and from the file to another file, and says whether the output was
// the same. Last it has the file's lines written again, and says whether the good ones came back as they are, and how many.
#![tactic(auto)]

mod files;
mod good;
mod pieces;

ghost use Rattle.std.specs.Prelude.{◌≤◌, length};

use std::fs;
use std::rt::{Env, Files};

// A write that fails is passed over: whoever compares the output sees what is missing. These lines are in each program that prints,
// since a crate of theirs would hold nothing else.
fn say(rt: &impl Print, text: &[u8]) {
    let _ = rt.write_all(text);
}

fn say_number(rt: &impl Print, n: usize) {
    let _ = rt.print(n);
}

// The input in two pieces, cut at every place; a long one at every 101st.
fn compare_cuts(rt: &impl Print, input: &[u8], want: &[u8]) {
    if let Some(bad) = pieces::first_bad_cut(input, want) {
        say(rt, b"DIFFERS at cut ");
        say_number(rt, bad);
        say(rt, b"\n");
        return;
    }
    say(rt, b"same at ");
    say_number(rt, pieces::cut_count(input.len()));
    say(rt, b" cuts\n");
}

fn compare_bytes(rt: &impl Print, input: &[u8], want: &[u8]) {
    if !pieces::is_same_by_bytes(input, want) {
        say(rt, b"DIFFERS byte by byte\n");
        return;
    }
    say(rt, b"same byte by byte\n");
}

// Less room for replies, which are taken away whenever it is full.
fn compare_rooms(rt: &impl Print, input: &[u8], want: &[u8]) {
    if let Some(bad) = pieces::first_bad_room(input, want) {
        say(rt, b"DIFFERS in a room of ");
        say_number(rt, bad);
        say(rt, b"\n");
        return;
    }
    say(rt, b"same in 8 rooms\n");
}

// From the file to a file, which is read back.
fn compare_files(rt: &(impl Files + Print), path: &str, input: &[u8], want: &[u8]) {
    if !files::is_same(rt, path, input.len(), want) {
        say(rt, b"DIFFERS from file to file\n");
        return;
    }
    say(rt, b"same from file to file\n");
}

fn compare_lines(rt: &(impl Files + Print), path: &str, size: usize, want: &[u8]) {
    if !files::is_rewritten(rt, path, size, want) {
        say(rt, b"DIFFER, the good lines written again\n");
        return;
    }
    say_number(rt, descriptors::newlines_in(want));
    say(rt, b" good lines, the same written again\n");
}

fn compare_again(rt: &(impl Files + Print), path: &str, input: &[u8]) {
    let mut text = [0u8; 65536];
    let n = good::good_lines(input, &mut text);
    compare_lines(rt, path, input.len(), &text[0..n]);
}

fn compare(rt: &(impl Files + Print), path: &str, input: &[u8], want: &[u8]) {
    compare_cuts(rt, input, want);
    compare_bytes(rt, input, want);
    compare_rooms(rt, input, want);
    compare_files(rt, path, input, want);
    compare_again(rt, path, input);
}

// The text of the session is the first `n` bytes.
fn show_text(rt: &(impl Files + Print), path: &str, input: &[u8], text: &[u8], n: usize)
    requires { n ≤ length text.now }
{
    if n == text.len() {
        say(rt, b"too long\n");
        return;
    }
    say(rt, &text[0..n]);
    compare(rt, path, input, &text[0..n]);
}

fn show_session(rt: &(impl Files + Print), path: &str, input: &[u8]) {
    let mut text = [0u8; 65536];
    let n = pieces::run_whole(input, &mut text);
    show_text(rt, path, input, &text, n);
}

fn show_input(rt: &(impl Files + Print), path: &str) {
    let Ok(mut file) = fs::open(rt, path) else {
        say(rt, b"no such file\n");
        return;
    };
    let mut input = [0u8; 65536];
    let n = files::read_full(&mut file, &mut input);
    drop(file);
    if n >= input.len() {
        say(rt, b"too long\n");
        return;
    }
    show_session(rt, path, &input[..n]);
}

fn show_file(rt: &(impl Files + Print), path: &[u8]) {
    say(rt, b"== ");
    say(rt, path);
    say(rt, b"\n");
    match std::str::from_utf8(path) {
        Ok(name) => show_input(rt, name),
        Err(_) => say(rt, b"no such file\n"),
    }
}

// Shows the file that an argument names. Whether there is an argument at that place.
fn show_argument(rt: &(impl Env + Files + Print), i: usize) -> bool {
    let mut path = [0u8; 4096];
    match arguments::at(rt, i, &mut path) {
        Some(n) => {
            show_file(rt, &path[..n]);
            true
        }
        None => false,
    }
}

fn main(rt: HostRuntime) {
    for i in 1..usize::MAX {
        if !show_argument(&rt, i) {
            break;
        }
    }
}
