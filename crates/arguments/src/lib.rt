// A program's arguments: one that takes none but `--help`, and how any program reads one.
#![tactic(auto)]

ghost use Rattle.std.specs.Prelude.{◌≤◌, length, IfSome};

use std::env::FillError;
use std::io;
use std::io::{Cursor, Write};
use std::rt::Env;

// Puts the argument of that place at the start of the text and tells its length: 0 where it is too long, and nothing where there is
// none. The program's name stands at 0.
pub fn at(rt: &impl Env, place: usize, text: &mut [u8]) -> Option<usize>
    ensures { IfSome result (λ n. n ≤ length text.new) }
{
    match rt.arg(place, text) {
        Ok(n) => Some(n),
        Err(FillError::TooLong) => Some(0),
        Err(FillError::NotPresent) => None,
    }
}

// Whether there are none, so that the program does its work.
pub fn are_none(rt: &impl Env) -> bool {
    at(rt, 1, &mut []).is_none()
}

// Whether the only one is `--help`.
fn ask_for_help(rt: &impl Env) -> bool {
    let mut word = [0u8; 6];
    match at(rt, 1, &mut word) {
        Some(n) => word[..n] == b"--help"[..] && at(rt, 2, &mut []).is_none(),
        None => false,
    }
}

// Where std's text of an error goes on with the error's number, which is left out.
fn reason_length(text: &[u8]) -> usize
    ensures { result ≤ length text.now }
{
    let number: &[u8] = b" (os error ";
    text.windows(number.len())
        .position(|part| part == number)
        .unwrap_or(text.len())
}

// One line: what failed, and what the system calls the error of that number. Where the complaints can't be written they are lost.
fn fail<W: Write>(to: &mut W, what: &[u8], error: u32) {
    let number = i32::try_from(error).unwrap_or(0);
    let mut text = Cursor::new([0u8; 320]);
    let _ = write!(text, "{}", io::Error::from_raw_os_error(number));
    let size = reason_length(text.get_ref());
    for part in [what, b": ", &text.get_ref()[..size], b"\n"] {
        let _ = descriptors::send(to, part);
    }
}

// `asked` is what is said to have failed where the text can't be written.
fn help<O: Write, E: Write>(out: &mut O, complaints: &mut E, text: &[u8], asked: &[u8]) {
    if let Err(unsent) = descriptors::send(out, text) {
        fail(complaints, asked, unsent.error);
    }
}

// `--help` is answered by the text on `out`, and anything else by a refusal among the complaints.
pub fn answer<O: Write, E: Write>(
    rt: &impl Env,
    out: &mut O,
    complaints: &mut E,
    text: &[u8],
    asked: &[u8],
    refusal: &[u8],
) {
    if ask_for_help(rt) {
        help(out, complaints, text, asked);
        return;
    }
    let _ = descriptors::send(complaints, refusal);
}
