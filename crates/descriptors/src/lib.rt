// Reads and writes, and what each came to. All that is decided between two calls of the system is decided by a function whose
// promise is exact; what a call reads or writes no promise can say.
#![tactic(auto)]

ghost use Rattle.std.specs.Prelude.{◌≤◌, ◌<◌, ◌≡◌, ◌≢◌, length, pos, negsuc, IfSome, IfOk, IfErr, MatchResult};
ghost use Rattle.std.specs.IoError.{raw_os_error};
ghost use Rattle.descriptors.specs.Came.{came_of, got_of, moved_of, interrupted, bytes_got, place_of, newlines};

use std::io;
use std::io::{ErrorKind, Read, Write};

// The system's EINTR: the call was interrupted before it moved anything.
pub const INTERRUPTED: i32 = 4;

// What the system answers to a call that failed.
const FAILED: isize = -1;

// Why a call moved nothing.
#[derive(Clone, Copy, PartialEq, Eq)]
pub enum Stopped {
    Interrupted,
    Failed { error: u32 },
}

// How many bytes were written of a text that was not written whole, and the number of the error.
#[derive(Clone, Copy, PartialEq, Eq)]
pub struct Unsent {
    pub count: usize,
    pub error: u32,
}

// How many bytes a call moved, of at most `most`, by what it answered and the error's number after it. The system's numbers of errors
// are above 0.
fn moved_by(answer: isize, error: i32, most: usize) -> Result<usize, Stopped>
    ensures { result ≡ came_of answer error most }
{
    match usize::try_from(answer) {
        Ok(n) => Ok(n.min(most)),
        Err(_) if error == INTERRUPTED => Err(Stopped::Interrupted),
        Err(_) => Err(Stopped::Failed {
            error: u32::try_from(error).unwrap_or(0),
        }),
    }
}

// The meaning of what a read into `room` answered, where `error` is the error's number after it: so many bytes, or none at the end of
// the input.
pub fn read_came(answer: isize, error: i32, room: &[u8]) -> Result<Option<usize>, Stopped>
    ensures { result ≡ got_of answer error (length room.now) }
{
    let n = moved_by(answer, error, room.len())?;
    if n == 0 {
        return Ok(None);
    }
    Ok(Some(n))
}

// The meaning of what a write of the bytes from `at` on answered: the place from which the writing goes on, or the number of the
// error. One that was interrupted goes on where it began.
pub fn write_came(answer: isize, error: i32, bytes: &[u8], at: usize) -> Result<usize, u32>
    requires { at ≤ length bytes.now }
    ensures { result ≡ moved_of answer error (length bytes.now) at }
{
    match moved_by(answer, error, bytes.len() - at) {
        Ok(n) => Ok(at + n),
        Err(Stopped::Interrupted) => Ok(at),
        Err(Stopped::Failed { error }) => Err(error),
    }
}

// The number of the system's error. Another error has none, and counts as the system's where it says that it was interrupted.
fn number_of(error: &io::Error) -> i32
    ensures { IfSome (raw_os_error error.now) (λ n. result ≡ n) }
{
    match error.raw_os_error() {
        Some(number) => number,
        None => number_of_kind(error.kind()),
    }
}

fn number_of_kind(kind: ErrorKind) -> i32
    ensures interrupted { kind ≡ ErrorKind.Interrupted → result ≡ pos 4 }
    ensures other { kind ≢ ErrorKind.Interrupted → result ≡ pos 0 }
{
    if kind == ErrorKind::Interrupted {
        INTERRUPTED
    } else {
        0
    }
}

// What std answers to a read, as the system said it: a count, or a failure and the error's number.
fn read_answered(answer: io::Result<usize>, room: &[u8]) -> Result<Option<usize>, Stopped>
    requires { IfOk answer (λ n. n ≤ length room.now) }
    ensures counted { IfOk answer (λ n. result ≡ got_of (pos n) (pos 0) (length room.now)) }
    ensures failed { IfErr answer (λ e. IfSome (raw_os_error e) (λ n. result ≡ got_of (negsuc 0) n (length room.now))) }
    ensures within { bytes_got result ≤ length room.now }
{
    match answer {
        Ok(n) => read_came(n as isize, 0, room),
        Err(error) => read_came(FAILED, number_of(&error), room),
    }
}

// One read.
fn read_once<R: Read>(from: &mut R, room: &mut [u8]) -> Result<Option<usize>, Stopped>
    ensures { bytes_got result ≤ length room.old }
{
    let answer = from.read(room);
    read_answered(answer, room)
}

// Whether a read is made again.
fn is_interrupted(got: Result<Option<usize>, Stopped>) -> bool
    ensures { result ≡ interrupted got }
{
    matches!(got, Err(Stopped::Interrupted))
}

// Reads some bytes. A read that was interrupted is made again. A proved loop has to end, so this one and the next count their turns,
// up to a number that no run reaches.
pub fn read_some<R: Read>(from: &mut R, room: &mut [u8]) -> Result<Option<usize>, Stopped>
    ensures { bytes_got result ≤ length room.old }
{
    let mut last = read_once(from, room);
    for _ in 0..u64::MAX {
        if !is_interrupted(last) {
            return last;
        }
        last = read_once(from, room);
    }
    last
}

// The same of a write of the bytes from `at` on. What a read and a write share is `moved_by`; what each is turned into differs.
fn write_answered(answer: io::Result<usize>, bytes: &[u8], at: usize) -> Result<usize, u32>
    requires at_inside { at ≤ length bytes.now }
    requires no_more { IfOk answer (λ n. n ≤ length bytes.now) }
    ensures counted { IfOk answer (λ n. result ≡ moved_of (pos n) (pos 0) (length bytes.now) at) }
    ensures failed { IfErr answer (λ e. IfSome (raw_os_error e) (λ n. result ≡ moved_of (negsuc 0) n (length bytes.now) at)) }
    ensures within { place_of at result ≤ length bytes.now }
{
    match answer {
        Ok(n) => write_came(n as isize, 0, bytes, at),
        Err(error) => write_came(FAILED, number_of(&error), bytes, at),
    }
}

// One write, of the bytes from `at` on.
fn write_once<W: Write>(to: &mut W, bytes: &[u8], at: usize) -> Result<usize, u32>
    requires { at ≤ length bytes.now }
    ensures { place_of at result ≤ length bytes.now }
{
    let answer = to.write(&bytes[at..]);
    write_answered(answer, bytes, at)
}

// Writes all of the bytes, and counts them: a write that moved a part, or none, goes on from where it stopped. Only a failure ends it
// before.
#[tactic(auto, unfolding(crate::specs::Came::place_of))]
pub fn send<W: Write>(to: &mut W, bytes: &[u8]) -> Result<usize, Unsent>
    ensures { MatchResult result (λ n. n ≡ length bytes.now) (λ e. e.count < length bytes.now) }
{
    let mut at: usize = 0;
    for _ in 0..u64::MAX {
        if at == bytes.len() {
            break;
        }
        at = write_once(to, bytes, at).map_err(|error| Unsent { count: at, error })?;
    }
    if at == bytes.len() {
        return Ok(at);
    }
    Err(Unsent {
        count: at,
        error: 0,
    })
}

// How many lines end among the bytes.
pub fn newlines_in(bytes: &[u8]) -> usize
    ensures { (result ≡ newlines bytes.now) × (result ≤ length bytes.now) }
{
    bytes.iter().filter(|b| **b == b'\n').count()
}
