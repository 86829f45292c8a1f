// A whole session from bytes to bytes, with its input in pieces and its replies through a room of any size.
ghost use Rattle.std.specs.Prelude.{◌<◌, ◌≤◌, length};

use driver::Session;

// Where a run stands: the session with what it holds and its scratch, and how many bytes of text it has said.
#[derive(Drop)]
struct Run {
    session: Session,
    held: [u8; 601],
    scratch: [u8; 32768],
    at: usize,
}

// The part goes behind the text said so far. Where there is no place for it, the text counts as full.
pub(crate) fn append(text: &mut [u8], at: usize, part: &[u8]) -> usize
    requires { at ≤ length text.old }
    ensures { result ≤ length text.old }
{
    if text.len() - at < part.len() {
        return text.len();
    }
    moves::put(&mut text[at..], part);
    at + part.len()
}

impl Run {
    // A run begins with the header.
    fn begin(text: &mut [u8]) -> Run
        requires { 18 ≤ length text.old }
        ensures { result.at ≤ length text.old }
    {
        Run {
            session: driver::open(),
            held: [0; 601],
            scratch: [165; 32768],
            at: replies::put_header(text),
        }
    }

    // A piece of input: it is fed, and the replies taken from the room, until all of it has been taken.
    fn feed(&mut self, input: &[u8], room: &mut [u8], text: &mut [u8])
        requires { (600 ≤ length room.old) × (self.old.at ≤ length text.old) }
        ensures { self.new.at ≤ length text.old }
    {
        let mut from: usize = 0;
        while from < input.len() {
            let fed = driver::feed(
                &mut self.session,
                &mut self.held,
                &mut self.scratch,
                &input[from..],
                room,
            );
            self.at = append(text, self.at, &room[..fed.written]);
            from += fed.used;
        }
    }

    // The end of the input; the length of the whole text.
    fn end(&mut self, room: &mut [u8], text: &mut [u8]) -> usize
        requires { (600 ≤ length room.old) × (self.old.at ≤ length text.old) }
        ensures { result ≤ length text.old }
    {
        let n = driver::finish(self.session, &self.held, &mut self.scratch, room).unwrap_or(0);
        append(text, self.at, &room[..n])
    }
}

// A whole run with the input in two pieces, the first of `cut` bytes; the length of its text.
fn run_cut(input: &[u8], cut: usize, room: &mut [u8], text: &mut [u8]) -> usize
    requires { (cut ≤ length input.now) × (600 ≤ length room.old) × (18 ≤ length text.old) }
    ensures { result ≤ length text.old }
{
    let mut run = Run::begin(text);
    run.feed(&input[..cut], room, text);
    run.feed(&input[cut..], room, text);
    run.end(room, text)
}

// A whole run with the input byte by byte.
fn run_bytes(input: &[u8], room: &mut [u8], text: &mut [u8]) -> usize
    requires { (600 ≤ length room.old) × (18 ≤ length text.old) }
    ensures { result ≤ length text.old }
{
    let mut run = Run::begin(text);
    for byte in input.chunks(1) {
        run.feed(byte, room, text);
    }
    run.end(room, text)
}

// The input in one piece, with much room; the length of the text.
pub(crate) fn run_whole(input: &[u8], text: &mut [u8]) -> usize
    requires { 18 ≤ length text.old }
    ensures { result ≤ length text.old }
{
    let mut room = [0u8; 65536];
    run_cut(input, 0, &mut room, text)
}

// How far apart the places are at which an input is cut.
fn cut_step(size: usize) -> usize
    ensures { (0 < result) × (result ≤ 101) }
{
    if size <= 3000 { 1 } else { 101 }
}

// An input here is far shorter than the sum's range.
pub(crate) fn cut_count(size: usize) -> usize {
    (size / cut_step(size)).wrapping_add(1)
}

fn is_same_cut(input: &[u8], cut: usize, want: &[u8], room: &mut [u8], text: &mut [u8]) -> bool
    requires { (cut ≤ length input.now) × (600 ≤ length room.old) × (18 ≤ length text.old) }
{
    let n = run_cut(input, cut, room, text);
    text[..n] == want[..]
}

// The first place, by steps, at which a cut makes the output another.
pub(crate) fn first_bad_cut(input: &[u8], want: &[u8]) -> Option<usize> {
    let mut room = [0u8; 65536];
    let mut text = [0u8; 65536];
    let step = cut_step(input.len());
    for cut in (0..=input.len()).step_by(step) {
        if !is_same_cut(input, cut, want, &mut room, &mut text) {
            return Some(cut);
        }
    }
    None
}

pub(crate) fn is_same_by_bytes(input: &[u8], want: &[u8]) -> bool {
    let mut room = [0u8; 600];
    let mut text = [0u8; 65536];
    let n = run_bytes(input, &mut room, &mut text);
    text[..n] == want[..]
}

fn is_same_in_room(input: &[u8], want: &[u8], size: usize, text: &mut [u8]) -> bool
    requires { (600 ≤ size) × (size ≤ 1300) × (18 ≤ length text.old) }
{
    let mut room = [0u8; 1300];
    is_same_cut(input, 0, want, &mut room[..size], text)
}

// The smallest room, by steps of a hundred from 600 to 1300, that makes the output another.
pub(crate) fn first_bad_room(input: &[u8], want: &[u8]) -> Option<usize> {
    let mut text = [0u8; 65536];
    for size in (600..=1300).step_by(100) {
        if !is_same_in_room(input, want, size, &mut text) {
            return Some(size);
        }
    }
    None
}
