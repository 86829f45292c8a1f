// Work on lines from a reader to a writer: a session, or lines written again. What is decided between two calls of the system
// has a promise, and so has the whole: which bytes were read and written no promise can say, but how many, and that the work went
// over all of them.
#![tactic(auto)]

ghost use Rattle.std.specs.Prelude.{◌≡◌, ℕ, ◌+◌, ◌^◌, ◌<◌, List, [], length, None, Ok, Err};
ghost use Rattle.feeds.specs.Feed.{new_feed};
ghost use Rattle.relay.specs.Spoken.{counted, replied_to, Spoken};
ghost use Rattle.relay.specs.Ran.{PieceTo, Ran, how_of, line_of, Stops, RunTo, RewroteTo};
ghost use Rattle.relay.specs.Relaying.{standing};

use descriptors::Stopped;
use std::io::{Read, Write};
use works::Work;

// Why the work ended before the end of the input: a read or a write failed with the error of that number.
#[derive(Clone, Copy, PartialEq, Eq)]
pub enum Failure {
    Reading { error: u32 },
    Writing { error: u32 },
}

// How the work ended. `line` is the last line whose reply was written whole, 0 before the first; where lines are written again they
// are counted as they are written. `taken` counts the bytes read, and `written` those written, a session's header left out.
#[derive(Clone, Copy, PartialEq, Eq)]
pub struct Ending {
    pub how: Result<(), Failure>,
    pub line: u64,
    pub taken: u64,
    pub written: u64,
}

// What ended the work before the end of the input, and the last line whose reply is whole.
#[derive(Clone, Copy)]
struct Halt {
    failure: Failure,
    line: u64,
}

// The last line whose reply is whole, where `line` is the first that is answered in the text.
fn replied(line: u64, text: &[u8]) -> u64
    ensures { result ≡ replied_to line text.now }
{
    let before = line.wrapping_sub(1);
    before.wrapping_add(descriptors::newlines_in(text) as u64)
}

// The text is written, and what is written of it counted. `line` is the first line that is answered in it.
fn say<W: Write>(to: &mut W, text: &[u8], line: u64, written: &mut u64) -> Result<(), Halt>
    ensures { Spoken text.now line written.old result written.new }
{
    match descriptors::send(to, text) {
        Ok(count) => {
            *written = written.wrapping_add(count as u64);
            Ok(())
        }
        Err(unsent) => {
            *written = written.wrapping_add(unsent.count as u64);
            Err(Halt {
                failure: Failure::Writing {
                    error: unsent.error,
                },
                line: replied(line, &text[..unsent.count]),
            })
        }
    }
}

// Work on lines: where it stands, with the bytes that it holds of a line; room for what is said; and how many bytes were read and
// written by now.
#[derive(Drop)]
struct Relaying {
    work: Work,
    held: [u8; 601],
    out: [u8; 65536],
    taken: u64,
    written: u64,
}

impl Relaying {
    fn new(work: Work) -> Relaying
        ensures { (result.work ≡ work) × (result.taken ≡ 0) × (result.written ≡ 0) }
    {
        Relaying {
            work,
            held: [0; 601],
            out: [0; 65536],
            taken: 0,
            written: 0,
        }
    }

    // The bytes of one read: they are fed, and the replies written, as often as the replies fill the room for them.
    fn answer_piece<W: Write>(
        &mut self,
        to: &mut W,
        scratch: &mut [u8],
        input: &[u8],
    ) -> Result<(), Halt>
        requires { self.old.written < 2 ^ 64 }
        ensures piece { PieceTo (standing self.old scratch.old) input.now self.old.written result self.new.written (standing self.new scratch.new) }
        ensures taken { self.new.taken ≡ self.old.taken }
    {
        let mut from: usize = 0;
        // A feed takes as much as it has room for: no iterator knows the step.
        while from < input.len() {
            let line = works::line(&self.work);
            let fed = works::feed(
                &mut self.work,
                &mut self.held,
                scratch,
                &input[from..],
                &mut self.out,
            );
            say(to, &self.out[..fed.written], line, &mut self.written)?;
            from += fed.used;
        }
        Ok(())
    }

    // The end of the input: a last line without a newline ends too. The value is the last line whose reply is whole.
    fn finish<W: Write>(&mut self, to: &mut W, scratch: &mut [u8]) -> Result<u64, Halt>
        requires { self.old.taken < 2 ^ 64 }
        ensures ran { Ran (standing self.old scratch.old) self.old.taken self.old.written (how_of result) (line_of result) self.new.taken self.new.written scratch.new }
        ensures stops { Stops (Ok None) (how_of result) }
    {
        let line = works::line(&self.work);
        let n = works::finish(self.work, &self.held, scratch, &mut self.out);
        say(to, &self.out[..n], line, &mut self.written)?;
        Ok(replied(line, &self.out[..n]))
    }

    // A read that failed: what is held of a line is no line.
    fn halt(&self, stopped: Stopped) -> Halt
        ensures line { (scratch : List ℕ) → result.line ≡ replied_to (standing self.now scratch).line [] }
        ensures stops { Stops (Err stopped) (Err result.failure) }
    {
        let error = match stopped {
            Stopped::Interrupted => descriptors::INTERRUPTED as u32,
            Stopped::Failed { error } => error,
        };
        Halt {
            failure: Failure::Reading { error },
            line: replied(works::line(&self.work), &[]),
        }
    }

    // A read that brought no bytes: it was at the end of the input, or it failed.
    fn stop<W: Write>(
        &mut self,
        to: &mut W,
        scratch: &mut [u8],
        got: Result<Option<usize>, Stopped>,
    ) -> Result<u64, Halt>
        requires { (self.old.taken < 2 ^ 64) × (self.old.written < 2 ^ 64) }
        ensures ran { Ran (standing self.old scratch.old) self.old.taken self.old.written (how_of result) (line_of result) self.new.taken self.new.written scratch.new }
        ensures stops { Stops got (how_of result) }
    {
        match got {
            Ok(None) => self.finish(to, scratch),
            Ok(Some(_)) => Err(self.halt(Stopped::Failed { error: 0 })),
            Err(stopped) => Err(self.halt(stopped)),
        }
    }

    // Reads to the end of the input. A proved loop has to end, so this one counts its reads, up to a number that no run reaches.
    fn answer_input<R: Read, W: Write>(
        &mut self,
        from: &mut R,
        to: &mut W,
        scratch: &mut [u8],
        room: &mut [u8],
    ) -> Result<u64, Halt>
        requires { (self.old.taken ≡ 0) × (self.old.written ≡ 0) }
        ensures { Ran (standing self.old scratch.old) 0 0 (how_of result) (line_of result) self.new.taken self.new.written scratch.new }
    {
        for _ in 0..u64::MAX {
            match descriptors::read_some(from, room) {
                Ok(Some(count)) => {
                    self.taken = self.taken.wrapping_add(count as u64);
                    self.answer_piece(to, scratch, &room[..count])?;
                }
                got => return self.stop(to, scratch, got),
            }
        }
        self.stop(to, scratch, Err(Stopped::Interrupted))
    }

    // How all of it ended.
    fn run<R: Read, W: Write>(
        &mut self,
        from: &mut R,
        to: &mut W,
        scratch: &mut [u8],
        room: &mut [u8],
    ) -> Ending
        requires { (self.old.taken ≡ 0) × (self.old.written ≡ 0) }
        ensures { Ran (standing self.old scratch.old) 0 0 result.how result.line result.taken result.written scratch.new }
    {
        let (how, line) = match self.answer_input(from, to, scratch, room) {
            Ok(line) => (Ok(()), line),
            Err(halt) => (Err(halt.failure), halt.line),
        };
        Ending {
            how,
            line,
            taken: self.taken,
            written: self.written,
        }
    }
}

// A whole session: a header and the replies go to `to`, for the requests that come from `from`. One read brings at most as many
// bytes as `room` has. The memory that it takes is the same however long the input is.
pub fn run<R: Read, W: Write>(
    from: &mut R,
    to: &mut W,
    scratch: &mut [u8; 32768],
    room: &mut [u8],
) -> Ending
    ensures { RunTo (new_feed scratch.old) result.how result.line result.taken result.written scratch.new }
{
    let mut relaying = Relaying::new(Work::Answering(driver::open()));
    let n = replies::put_header(&mut relaying.out);
    match descriptors::send(to, &relaying.out[..n]) {
        Ok(_) => relaying.run(from, to, scratch, room),
        Err(unsent) => Ending {
            how: Err(Failure::Writing {
                error: unsent.error,
            }),
            line: 0,
            taken: 0,
            written: 0,
        },
    }
}

// Lines written again: of those that come from `from`, every one that the reader takes goes to `to` as the writer writes it. There
// is no header.
pub fn rewrite<R: Read, W: Write>(from: &mut R, to: &mut W, room: &mut [u8]) -> Ending
    ensures { RewroteTo result.how result.line result.taken result.written }
{
    let mut relaying = Relaying::new(Work::Rewriting(rewriting::open()));
    relaying.run(from, to, &mut [], room)
}
