// One request of a session, with the buffer that the reader has filled for it. What becomes of it is a value, its outcome, of
// which the reply is made.
#![tactic(auto)]

ghost use Rattle.std.specs.Prelude.{◌+◌, ◌≤◌, ◌≡◌, length, drop};
ghost use Rattle.model.specs.Classes.{class_of};
ghost use Rattle.model.specs.Parts.{data_in};
ghost use Rattle.model.specs.Session.{line_text, request_turn};
ghost use Rattle.model.specs.declared.Request.TheVariants.{Frames, Call as Asked};
ghost use Rattle.ready.specs.Usable.{usable};
ghost use Rattle.digits.specs.Wrote.{Wrote};
ghost use Rattle.turns.specs.Taken.{Prepared, buffer_length, outcome_of, session_of, Taken};
ghost use Rattle.turns.specs.Told.{AnsweredTo};

use digits::Text;
use model::{Answer, Call, Kind, Operation, Request, State};
use sound::Sound;

// What became of a line: what it asked for, its answer, and how many bytes of its buffer are those that it moved.
#[derive(Clone, Copy)]
pub struct Outcome {
    pub request: Request,
    pub answer: Answer,
    pub moved: usize,
}

// What stands between two lines: whether a FRAMES has been done, whether check 1 holds, and the tables. These are there before FRAMES
// too, as in the model's Session, so that `begun` stands beside them.
#[derive(Clone, Copy)]
pub struct Host {
    pub begun: bool,
    pub ready: bool,
    pub state: State,
}

// How many bytes of the buffer are a call's. Two arms are alike, since the proof goes call by call.
fn buffer_length(operation: Operation, size: u32) -> usize
    ensures { (result ≡ buffer_length (class_of operation).moves size) × (result ≤ 257) }
{
    match operation {
        Operation::Fetch { .. } => limits::buffer_length(size),
        Operation::Store { .. } => limits::buffer_length(size),
        _ => 0,
    }
}

// No byte was moved.
fn told(request: Request, answer: Answer) -> Outcome
    ensures { result ≡ record { request = request; answer = answer; moved = 0 } }
{
    Outcome {
        request,
        answer,
        moved: 0,
    }
}

// A call: it is carried out where a FRAMES has been done and check 1 holds.
fn carry(
    host: &mut Host,
    scratch: &mut [u8],
    request: Request,
    call: Call,
    size: u32,
    buffer: &mut [u8],
) -> Outcome
    requires asked { request ≡ Asked call size }
    requires prepared { Prepared request buffer.old }
    requires known { host.old.ready ≡ usable host.old.state (length scratch.old) }
    ensures taken { Taken (request_turn (session_of host.old scratch.old) request (data_in request buffer.old)) result buffer.new host.new scratch.new }
    ensures seen { AnsweredTo host.old request scratch.old buffer.old result scratch.new buffer.new }
    ensures beyond { drop result.moved buffer.new ≡ drop result.moved buffer.old }
    ensures few { result.moved ≤ 257 }
{
    if !host.begun {
        return told(request, Answer::LineNotRead);
    }
    let moved = buffer_length(call.operation, size);
    if !host.ready {
        return Outcome {
            request,
            answer: Answer::Unsound,
            moved,
        };
    }
    let room = host.state.frames as usize * 4096;
    let answer = deciding::serve(
        &mut Sound {
            state: &mut host.state,
        },
        &mut scratch[..room],
        &call,
        &mut buffer[..moved],
    );
    Outcome {
        request,
        answer,
        moved,
    }
}

// FRAMES: done once, for 1 to 8 frames.
fn frames(host: &mut Host, scratch: &[u8], request: Request, count: u32, buffer: &[u8]) -> Outcome
    requires asked { request ≡ Frames count }
    requires known { host.old.ready ≡ usable host.old.state (length scratch.now) }
    ensures taken { Taken (request_turn (session_of host.old scratch.now) request (data_in request buffer.now)) result buffer.now host.new scratch.now }
    ensures few { result.moved ≤ 257 }
{
    if host.begun {
        return told(request, Answer::LineNotRead);
    }
    if !limits::good_frames(count) {
        return told(
            request,
            Answer::Limit {
                kind: Kind::Frames,
                place: 1,
            },
        );
    }
    host.state = fresh::empty(count, 1);
    host.begun = true;
    host.ready = ready::is_usable(&host.state, scratch.len());
    told(request, Answer::Done { value: 0 })
}

// A request is carried out, and what stands between lines is as after it. The bytes of the buffer behind those that it moved stay.
// What becomes of one that does not ask for whole tables hangs on what it sees of them alone.
pub fn turn(host: &mut Host, scratch: &mut [u8], request: Request, buffer: &mut [u8]) -> Outcome
    requires prepared { Prepared request buffer.old }
    requires known { host.old.ready ≡ usable host.old.state (length scratch.old) }
    ensures taken { Taken (request_turn (session_of host.old scratch.old) request (data_in request buffer.old)) result buffer.new host.new scratch.new }
    ensures seen { AnsweredTo host.old request scratch.old buffer.old result scratch.new buffer.new }
    ensures beyond { drop result.moved buffer.new ≡ drop result.moved buffer.old }
    ensures few { result.moved ≤ 257 }
{
    match request {
        Request::Frames { frames: count } => frames(host, scratch, request, count, buffer),
        Request::Call { call, length: size } => carry(host, scratch, request, call, size, buffer),
        Request::NotRead => told(request, Answer::LineNotRead),
    }
}

// The reply, made of a line's outcome and its buffer.
pub fn tell(out: &mut [u8], at: usize, number: u64, outcome: Outcome, buffer: &[u8]) -> usize
    requires { (at + 600 ≤ length out.old) × (outcome.moved ≤ 257) × (257 ≤ length buffer.now) }
    ensures { Wrote out.old at (line_text number (outcome_of outcome buffer.now)) out.new result }
{
    let mut text = Text { out, at };
    let moved = &buffer[..outcome.moved];
    replies::put_line(&mut text, number, &outcome.request, outcome.answer, moved);
    text.at
}
