// Work on lines that come in pieces, whichever it is.
#![tactic(auto)]

ghost use Rattle.std.specs.Prelude.{List, ℕ, ◌≡◌, ◌≤◌, true, length};
ghost use Rattle.feeds.specs.Fed.{FedTo, FinishedTo};
ghost use Rattle.works.specs.Fed.{feed_by};

use driver::Session;
use feeds::Fed;
use rewriting::Rewriting;

// What is done with lines, and where it stands: a session answers them, or they are written again.
#[derive(Clone, Copy)]
pub enum Work {
    Answering(Session),
    Rewriting(Rewriting),
}

// The number of the next line: of the input where each line is answered, else of the output.
pub fn line(work: &Work) -> u64
    ensures { (held scratch : List ℕ) → result ≡ (feed_by work.now held scratch).line }
{
    match work {
        Work::Answering(session) => session.work.line,
        Work::Rewriting(rewriting) => rewriting.work.line,
    }
}

// A piece of input, as far as there is room for replies.
pub fn feed(
    work: &mut Work,
    held: &mut [u8; 601],
    scratch: &mut [u8],
    input: &[u8],
    out: &mut [u8],
) -> Fed
    ensures { FedTo (feed_by work.old held.old scratch.old) input.now out.old result.used result.written (feed_by work.new held.new scratch.new) out.new }
{
    match work {
        Work::Answering(session) => driver::feed(session, held, scratch, input, out),
        Work::Rewriting(rewriting) => rewriting::feed(rewriting, held, input, out),
    }
}

// The end of the input. How many bytes were written.
pub fn finish(work: Work, held: &[u8; 601], scratch: &mut [u8], out: &mut [u8]) -> usize
    requires { 600 ≤ length out.old }
    ensures { FinishedTo (feed_by work held.now scratch.old) scratch.old out.old true result scratch.new out.new }
{
    match work {
        Work::Answering(session) => driver::finish(session, held, scratch, out).unwrap(),
        Work::Rewriting(rewriting) => rewriting::finish(rewriting, held, out).unwrap(),
    }
}
