// Lines written again, over input that comes in pieces: every line that the reader takes, as the writer writes it, each with a
// newline, and nothing for the others. No public function asks anything of its caller.
#![tactic(auto)]

ghost use Rattle.std.specs.Prelude.{◌≡◌, [], ◌+◌, ◌≤◌, true, false, length, refl, MatchOption};
ghost use Rattle.model.specs.Session.{new_session};
ghost use Rattle.feeds.specs.Feed.{rewrites};
ghost use Rattle.rewriting.specs.Fed.{FedBy, FinishedBy, opened};

use feeds::{Fed, Feeder, LineWork};
use model::Answer;

// Each line is written again: the number of the next line that is written.
#[derive(Clone, Copy)]
pub struct Rewriter {
    pub line: u64,
}

// It has no session, so that any would do.
impl LineWork for Rewriter {
    ghost kind = { rewrites };

    ghost session = { λ r m. new_session m };

    ghost number = { λ r. r.line };

    ghost IsReady = { λ r m. Unit {0} };

    fn begin(&mut self, _scratch: &[u8]) {}

    fn take(&mut self, _scratch: &mut [u8], line: &[u8], out: &mut [u8], at: usize) -> usize {
        let mut buffer = [0u8; 257];
        let request = lines::read_line(line, &mut buffer);
        let Answer::Done { value: length } = writing::write(request, &buffer, &mut out[at..]) else {
            return at;
        };
        let end = at + length as usize;
        out[end] = b'\n';
        self.line = self.line.wrapping_add(1);
        end + 1
    }

    ghost lent = { λ r m. refl };
}

// What stands between two pieces of input.
pub type Rewriting = Feeder<Rewriter>;

// Before the first line.
pub fn open() -> Rewriting
    ensures { result ≡ opened }
{
    Feeder {
        work: Rewriter { line: 1 },
        have: 0,
    }
}

// A piece of input, as far as there is room for lines.
pub fn feed(rewriting: &mut Rewriting, held: &mut [u8; 601], input: &[u8], out: &mut [u8]) -> Fed
    ensures fed { FedBy rewriting.old held.old input.now out.old result.used result.written rewriting.new held.new out.new }
    ensures most { rewriting.new.have ≤ 601 }
{
    rewriting.feed(held, &mut [], input, out)
}

// The end of the input: a line that has a byte has ended too. How many bytes were written; none are where there is no room for a
// line, and then nothing has been done.
pub fn finish(rewriting: Rewriting, held: &[u8; 601], out: &mut [u8]) -> Option<usize>
    ensures { MatchOption result (FinishedBy rewriting held.now out.old false 0 out.new) (λ n. FinishedBy rewriting held.now out.old true n out.new) }
{
    rewriting.finish(held, &mut [], out)
}
