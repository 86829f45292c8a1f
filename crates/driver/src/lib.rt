// A session over input that comes in pieces. No public function asks anything of its caller: soundness is tested once for a piece,
// and then the inner calls are used for every line of it.
#![tactic(auto)]

ghost use Rattle.std.specs.Prelude.{◌≡◌, ◌≤◌, true, false, length, refl, MatchOption};
ghost use Rattle.ready.specs.Usable.{usable};
ghost use Rattle.turns.specs.Taken.{session_of};
ghost use Rattle.feeds.specs.Feed.{answers};
ghost use Rattle.feeds.specs.Fed.{FedTo, FinishedTo};
ghost use Rattle.driver.specs.Fed.{feed_of, opened};

use feeds::{Fed, Feeder, LineWork};
use turns::Host;

// Each line is answered: where the host stands, and the number of the next line. Whether check 1 holds is found anew for each piece
// of input, with the scratch that is lent for it.
#[derive(Clone, Copy)]
pub struct Answering {
    pub host: Host,
    pub line: u64,
}

impl LineWork for Answering {
    ghost kind = { answers };

    ghost session = { λ a m. session_of a.host m };

    ghost number = { λ a. a.line };

    ghost IsReady = { λ a m. a.host.ready ≡ usable a.host.state (length m) };

    fn begin(&mut self, scratch: &[u8]) {
        self.host.ready = ready::is_usable(&self.host.state, scratch.len());
    }

    fn take(&mut self, scratch: &mut [u8], line: &[u8], out: &mut [u8], at: usize) -> usize {
        let mut buffer = [0u8; 257];
        let request = lines::read_line(line, &mut buffer);
        let outcome = turns::turn(&mut self.host, scratch, request, &mut buffer);
        let end = turns::tell(out, at, self.line, outcome, &buffer);
        self.line = self.line.wrapping_add(1);
        end
    }

    ghost lent = { λ a m. refl };
}

// What stands between two pieces of input.
pub type Session = Feeder<Answering>;

// Before the first line.
pub fn open() -> Session
    ensures { result ≡ opened }
{
    Feeder {
        work: Answering {
            host: Host {
                begun: false,
                ready: false,
                state: fresh::empty(0, 0),
            },
            line: 1,
        },
        have: 0,
    }
}

// A piece of input, as far as there is room for replies.
pub fn feed(
    session: &mut Session,
    held: &mut [u8; 601],
    scratch: &mut [u8],
    input: &[u8],
    out: &mut [u8],
) -> Fed
    ensures fed { FedTo (feed_of session.old held.old scratch.old) input.now out.old result.used result.written (feed_of session.new held.new scratch.new) out.new }
    ensures most { session.new.have ≤ 601 }
{
    session.feed(held, scratch, input, out)
}

// The end of the input: a line that has a byte is answered. How many bytes were written; none are where there is no room for a
// reply, and then nothing has been done.
pub fn finish(
    session: Session,
    held: &[u8; 601],
    scratch: &mut [u8],
    out: &mut [u8],
) -> Option<usize>
    ensures { MatchOption result (FinishedTo (feed_of session held.now scratch.old) scratch.old out.old false 0 scratch.new out.new) (λ n. FinishedTo (feed_of session held.now scratch.old) scratch.old out.old true n scratch.new out.new) }
{
    session.finish(held, scratch, out)
}
