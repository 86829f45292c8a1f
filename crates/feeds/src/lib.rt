// Lines out of input that comes in pieces, for any work that is done line by line: a piece gone over, and the end of the input.
#![tactic(auto)]

ghost use Rattle.std.specs.Prelude.{◌≤◌, ◌<◌, ◌+◌, ◌≡◌, ℕ, List, true, false, length, MatchOption};
ghost use Rattle.model.specs.Session.{Session};
ghost use Rattle.digits.specs.Wrote.{Wrote};
ghost use Rattle.feeds.specs.Feed.{Work, newline_from, whole_line, session_after, saying_to, number_after, feed_of, ended, reply_to};
ghost use Rattle.feeds.specs.Fed.{FedTo, FinishedTo};

// What became of a piece of input: how many of its bytes were taken, and how many bytes were written.
#[derive(Clone, Copy)]
pub struct Fed {
    pub used: usize,
    pub written: usize,
}

// The place of the first newline from `from` on, where there is one.
pub fn line_end(input: &[u8], from: usize) -> Option<usize>
    requires { from ≤ length input.now }
    ensures { MatchOption result (newline_from input.now from ≡ length input.now) (λ e. (e ≡ newline_from input.now from) × (from ≤ e) × (e < length input.now)) }
{
    let end = moves::find(input, from, b'\n');
    if end == input.len() { None } else { Some(end) }
}

// What is done with each line.
pub trait LineWork {
    // which work it is, the session that it stands in with the scratch that is lent, and the number of the next line
    ghost kind: { Work };

    ghost session: { Self → List ℕ → Session };

    ghost number: { Self → ℕ };

    // what is found out for a piece of input, and holds at each line of it
    ghost IsReady: { Self → List ℕ → Type 0 };

    // A piece of input begins.
    fn begin(&mut self, scratch: &[u8])
        ensures ready { IsReady self.new scratch.now }
        ensures session { session self.new scratch.now ≡ session self.old scratch.now }
        ensures number { number self.new ≡ number self.old };

    // A line has ended. What is said to it is written from `at` on; the place after it.
    fn take(&mut self, scratch: &mut [u8], line: &[u8], out: &mut [u8], at: usize) -> usize
        requires ready { IsReady self.old scratch.old }
        requires room { at + 600 ≤ length out.old }
        ensures ready { IsReady self.new scratch.new }
        ensures session { session self.new scratch.new ≡ session_after kind (session self.old scratch.old) line.now }
        ensures number { number self.new ≡ number_after kind (number self.old) line.now }
        ensures said { Wrote out.old at (saying_to kind (session self.old scratch.old) (number self.old) line.now) out.new result };

    // the scratch of the session is what is lent
    ghost lent: { (w : Self) (m : List ℕ) → (session w m).scratch ≡ m };
}

// Where a work stands between two pieces of input, and how many bytes are held of a line that has not ended yet.
#[derive(Clone, Copy)]
pub struct Feeder<W> {
    pub work: W,
    pub have: usize,
}

impl<W: LineWork + Copy> Feeder<W> {
    // A line has ended whose first bytes may be held; one that lies whole in the input is taken where it stands.
    fn take_line(
        &mut self,
        held: &mut [u8; 601],
        scratch: &mut [u8],
        rest: &[u8],
        out: &mut [u8],
        at: usize,
    ) -> usize
        requires ready { W.IsReady self.old.work scratch.old }
        requires room { at + 600 ≤ length out.old }
        ensures ready { W.IsReady self.new.work scratch.new }
        ensures emptied { self.new.have ≡ 0 }
        ensures session { W.session self.new.work scratch.new ≡ session_after W.kind (W.session self.old.work scratch.old) (whole_line held.old self.old.have rest.now) }
        ensures number { W.number self.new.work ≡ number_after W.kind (W.number self.old.work) (whole_line held.old self.old.have rest.now) }
        ensures said { Wrote out.old at (saying_to W.kind (W.session self.old.work scratch.old) (W.number self.old.work) (whole_line held.old self.old.have rest.now)) out.new result }
    {
        if self.have == 0 {
            return self.work.take(scratch, rest, out, at);
        }
        let n = held::hold(held, self.have, rest);
        self.have = 0;
        self.work.take(scratch, &held[..n], out, at)
    }

    // A piece of input, as far as there is room for what is said to its lines. The places in it are counted, since the promise speaks of
    // them: slices cut from the front would want the same sums.
    pub fn feed(
        &mut self,
        held: &mut [u8; 601],
        scratch: &mut [u8],
        input: &[u8],
        out: &mut [u8],
    ) -> Fed
        ensures fed { FedTo (feed_of W.kind W.session W.number self.old held.old scratch.old) input.now out.old result.used result.written (feed_of W.kind W.session W.number self.new held.new scratch.new) out.new }
        ensures most { self.new.have ≤ 601 }
    {
        self.have = held::kept(held, self.have);
        self.work.begin(scratch);
        let mut used = 0;
        let mut written = 0;
        while used < input.len() {
            if out.len() - written < 600 {
                return Fed { used, written };
            }
            let Some(end) = line_end(input, used) else {
                self.have = held::hold(held, self.have, &input[used..]);
                return Fed {
                    used: input.len(),
                    written,
                };
            };
            written = self.take_line(held, scratch, &input[used..end], out, written);
            used = end + 1;
        }
        Fed { used, written }
    }

    // A line that is held at the end of the input ends as by a newline.
    fn last_line(&mut self, held: &[u8; 601], scratch: &mut [u8], out: &mut [u8]) -> usize
        requires { 600 ≤ length out.old }
        ensures said { Wrote out.old 0 (reply_to (feed_of W.kind W.session W.number self.old held.now scratch.old)) out.new result }
        ensures scratch { scratch.new ≡ (ended (feed_of W.kind W.session W.number self.old held.now scratch.old)).session.scratch }
    {
        let mut line = *held;
        self.feed(&mut line, scratch, b"\n", out).written
    }

    // The end of the input: a line that has a byte has ended too. How many bytes were written; none are where there is no room for what
    // is said to it, and then nothing has been done.
    pub fn finish(mut self, held: &[u8; 601], scratch: &mut [u8], out: &mut [u8]) -> Option<usize>
        ensures { MatchOption result (FinishedTo (feed_of W.kind W.session W.number self held.now scratch.old) scratch.old out.old false 0 scratch.new out.new) (λ n. FinishedTo (feed_of W.kind W.session W.number self held.now scratch.old) scratch.old out.old true n scratch.new out.new) }
    {
        if out.len() < 600 {
            return None;
        }
        if self.have == 0 {
            return Some(0);
        }
        Some(self.last_line(held, scratch, out))
    }
}
