// The limits of arguments, of lengths, and of a session's frames.
#![tactic(auto)]

ghost use Rattle.std.specs.Prelude.{min, ◌<◌, ◌≡◌, ◌≤◌, eqb, leb, MatchResult};
ghost use Rattle.lists.specs.Choice.{both};
ghost use Rattle.model.specs.Arguments.{good_length};
ghost use Rattle.model.specs.declared.Answer.TheVariants.{Limit};
ghost use Rattle.model.specs.declared.Kind.TheVariants.{Flag, Key, Register};

use model::{Answer, Kind};

// A fetch or store moves 1 to 256 bytes.
#[tactic(auto, unfolding(lists::specs::Choice::both))]
pub fn good_length(n: usize) -> bool
    ensures { result ≡ good_length n }
{
    (1..=256).contains(&n)
}

// How many bytes of the buffer a FETCH or a STORE has: its length, 257 at most.
pub fn buffer_length(size: u32) -> usize
    ensures { result ≡ min size 257 }
{
    size.min(257) as usize
}

// A session has 1 to 8 frames.
#[tactic(auto, unfolding(lists::specs::Choice::both))]
pub fn good_frames(count: u32) -> bool
    ensures { result ≡ both (leb 1 count) (leb count 8) }
{
    (1..=8).contains(&count)
}

// The argument x at a place of a call, where it is below a bound.
fn below(bound: u32, x: u32, kind: Kind, place: u8) -> Result<u8, Answer>
    requires { bound ≤ 256 }
    ensures { MatchResult result (λ n. (n ≡ x) × (x < bound)) (λ a. (a ≡ Limit kind place) × (bound ≤ x)) }
{
    if x < bound {
        return Ok(x as u8);
    }
    Err(Answer::Limit { kind, place })
}

// A CPU has 16 registers.
pub fn register(x: u32, place: u8) -> Result<u8, Answer>
    ensures { MatchResult result (λ r. (r ≡ x) × (x < 16)) (λ a. (a ≡ Limit Register place) × (16 ≤ x)) }
{
    below(16, x, Kind::Register, place)
}

// Keys are 0 to 15.
pub fn key(x: u32, place: u8) -> Result<u8, Answer>
    ensures { MatchResult result (λ k. (k ≡ x) × (x < 16)) (λ a. (a ≡ Limit Key place) × (16 ≤ x)) }
{
    below(16, x, Kind::Key, place)
}

// A flag is 0 or 1.
pub fn flag(x: u32, place: u8) -> Result<bool, Answer>
    ensures { MatchResult result (λ b. (b ≡ eqb x 1) × (x < 2)) (λ a. (a ≡ Limit Flag place) × (2 ≤ x)) }
{
    let x = below(2, x, Kind::Flag, place)?;
    Ok(x == 1)
}
