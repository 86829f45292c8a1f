// From a register to a space and a right: the token used, and host access-register translation.
#![tactic(auto)]

ghost use Rattle.std.specs.Prelude.{◌≤◌, ◌<◌, ◌≡◌};
ghost use Rattle.translation.specs.Translated.{token_place, translated_by};
ghost use Rattle.model.specs.Tokens.{token_used};
ghost use Rattle.model.specs.Translation.{through_standing};

use model::{Answer, Cpu, Entry, Reach, Right, Standing};

// In primary mode, and for register 0, what was loaded is not looked at.
#[tactic(auto, using(std::proofs::lemmas::Bool::Decides::nat_tests), unfolding(model::specs::Tokens::token_used, lists::specs::Choice::both, lists::specs::Choice::choose))]
pub fn token_used(c: &Cpu, register: u32) -> u32
    requires { register ≤ 15 }
    ensures { result ≡ token_used c.now register }
{
    if c.mode && register != 0 {
        c.registers[register as usize]
    } else {
        0
    }
}

#[tactic(auto, unfolding(model::specs::Translation::through_standing))]
fn through(e: Entry) -> Result<Reach, Answer>
    ensures { result ≡ through_standing e.standing }
{
    match e.standing {
        Standing::Unused => Err(Answer::AlenTranslation),
        Standing::Valid { slot, right } => Ok(Reach { slot, right }),
        Standing::Revoked => Err(Answer::AddressingCapability),
    }
}

// Where the entry that a token names stands, and the place of the guest's first entry where the token names none.
#[tactic(auto, using(std::proofs::lemmas::Bool::Decides::nat_tests), unfolding(crate::specs::Translated::token_place, lists::specs::Choice::both, lists::specs::Choice::choose))]
pub fn entry_place(place: usize, token: u32) -> usize
    requires { place < 8 }
    ensures { (result ≡ token_place place token) × (result < 240) }
{
    let first = place * 30;
    match token % 65536 {
        n @ 2..=31 => first + (n - 2) as usize,
        _ => first,
    }
}

// Host access-register translation, on what it reads: `home` is the slot of the guest's primary space, where the token is 0,
// `e` the entry that the token names, `list` the length of the guest's list. An entry that stands above the list is not
// assigned; one that is unused, or has another sequence, neither.
#[tactic(auto, using(std::proofs::lemmas::Bool::Decides::nat_tests), unfolding(crate::specs::Translated::translated_by, lists::specs::Choice::both, lists::specs::Choice::choose))]
pub fn translate(home: u8, list: u8, e: Entry, token: u32) -> Result<Reach, Answer>
    ensures { result ≡ translated_by home list e token }
{
    if token == 0 {
        return Ok(Reach {
            slot: home,
            right: Right::Write,
        });
    }
    if entries::is_malformed(token) {
        return Err(Answer::AletSpecification);
    }
    if !entries::is_assigned(e, list, token) {
        return Err(Answer::AlenTranslation);
    }
    through(e)
}
