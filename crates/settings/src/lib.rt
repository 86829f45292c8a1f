// Check 1: one guest with its CPU. An enrolled one has one primary space, no more data spaces than its allowance, its settings
// in range and an access key of 4 bits; of another one all is zero.
#![tactic(auto, using(std::proofs::lemmas::Bool::Decides::nat_tests), unfolding(lists::specs::Choice::both, lists::specs::Choice::implies, lists::specs::Choice::choose, model::specs::SoundTest::enrolled_test, model::specs::SoundTest::absent_test, crate::specs::Guests::guest_with))]

ghost use Rattle.std.specs.Prelude.{◌≡◌, eqb, length};
ghost use Rattle.std.specs.List.{list_all};
ghost use Rattle.model.specs.SoundTest.{enrolled_test, absent_test};
ghost use Rattle.settings.specs.Guests.{guest_with};

use model::{Cpu, Guest};

fn zero_registers(registers: &[u32; 16]) -> bool
    ensures { result ≡ list_all (λ r. eqb r 0) registers.now }
{
    registers.iter().all(|r| *r == 0)
}

fn absent_ok(x: Guest, c: Cpu) -> bool
    ensures { result ≡ absent_test x c }
{
    x.allowance == 0
        && !x.share
        && x.list == 0
        && !x.asf
        && !c.mode
        && c.key == 0
        && zero_registers(&c.registers)
}

fn enrolled_ok(x: Guest, c: Cpu, primaries: u8, owned: u8) -> bool
    ensures { result ≡ enrolled_test x c primaries owned }
{
    primaries == 1
        && owned <= x.allowance
        && x.allowance <= 31
        && 1 <= x.list
        && x.list <= 30
        && c.key <= 15
        && (!c.mode || x.asf)
}

// A CPU by value: that it has sixteen registers is then known of it.
pub fn guest_ok(x: Guest, c: Cpu, primaries: u8, owned: u8) -> bool
    ensures test { result ≡ guest_with x c primaries owned }
    ensures registers { length c.registers ≡ 16 }
{
    if x.enrolled {
        enrolled_ok(x, c, primaries, owned)
    } else {
        absent_ok(x, c)
    }
}
