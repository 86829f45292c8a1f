// The exact test that live spaces stand apart: each slot against each other one.
#![tactic(auto, unfolding(lists::specs::Choice::both, lists::specs::Choice::either, lists::specs::Choice::implies, model::specs::SoundTest::frames_apart, model::specs::SoundTest::same_name, model::specs::SoundTest::pair_test))]

ghost use Rattle.std.specs.Prelude.{◌≡◌, eqb};
ghost use Rattle.lists.specs.Choice.{either};
ghost use Rattle.model.specs.SoundTest.{frames_apart, same_name, pair_test, apart_test};

use model::Space;

fn frames_apart(x: &Space, y: &Space) -> bool
    ensures { result ≡ frames_apart x.now y.now }
{
    slots::end(x) <= u32::from(y.first) || slots::end(y) <= u32::from(x.first)
}

fn same_name(x: &Space, y: &Space) -> bool
    ensures { result ≡ same_name x.now y.now }
{
    x.owner == y.owner && x.name == y.name
}

fn apart(x: &Space, y: &Space) -> bool
    ensures { result ≡ pair_test x.now y.now }
{
    x.id == 0 || y.id == 0 || frames_apart(x, y) && x.id != y.id && !same_name(x, y)
}

fn pair_ok(u: usize, v: usize, x: &Space, y: &Space) -> bool
    ensures { result ≡ either (eqb u v) (pair_test x.now y.now) }
{
    u == v || apart(x, y)
}

pub fn apart_ok(spaces: &[Space; 32]) -> bool
    ensures { result ≡ apart_test spaces.now }
{
    for (u, x) in spaces.iter().enumerate() {
        for (v, y) in spaces.iter().enumerate() {
            if !pair_ok(u, v, x, y) {
                return false;
            }
        }
    }
    true
}
