// Whether live spaces stand apart: no frame of two, no identification of two, no name of two spaces of one owner.
#![tactic(auto)]

ghost use Rattle.std.specs.Prelude.{◌≡◌};
ghost use Rattle.model.specs.SoundTest.{apart_test};

use model::Space;

mod quick;

// The quick test first; where it is unsure, the exact one decides.
pub fn all_apart(spaces: &[Space; 32]) -> bool
    ensures { result ≡ apart_test spaces.now }
{
    quick::surely_apart(spaces) || pairs::apart_ok(spaces)
}
