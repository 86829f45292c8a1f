// Check 1: the cells. Every key has 4 bits, and a frame that no live space has is blank: key 0, mark off. Each cell becomes one
// plain number, so that one pass without a way out tells of all of them, many at a time.
#![tactic(auto)]

ghost use Rattle.std.specs.Prelude.{◌≤◌, ◌≡◌, length, get_or};
ghost use Rattle.model.specs.SoundTest.{cells_test};
ghost use Rattle.permitted.specs.Columns.{Filled};
ghost use Rattle.cells.specs.Weights.{weight_of, weight_at, most_of};
ghost use Rattle.cells.specs.Left.{Cleared, left_by, Fits, AllFit};

use model::{Cell, Space};

// The key, or 1 for a mark with key 0: 0 says that the cell is blank, and more than 15 that its key is too high. One number of both,
// since the largest of all tells both: apart they would take two tables and two passes.
#[tactic(auto, using(std::proofs::lemmas::Bool::Decides::nat_tests), unfolding(lists::specs::Choice::choose, lists::specs::Places::one_if, crate::specs::Weights::larger, crate::specs::Weights::weight_of))]
fn weight(c: Cell) -> u8
    ensures { result ≡ weight_of c }
{
    c.key.max(u8::from(c.mark))
}

fn weights_of(cells: &[Cell; 512]) -> [u8; 512]
    ensures { Filled result (weight_at cells.now) 512 }
{
    let mut weights = [0u8; 512];
    // by index: through an iterator the compiler reads one byte at a time, twice the instructions
    for f in 0..512usize {
        let c = cells[f];
        weights[f] = weight(c);
    }
    weights
}

fn heaviest(weights: &[u8; 512]) -> u8
    ensures { result ≡ most_of (λ f. get_or weights.now f 0) 512 }
{
    let mut most = 0u8;
    for w in weights.iter() {
        most = most.max(*w);
    }
    most
}

// By index: what `fill` says of the slice, clone by clone, did not lead to what stands at each place.
fn clear_run(weights: &mut [u8; 512], first: usize, end: usize)
    requires { (first ≤ end) × (end ≤ 512) × (512 ≤ length weights.old) }
    ensures { Cleared weights.old weights.new first end }
{
    for f in first..end {
        weights[f] = 0;
    }
}

// The frames of a live space may have any weight: theirs are put out of the way. Sixteen at once are one store, and 16 to 32
// are two, which may overlap.
fn clear_frames(x: &Space, weights: &mut [u8; 512])
    requires { Fits x.now × (512 ≤ length weights.old) }
    ensures { Filled weights.new (left_by x.now weights.old) 512 }
{
    if x.id == 0 {
        return;
    }
    let first = x.first as usize;
    let end = first + x.pages as usize;
    if x.pages < 16 || 32 < x.pages {
        clear_run(weights, first, end);
        return;
    }
    clear_run(weights, first, first + 16);
    clear_run(weights, end - 16, end);
}

// Where every cell is blank, no space has to be asked.
pub fn cells_ok(spaces: &[Space; 32], cells: &[Cell; 512]) -> bool
    requires { AllFit spaces.now }
    ensures { result ≡ cells_test spaces.now spaces.now cells.now }
{
    let mut weights = weights_of(cells);
    let most = heaviest(&weights);
    if most == 0 {
        return true;
    }
    if 15 < most {
        return false;
    }
    for x in spaces.iter() {
        clear_frames(x, &mut weights);
    }
    heaviest(&weights) == 0
}
