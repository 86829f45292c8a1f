// The lowest run of free frames.
#![tactic(auto)]

ghost use Rattle.std.specs.Prelude.{◌+◌, ◌≤◌, ◌<◌, ◌≡◌};
ghost use Rattle.model.specs.Searches.{run_in};
ghost use Rattle.runs.specs.Meeting.{meets as meets_run};

use model::Space;

// Whether a space is live and has a frame of `pages` from `first` on. One with no page has no frame.
#[tactic(auto, unfolding(crate::specs::Meeting::meets, lists::specs::Choice::both))]
fn meets(x: &Space, first: u32, pages: u32) -> bool
    requires { first + pages < 4294967296 }
    ensures { result ≡ meets_run first pages x.now.id x.now.first x.now.pages }
{
    x.id != 0 && 1 <= x.pages && u32::from(x.first) < first + pages && first < slots::end(x)
}

// Where the lowest run of free frames starts; the number of frames where there is none, as the model's `run_in`, which this
// promises. Where a space has a frame of the run that is tried, it has one of every run that starts before its end, so the next to
// try starts there. The slots are asked round a ring, until a whole round of them has no frame of the run that is tried. Spaces tend to stand in the order of their
// frames, so that the slot after the one that was met mostly holds the next space: 31 spaces in order take 63 questions, and
// would take 528 if every start were asked of slot 0 first. No space is copied.
pub fn free_run(spaces: &[Space; 32], frames: u32, pages: u32) -> u32
    requires { 1 ≤ pages }
    ensures { result ≡ run_in frames spaces.now spaces.now pages }
{
    if frames < pages {
        return frames;
    }
    let last = frames - pages;
    // The slots are asked round a ring, which no one pass over the table is, so the slot is counted by hand.
    // the start that is tried: frame 0, and after it the end of a space each time
    let mut first = 0u32;
    // the slot that is asked next
    let mut u = 0usize;
    // how many slots in a row, up to the one before u, have no frame of the run
    let mut clear = 0usize;
    while clear < 32 {
        let x = &spaces[u];
        u = (u + 1) % 32;
        if meets(x, first, pages) {
            first = slots::end(x);
            if last < first {
                return frames;
            }
            clear = 0;
        } else {
            clear += 1;
        }
    }
    first
}
