// The fresh state: nobody enrolled, no space live, every entry unused, every cell with key 0 and no mark.
#![tactic(auto)]

ghost use Rattle.std.specs.Prelude.{◌≡◌};
ghost use Rattle.model.specs.Fresh.{empty_tables, frames_in_range, fresh};

use model::{Answer, Cell, Cpu, Entry, Guest, Kind, Permit, Reply, Space, State};

// Tables of a number of frames and a next identification, with nothing in them.
pub fn empty(frames: u32, next: u32) -> State
    ensures { result ≡ empty_tables frames next }
{
    State {
        frames,
        next,
        spaces: [Space::default(); 32],
        guests: [Guest::default(); 8],
        cpus: [Cpu::default(); 8],
        permits: [Permit::default(); 256],
        entries: [Entry::default(); 240],
        cells: [Cell::default(); 512],
    }
}

#[tactic(auto, unfolding(model::specs::Fresh::frames_in_range, lists::specs::Choice::both))]
fn in_range(frames: u32) -> bool
    ensures { result ≡ frames_in_range frames }
{
    1 <= frames && frames <= 512
}

// F outside 1 to 512 gives answer 39 and tables that are not sound.
#[tactic(auto, unfolding(model::specs::Fresh::fresh, lists::specs::Choice::choose))]
pub fn fresh(frames: u32) -> Reply
    ensures { result ≡ fresh frames }
{
    if !in_range(frames) {
        return Reply {
            answer: Answer::Limit {
                kind: Kind::Frames,
                place: 1,
            },
            state: empty(0, 0),
        };
    }
    Reply {
        answer: Answer::Done { value: 0 },
        state: empty(frames, 1),
    }
}
