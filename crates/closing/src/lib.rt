// One space withdrawn: what becomes of the table of permits, of the table of entries and of the table of cells. The loops go over
// places that are known before they start, so that they are vectorised.
#![tactic(auto)]

ghost use Rattle.std.specs.Prelude.{◌+◌, ◌≤◌, ◌<◌, ◌≡◌, eqb};
ghost use Rattle.model.specs.Changes.{unpermitted, revoked_all, blanked, applied};
ghost use Rattle.model.specs.Leaves.{in_run};
ghost use Rattle.model.specs.Sizes.{max_frames};
ghost use Rattle.model.specs.declared.Change.TheVariants.{IsolateSpace};
ghost use Rattle.closing.specs.Slot.{loses_slot};

use model::{Cell, Entry, Permit, State};

// The permits for the space in a slot go.
pub fn permits_without(permits: &mut [Permit; 256], slot: u8)
    requires { slot < 32 }
    ensures { permits.new ≡ unpermitted (eqb slot) permits.old }
{
    let at = slot as usize * 8;
    permits[at..at + 8].fill(Permit::default());
}

// Every guest but one loses its entries for the space in a slot; `kept` is that guest, and 0, which is no guest's number, for none:
// `loses_slot` speaks of numbers. The lists below and above its own are gone through.
pub fn entries_without(entries: &mut [Entry; 240], kept: u8, slot: u8)
    requires { slot < 32 }
    ensures { entries.new ≡ revoked_all (loses_slot kept slot) entries.old }
{
    // One pass that asks of each entry whose it is takes 1.17 times as long for ISOLATE: its loop isn't vectorised.
    let list = losses::kept_list(kept as usize);
    for k in 0..list * 30 {
        let e = entries[k];
        entries[k] = losses::entry_without(e, slot);
    }
    for k in list * 30 + 30..240 {
        let e = entries[k];
        entries[k] = losses::entry_without(e, slot);
    }
}

// The frames of a run lose their keys and marks.
pub fn cells_without(cells: &mut [Cell; 512], first: u16, pages: u16)
    requires { first + pages ≤ max_frames }
    ensures { cells.new ≡ blanked (in_run first pages) cells.old }
{
    let at = first as usize;
    cells[at..at + pages as usize].fill(Cell::default());
}

// The tables after ISOLATE: the permits for the space in a slot go, and every guest but its owner loses its entries for it.
pub fn close(s: &mut State, slot: u8)
    requires { slot < 32 }
    ensures { s.new ≡ applied s.old (IsolateSpace slot) }
{
    let owner = s.spaces[slot as usize].owner;
    permits_without(&mut s.permits, slot);
    entries_without(&mut s.entries, owner, slot);
}
