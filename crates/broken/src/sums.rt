// A number made of all that the tables hold: another one says that they differ.
use model::{Entry, Grant, Permit, Right, Standing, State};

fn mixed(h: u64, v: u64) -> u64 {
    (h % 1099511627776 * 16777213).wrapping_add(v)
}

fn all_mixed(before: u64, numbers: &[u64]) -> u64 {
    numbers.iter().fold(before, |h, v| mixed(h, *v))
}

fn of_right(r: Right) -> u64 {
    match r {
        Right::Read => 0,
        Right::Write => 1,
    }
}

fn of_entry(e: Entry) -> u64 {
    match e.standing {
        Standing::Unused => 0,
        Standing::Revoked => 1,
        Standing::Valid { slot, right } => mixed(u64::from(slot) + 2, of_right(right)),
    }
}

fn of_permit(p: Permit) -> u64 {
    match p.grant {
        Grant::Nothing => 0,
        Grant::Reading => 1,
        Grant::Writing => 2,
    }
}

// Places start again from the first in tables of fewer than 512 elements; the registers go by guest and then by number.
fn spaces_and_guests(s: &State, before: u64, i: usize) -> u64 {
    let x = s.spaces[i % 32];
    let g = s.guests[i % 8];
    all_mixed(
        before,
        &[
            u64::from(x.id),
            u64::from(x.owner),
            x.name / 4294967296,
            x.name % 4294967296,
            u64::from(x.first),
            u64::from(x.pages),
            u64::from(g.enrolled),
            u64::from(g.allowance),
            u64::from(g.share),
            u64::from(g.list),
            u64::from(g.asf),
        ],
    )
}

fn other_tables(s: &State, before: u64, i: usize) -> u64 {
    let c = s.cpus[i % 8];
    let e = s.entries[i % 240];
    let b = s.cells[i % 512];
    all_mixed(
        before,
        &[
            u64::from(c.registers[i / 8 % 16]),
            u64::from(c.mode),
            u64::from(c.key),
            of_permit(s.permits[i % 256]),
            of_entry(e),
            u64::from(e.sequence),
            u64::from(b.key),
            u64::from(b.mark),
        ],
    )
}

pub(crate) fn sum(s: &State) -> u64 {
    let mut h = mixed(u64::from(s.frames), u64::from(s.next));
    for i in 0..512 {
        h = spaces_and_guests(s, h, i);
        h = other_tables(s, h, i);
    }
    h
}
