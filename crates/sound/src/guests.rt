// The guests, each with its CPU and the numbers of its spaces, which are counted from the tags.
ghost use Rattle.permitted.specs.Columns.{Filled};
ghost use Rattle.sound.specs.Columns.{tag_count, Guests};

use model::{Cpu, Guest};

fn counts_of(tags: &[u8; 32]) -> [u8; 32]
    ensures { Filled result (tag_count tags.now 32) 32 }
{
    let mut counts = [0u8; 32];
    for t in tags.iter() {
        counts[(*t % 32) as usize] += 1;
    }
    counts
}

pub fn guests_ok(tags: &[u8; 32], guests: &[Guest; 8], cpus: &[Cpu; 8]) -> bool
    ensures { Guests result tags.now guests.now cpus.now }
{
    let counts = counts_of(tags);
    for (k, c) in cpus.iter().enumerate() {
        if !settings::guest_ok(guests[k], *c, counts[k + 17], counts[k + 1]) {
            return false;
        }
    }
    true
}
