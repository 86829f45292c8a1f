// A quick test that live spaces stand apart. It holds 32 slots against each other by columns of plain numbers, and counts
// clashes instead of stopping at the first, so that the compiler takes many pairs at a time. Where it finds a clash of numbers,
// the spaces may still be apart, and an exact test has to decide.
ghost use Rattle.std.specs.Prelude.{◌+◌, ◌≤◌, ◌<◌, true, ◌≢◌, ◌≡◌, length, set};
ghost use Rattle.model.specs.SoundTest.{apart_test};
ghost use Rattle.apart.specs.Marks.{id_mark, spread_of, name_mark, first_mark, end_mark};
ghost use Rattle.apart.specs.Warns.{Warns, Below, Parted, ClearAt};

use model::Space;

// The marks of the slots, each column twice over. Four columns and not one of structs, so that many numbers of a kind stand
// side by side.
#[derive(Drop)]
struct Columns {
    ids: [u16; 64],
    names: [u16; 64],
    firsts: [u16; 64],
    ends: [u16; 64],
}

// A slot without a live space gets a number of its own, so that two such slots don't clash.
#[tactic(auto, unfolding(lists::specs::Choice::choose, crate::specs::Marks::id_mark))]
fn id_mark(x: &Space, u: usize) -> u16
    requires { u < 32 }
    ensures { result ≡ id_mark x.now u }
{
    if x.id == 0 {
        return (65535 - u) as u16;
    }
    (x.id % 65536) as u16
}

// Spreads owners and names over the numbers of 16 bits; any other function of the two would do.
fn spread(owner: u8, name: u64) -> u16
    ensures { result ≡ spread_of owner name }
{
    let n = name % 4294967296 * 1640531527 + name / 4294967296 * 2146121005;
    ((n / 16777216 % 65536 + u64::from(owner) * 8191) % 65536) as u16
}

// Not one function with `id_mark`: all that they share is the number of a slot without a live space.
#[tactic(auto, unfolding(lists::specs::Choice::choose, crate::specs::Marks::name_mark))]
fn name_mark(x: &Space, u: usize) -> u16
    requires { u < 32 }
    ensures { result ≡ name_mark x.now u }
{
    if x.id == 0 {
        return (65535 - u) as u16;
    }
    spread(x.owner, x.name)
}

// Both ends of a run have to fit 16 bits. A first frame is cut lower, so that no end that was cut seems to lie before it.
#[tactic(auto, using(std::proofs::lemmas::Bool::Decides::nat_tests), unfolding(lists::specs::Choice::choose, crate::specs::Marks::cut))]
fn first_mark(x: &Space) -> u16
    ensures { result ≡ first_mark x.now }
{
    x.first.min(65534)
}

#[tactic(auto, using(std::proofs::lemmas::Bool::Decides::nat_tests), unfolding(lists::specs::Choice::choose, crate::specs::Marks::cut))]
fn end_mark(x: &Space) -> u16
    ensures { result ≡ end_mark x.now }
{
    x.first.saturating_add(x.pages)
}

// A mark goes to both places of its slot.
fn put(column: &mut [u16; 64], u: usize, m: u16)
    requires { u < 32 }
    ensures { column.new ≡ set (set column.old u m) (u + 32) m }
{
    column[u] = m;
    column[u + 32] = m;
}

fn same(a: u16, b: u16) -> u16
    ensures { Warns (a ≢ b) 1 result }
{
    u16::from(a == b)
}

// Whether the runs of frames from f up to e and from g up to h meet.
fn meet(f: u16, e: u16, g: u16, h: u16) -> u16
    ensures { Warns (Parted f e g h) 1 result }
{
    u16::from(f < h && g < e)
}

impl Columns {
    // Each slot against the one that stands d places further on in the ring. By index, since each column is read at two places.
    fn clashes_at(&self, d: usize) -> u16
        requires { d ≤ 16 }
        ensures { Warns (ClearAt self.now d) 96 result }
    {
        let mut n = 0u16;
        for u in 0..32usize {
            let i = same(self.ids[u], self.ids[u + d]);
            let k = same(self.names[u], self.names[u + d]);
            let f = meet(
                self.firsts[u],
                self.ends[u],
                self.firsts[u + d],
                self.ends[u + d],
            );
            n += i + k + f;
        }
        n
    }

    fn clashes(&self) -> u16
        ensures { Warns (Below 16 (λ d. ClearAt self.now (d + 1))) 1536 result }
    {
        let mut n = 0u16;
        for d in 0..16usize {
            n += self.clashes_at(d + 1);
        }
        n
    }
}

// Says yes only of spaces that stand apart. One pass over the slots fills the columns.
pub fn surely_apart(spaces: &[Space; 32]) -> bool
    ensures { result ≡ true → apart_test spaces.now ≡ true }
{
    let mut columns = Columns {
        ids: [0; 64],
        names: [0; 64],
        firsts: [0; 64],
        ends: [0; 64],
    };
    for (u, x) in spaces.iter().enumerate() {
        put(&mut columns.ids, u, id_mark(x, u));
        put(&mut columns.names, u, name_mark(x, u));
        put(&mut columns.firsts, u, first_mark(x));
        put(&mut columns.ends, u, end_mark(x));
    }
    columns.clashes() == 0
}
