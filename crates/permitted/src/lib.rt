// The permits of a state: whether each may stand, and what each guest may do with each slot. Owners come in tags: the owner of a
// slot is its tag's remainder by 16, and 0 for nobody.
#![tactic(auto)]

ghost use Rattle.std.specs.Prelude.{◌≤◌, ◌<◌, ◌≡◌, length, get_or, leb};
ghost use Rattle.lists.specs.Places.{every};
ghost use Rattle.permitted.specs.Elements.{place_of, grant_number, may_be, power_with};
ghost use Rattle.permitted.specs.Columns.{Filled, Owners, number_at, may_at, limit_at, Powers, Permits};

use model::{Grant, Guest, Permit};

// The place of guest 1 to 8, without a comparison.
pub fn place(g: u8) -> usize
    ensures { (result ≡ place_of g) × (result < 8) }
{
    (usize::from(g) + 7) % 8
}

// A plain number, so that permits and limits are compared many at a time; `Permits`, which `powers_of` promises, speaks of numbers
// too. The grants stand in order.
#[tactic(auto, unfolding(crate::specs::Elements::grant_number))]
fn number(g: Grant) -> u8
    ensures { result ≡ grant_number g }
{
    g as u8
}

fn numbers_of(permits: &[Permit; 256]) -> [u8; 256]
    ensures { Filled result (number_at permits.now) 256 }
{
    let mut numbers = [0u8; 256];
    for (k, p) in permits.iter().enumerate() {
        numbers[k] = number(p.grant);
    }
    numbers
}

#[tactic(auto, unfolding(lists::specs::Choice::both, lists::specs::Choice::choose, crate::specs::Elements::may_be))]
fn may_be(o: &Guest, h: &Guest, i: usize, k: usize) -> u8
    ensures { result ≡ may_be o.now h.now i k }
{
    if i != k && o.share && h.enrolled {
        return 2;
    }
    0
}

fn may_table(guests: &[Guest; 8]) -> [u8; 128]
    ensures { Filled result (may_at guests.now) 72 }
{
    let mut t = [0u8; 128];
    for (i, o) in guests.iter().enumerate() {
        for (k, h) in guests.iter().enumerate() {
            t[(i + 1) * 8 + k] = may_be(o, h, i, k);
        }
    }
    t
}

// What may be permitted of each slot: the row of its owner. Place by place, as `limit_at` tells them by row and column: a row that
// is copied at once would need a law of its own for its eight.
fn limits_of(may: &[u8; 128], tags: &[u8; 32]) -> [u8; 256]
    ensures { Filled result (limit_at may.now tags.now) 256 }
{
    let mut limits = [0u8; 256];
    for (u, t) in tags.iter().enumerate() {
        let o = usize::from(*t % 16);
        for k in 0..8usize {
            limits[u * 8 + k] = may[o * 8 + k];
        }
    }
    limits
}

// All numbers are held against their limits to the end, so that the compiler takes many at a time. A limit is taken by its place, of
// which the promise speaks: where the two are zipped, the invariant has to say besides what either iterator has left.
fn all_within(numbers: &[u8; 256], limits: &[u8; 256]) -> bool
    ensures { result ≡ every (λ k. leb (get_or numbers.now k 0) (get_or limits.now k 0)) 256 }
{
    let mut within = true;
    for (k, n) in numbers.iter().enumerate() {
        within &= *n <= limits[k];
    }
    within
}

// As in `power_with`: an owner has 2, the number of the highest grant, and 0 is the owner of a slot that nobody owns.
#[tactic(auto, unfolding(lists::specs::Choice::choose, crate::specs::Elements::power_with))]
fn power(o: u8, number: u8) -> u8
    ensures { result ≡ power_with o number }
{
    if o == 0 {
        return number;
    }
    2
}

// The owners join what the permits allow.
fn owners_into(tags: &[u8; 32], powers: &mut [u8; 256])
    requires { 256 ≤ length powers.old }
    ensures { Powers tags.now powers.old powers.new }
{
    for (u, t) in tags.iter().enumerate() {
        let o = *t % 16;
        let at = u * 8 + place(o);
        powers[at] = power(o, powers[at]);
    }
}

// Tests the permits, and gives what each guest may do with each slot.
pub fn powers_of(tags: &[u8; 32], guests: &[Guest; 8], permits: &[Permit; 256]) -> Option<[u8; 256]>
    requires { Owners tags.now }
    ensures { Permits result guests.now permits.now tags.now }
{
    let mut powers = numbers_of(permits);
    let may = may_table(guests);
    if !all_within(&powers, &limits_of(&may, tags)) {
        return None;
    }
    owners_into(tags, &mut powers);
    Some(powers)
}
