// The bytes held of a line that its end has not reached yet: 601 at most, which tell that a line is longer than 600 bytes.
#![tactic(auto)]

ghost use Rattle.std.specs.Prelude.{◌++◌, ◌≤◌, ◌≡◌, length, take};

// How many bytes are held: no more than there is room for, whatever a session says.
pub fn kept(held: &[u8; 601], have: usize) -> usize
    ensures count { (result ≡ length (take have held.now)) × (result ≤ 601) }
    ensures same { take result held.now ≡ take have held.now }
{
    have.min(601)
}

// The bytes of a part go behind the bytes held, as many as there is room for.
pub fn hold(held: &mut [u8; 601], have: usize, part: &[u8]) -> usize
    ensures kept { take result held.new ≡ take 601 (take have held.old ++ part.now) }
    ensures most { result ≤ 601 }
{
    let start = kept(held, have);
    let n = part.len().min(601 - start);
    moves::put(&mut held[start..], &part[..n]);
    start + n
}
