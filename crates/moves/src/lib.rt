// Bytes found in a slice and moved between slices.
#![tactic(auto)]

ghost use Rattle.std.specs.Prelude.{ℕ, true, false, ◌+◌, ◌≤◌, ◌<◌, ◌≡◌, length, replicate, slice_index};
ghost use Rattle.lists.specs.Bytes.{over, part};
ghost use Rattle.moves.specs.Found.{byte_from};

// How many of the 64 bytes from i on pass. It looks at every one: a loop of fixed length without a way out, which the compiler turns
// into a few instructions on many bytes at a time.
fn in_block<F: Fn(u8) -> bool>(bytes: &[u8], i: usize, passes: &F) -> u8
    requires block { i + 64 ≤ length bytes.now }
    requires callable { F.IsAlwaysCallable passes.now }
    ensures { result ≡ 0 → (k : ℕ) → k < 64 → F.post passes.now (slice_index bytes.now (i + k)) false }
{
    let mut n = 0u8;
    for k in 0..64usize {
        if passes(bytes[i + k]) {
            n += 1;
        }
    }
    n
}

// Blocks in which no byte passes are passed over. The place is the result, so a walk over chunks would count it beside them.
fn pass_blocks<F: Fn(u8) -> bool>(bytes: &[u8], from: usize, passes: &F) -> usize
    requires from { from ≤ length bytes.now }
    requires callable { F.IsAlwaysCallable passes.now }
    ensures within { (from ≤ result) × (result ≤ length bytes.now) }
    ensures before { (k : ℕ) → from ≤ k → k < result → F.post passes.now (slice_index bytes.now k) false }
{
    let mut i = from;
    while 64 <= bytes.len() - i {
        if 0 < in_block(bytes, i, passes) {
            return i;
        }
        i += 64;
    }
    i
}

// The place of the first byte at or after `from` that passes, or the length, as in `find`.
pub fn find_by<F: Fn(u8) -> bool>(bytes: &[u8], from: usize, passes: F) -> usize
    requires from { from ≤ length bytes.now }
    requires callable { F.IsAlwaysCallable passes }
    ensures within { (from ≤ result) × (result ≤ length bytes.now) }
    ensures before { (k : ℕ) → from ≤ k → k < result → F.post passes (slice_index bytes.now k) false }
    ensures found { result < length bytes.now → F.post passes (slice_index bytes.now result) true }
{
    let start = pass_blocks(bytes, from, &passes);
    match bytes[start..].iter().position(|b| passes(*b)) {
        Some(k) => start + k,
        None => bytes.len(),
    }
}

// The place of the first byte `b` at or after `from`, or the length: as `byte_from`, which this promises.
pub fn find(bytes: &[u8], from: usize, b: u8) -> usize
    requires { from ≤ length bytes.now }
    ensures { (result ≡ byte_from b bytes.now from) × (from ≤ result) × (result ≤ length bytes.now) }
{
    find_by(bytes, from, |x| x == b)
}

// The bytes of src replace the first bytes of dst. This, `fill` and `clear` stand beside the library's own, since they promise by
// `over` and `part`, the words of what their callers prove.
#[tactic(auto, unfolding(lists::specs::Bytes::over))]
pub fn put(dst: &mut [u8], src: &[u8])
    requires { length src.now ≤ length dst.old }
    ensures { dst.new ≡ over dst.old 0 src.now }
{
    dst[..src.len()].copy_from_slice(src);
}

// dst is filled with the first bytes of src.
#[tactic(auto, unfolding(lists::specs::Bytes::part))]
pub fn fill(dst: &mut [u8], src: &[u8])
    requires { length dst.old ≤ length src.now }
    ensures { dst.new ≡ part src.now 0 (length dst.old) }
{
    dst.copy_from_slice(&src[..dst.len()]);
}

// The first n bytes of dst become zeros.
#[tactic(auto, unfolding(lists::specs::Bytes::over))]
pub fn clear(dst: &mut [u8], n: usize)
    requires { n ≤ length dst.old }
    ensures { dst.new ≡ over dst.old 0 (replicate n 0) }
{
    dst[..n].fill(0);
}
