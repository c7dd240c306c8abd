// Runs of bytes: what two of them share, and a copy.
#![tactic(auto)]

ghost use Rattle.std.specs.Prelude.{◌≡◌, leb, length, drop};
ghost use Prim.Native.Nat.{◌+◌, ◌*◌, ◌/◌, ◌≤◌, ◌<◌, min};
ghost use Rattle.tree.specs.Key.{common};
ghost use Rattle.label.specs.Runs.{four_at, eight_at};

// How many leading bytes two runs share: in steps of eight where both have eight left, by one of four, then singly.
// Counterpart: `strip_common_prefix_and_len`.
pub fn shared_length(k: &[u8], l: &[u8]) -> usize
    ensures { result ≡ common k.now l.now }
{
    let eights = shared_eights(k, l);
    let from = shared_fours(k, l, eights);
    shared_singly(k, l, from)
}

// How many of the shared bytes are passed in steps of eight.
fn shared_eights(k: &[u8], l: &[u8]) -> usize
    ensures { result ≡ 8 * (common k.now l.now / 8) }
{
    let eights = k.len().min(l.len()) / 8;
    for n in 0..eights {
        let i = 8 * n;
        if !eight_same(k, l, i) {
            return i;
        }
    }
    8 * eights
}

// How many are passed by one step of four more, if four more are shared. Without it the test for eight would make a run
// of four slower than the plain loop alone.
fn shared_fours(k: &[u8], l: &[u8], i: usize) -> usize
    requires { i ≡ 8 * (common k.now l.now / 8) }
    ensures { result ≡ 4 * (common k.now l.now / 4) }
{
    let left = k.len().min(l.len()) - i;
    if left >= 4 && four_same(k, l, i) {
        return i + 4;
    }
    i
}

// Where the shared bytes end, from a place among them on, byte by byte.
pub fn shared_singly(k: &[u8], l: &[u8], from: usize) -> usize
    requires { from ≤ common k.now l.now }
    ensures { result ≡ common k.now l.now }
{
    let most = k.len().min(l.len());
    for i in from..most {
        if k[i] != l[i] {
            return i;
        }
    }
    most
}

// Whether the eight bytes at i are the same in both.
fn eight_same(k: &[u8], l: &[u8], i: usize) -> bool
    requires { i + 8 ≤ min (length k.now) (length l.now) }
    ensures { result ≡ leb 8 (common (drop i k.now) (drop i l.now)) }
{
    eight(k, i) == eight(l, i)
}

// The same of four bytes.
fn four_same(k: &[u8], l: &[u8], i: usize) -> bool
    requires { i + 4 ≤ min (length k.now) (length l.now) }
    ensures { result ≡ leb 4 (common (drop i k.now) (drop i l.now)) }
{
    four(k, i) == four(l, i)
}

// The eight bytes at i as one number, the first the lowest: one load. Each width has its own, as no trait of the standard library
// has `from_le_bytes`.
fn eight(b: &[u8], i: usize) -> u64
    requires { i + 8 ≤ length b.now }
    ensures { result ≡ eight_at b.now i }
{
    u64::from_le_bytes([
        b[i],
        b[i + 1],
        b[i + 2],
        b[i + 3],
        b[i + 4],
        b[i + 5],
        b[i + 6],
        b[i + 7],
    ])
}

// The same of four bytes.
fn four(b: &[u8], i: usize) -> u32
    requires { i + 4 ≤ length b.now }
    ensures { result ≡ four_at b.now i }
{
    u32::from_le_bytes([b[i], b[i + 1], b[i + 2], b[i + 3]])
}

// Fills one run from another of the same length, byte by byte. The library's `copy_from_slice` is a call of `memmove`: a label of
// few bytes costs more by it, and the archive for C would need that name from outside.
pub fn copy(to: &mut [u8], from: &[u8])
    requires { length to.old ≡ length from.now }
    ensures { to.new ≡ from.now }
{
    for i in 0..to.len() {
        to[i] = from[i];
    }
}
