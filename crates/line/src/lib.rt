// The words of a line. Words are apart by one space; keys, prefixes and images are lower-case hex, `-` for none; numbers
// are decimal without leading zeros; lists are joined by commas, `-` for none.
#![tactic(auto)]

ghost use Rattle.std.specs.Prelude.{◌≡◌, ◌≤◌, length};
ghost use Rattle.line.specs.Spelling.{index_of};
ghost use Rattle.line.specs.Spelling.{FirstWord, NibbleOf, HexTaken, KeyTaken, DecimalTaken, NumberTaken, ManyTaken, ListTaken};

// Where the first b stands, or the length where none does.
fn find(s: &[u8], b: u8) -> usize
    ensures { (result ≡ index_of b s.now) × (result ≤ length s.now) }
{
    s.iter().position(|x| *x == b).unwrap_or(s.len())
}

// Where the first word ends: at a space, or with the line.
pub fn word_end(s: &[u8]) -> usize
    ensures { FirstWord s.now result }
{
    find(s, b' ')
}

// The value of a hex digit.
#[tactic(auto, unfolding(crate::specs::Spelling::nibble))]
fn nibble(b: u8) -> Option<u8>
    ensures { NibbleOf result b }
{
    match b {
        b'0'..=b'9' => Some(b - b'0'),
        b'a'..=b'f' => Some(b - b'a' + 10),
        _ => None,
    }
}

// Two hex digits for each byte, at the front of the room; gives how many bytes they spell.
fn hex(s: &[u8], out: &mut [u8]) -> Option<usize>
    ensures { HexTaken result s.now out.new }
{
    let n = s.len() / 2;
    if s.len() % 2 > 0 || out.len() < n {
        return None;
    }
    for i in 0..n {
        let high = nibble(s[2 * i])?;
        let low = nibble(s[2 * i + 1])?;
        out[i] = 16 * high + low;
    }
    Some(n)
}

// A key, a prefix or the bytes of an image: how many bytes the word has given, at the front of the room lent for them.
pub fn key(s: &[u8], out: &mut [u8]) -> Option<usize>
    ensures { KeyTaken result s.now out.new }
{
    match s {
        b"-" => Some(0),
        [] => None,
        _ => hex(s, out),
    }
}

// The digits of a number of 64 bits.
fn digits(s: &[u8]) -> Option<u64>
    ensures { DecimalTaken result s.now }
{
    let mut n: u64 = 0;
    for b in s {
        let d = nibble(*b)?;
        if d > 9 {
            return None;
        }
        n = n.checked_mul(10)?.checked_add(u64::from(d))?;
    }
    Some(n)
}

// A number without leading zeros.
pub fn number(s: &[u8]) -> Option<u64>
    ensures { NumberTaken result s.now }
{
    if s.is_empty() {
        return None;
    }
    if s.len() > 1 && s[0] == b'0' {
        return None;
    }
    digits(s)
}

// Numbers joined by commas.
fn many(s: &[u8], out: &mut [u64]) -> Option<usize>
    ensures { ManyTaken result s.now out.new }
{
    let mut rest = s;
    for k in 0..out.len() {
        let (word, behind) = rest.split_at(find(rest, b','));
        out[k] = number(word)?;
        let Some((_, more)) = behind.split_first() else {
            return Some(k + 1);
        };
        rest = more;
    }
    None
}

// The numbers of an image: how many the word has given, at the front of the room lent for them.
pub fn numbers(s: &[u8], out: &mut [u64]) -> Option<usize>
    ensures { ListTaken result s.now out.new }
{
    match s {
        b"-" => Some(0),
        _ => many(s, out),
    }
}
