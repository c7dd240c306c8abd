// The search: one descent through the pool, and the three calls over it. Nothing is written, no key is copied.
#![tactic(auto)]

ghost use Rattle.std.specs.Prelude.{◌≡◌, ◌+◌, ◌*◌, ◌≤◌, ◌<◌, length, drop};
ghost use Rattle.tree.specs.Search.{met};
ghost use Rattle.tree.specs.Told.{got_told};
ghost use Rattle.tree.specs.Calls.{number_told};
ghost use Rattle.slots.specs.Layout.{WordsIn, label_of, num_at};
ghost use Rattle.pool.specs.Lent.{lent};
ghost use Rattle.search.specs.Post.{GetAllows, LongestAllows, SharedAllows};
ghost use Rattle.search.specs.Landing.{descent_of, meeting_of, best_of, Descends, InPool};

use pool::Pool;
use slots::put::stored_at;
use std::cmp::Ordering;
use tree::{Answer, Got, Key, Looked, Prefixed, Refusal, RuleNo, Sharing, Slot};

// How what is left of a key meets the label of a node.
#[derive(Clone, Copy)]
pub enum Meeting {
    // The key's next byte is below the label's first.
    Before,
    // It is above it.
    Past,
    // The key is the label.
    Same,
    // The key ends inside the label, behind so many of its bytes.
    Inside(usize),
    // The label, of so many bytes, ends inside the key.
    Through(usize),
    // They part behind so many bytes.
    Fork(usize),
}

// Where a descent ends.
#[derive(Clone, Copy)]
pub enum Stop {
    // The key is empty: at the root.
    Root,
    // No node begins with the key's next byte: a new one would stand at the slot.
    Gap,
    // At the slot, whose label is the rest of the key.
    Same,
    // Inside the slot's label, behind so many of its bytes, where the key ends.
    Inside(usize),
    // There too, where they part.
    Fork(usize),
}

// A stored prefix of the key: its length and number.
#[derive(Clone, Copy)]
pub struct Best {
    pub length: usize,
    pub number: RuleNo,
}

// Where a search came to: the slot, its parent, the bytes matched above the slot's label, the longest stored prefix, and how many
// nodes it looked at. The empty key ends at the root, which has neither parent nor bytes above: both are 0 there.
#[derive(Clone, Copy)]
pub struct Descent {
    pub stop: Stop,
    pub at: Slot,
    pub parent: Slot,
    pub above: usize,
    pub best: Option<Best>,
    pub looked: Looked,
}

// How the key from p on meets the label of slot c. Counterpart: `strip_common_prefix_and_len`, with `cmp_first_item` before it.
fn meet(labels: &[u8], words: &[u32], c: Slot, key: &[u8], p: usize) -> Meeting
    requires { InPool words.now labels.now c.0 × (p < length key.now) }
    ensures { let ws = words.now in
        let bs = labels.now in
        result ≡ meeting_of (drop p key.now) (label_of ws bs c.0) }
{
    match key[p].cmp(&slots::first_at(labels, c)) {
        Ordering::Less => return Meeting::Before,
        Ordering::Greater => return Meeting::Past,
        Ordering::Equal => {}
    }
    let label = slots::label_at(labels, words, c);
    let rest = &key[p..];
    let m = label::shared_length(rest, label);
    if m == label.len() {
        if m == rest.len() {
            return Meeting::Same;
        }
        return Meeting::Through(m);
    }
    if m == rest.len() {
        return Meeting::Inside(m);
    }
    Meeting::Fork(m)
}

// The longest stored prefix, once the label of slot c has matched whole and `length` bytes with it.
fn best_at(words: &[u32], c: Slot, length: usize, best: Option<Best>) -> Option<Best>
    requires { WordsIn words.now c.0 }
    ensures { best_of result ≡ met length (num_at words.now c.0) (best_of best) }
{
    match stored_at(words, c) {
        Some(number) => Some(Best { length, number }),
        None => best,
    }
}

// A descent by its parts.
fn landed(
    stop: Stop,
    at: Slot,
    parent: Slot,
    above: usize,
    best: Option<Best>,
    looked: usize,
) -> Descent
    ensures { result ≡ descent_of stop at.0 parent.0 above best looked }
{
    Descent {
        stop,
        at,
        parent,
        above,
        best,
        looked: Looked(looked),
    }
}

// The search, as all calls make it. Counterparts: `get`, `longest_common_prefix_len`, the way down of `insert`, `remove`.
// Each node that it meets is counted, the root first: `looked` are those before slot c. No two are in one slot, so they
// are at most c.
pub fn descend(pool: &Pool<'_>, key: &Key<'_>) -> Descent
    ensures { Descends pool.now key.now result }
{
    let labels = pool.labels;
    let words = pool.words;
    let key = key.bytes;
    let n = slots::nodes_in(words);
    let mut best = best_at(words, Slot(0), 0, None);
    let mut looked: usize = 1;
    if key.len() == 0 {
        return landed(Stop::Root, Slot(0), Slot(0), 0, best, looked);
    }
    let mut parent = Slot(0);
    let mut c: usize = 1;
    let mut end = n;
    let mut p: usize = 0;
    while c < end {
        let seen = looked + 1;
        match meet(labels, words, Slot(c), key, p) {
            Meeting::Before => return landed(Stop::Gap, Slot(c), parent, p, best, seen),
            Meeting::Past => {
                c += slots::span_at(words, Slot(c));
                looked = seen;
            }
            Meeting::Same => {
                best = best_at(words, Slot(c), key.len(), best);
                return landed(Stop::Same, Slot(c), parent, p, best, seen);
            }
            Meeting::Inside(m) => {
                return landed(Stop::Inside(m), Slot(c), parent, p, best, seen);
            }
            Meeting::Fork(m) => return landed(Stop::Fork(m), Slot(c), parent, p, best, seen),
            Meeting::Through(m) => {
                best = best_at(words, Slot(c), p + m, best);
                parent = Slot(c);
                end = c + slots::span_at(words, Slot(c));
                p += m;
                c += 1;
                looked = seen;
            }
        }
    }
    landed(Stop::Gap, Slot(c), parent, p, best, looked)
}

// The number at a slot, which a search came to.
fn number_in(words: &[u32], at: Slot, looked: Looked) -> Answer<Got>
    requires { WordsIn words.now at.0 }
    ensures { got_told result ≡ number_told looked.0 (num_at words.now at.0) }
{
    match stored_at(words, at) {
        Some(number) => Ok(Got { number, looked }),
        None => Err(Refusal::NotFound(looked)),
    }
}

// `get` in a pool that has been tested, of a key that has been.
pub fn get_in(pool: &Pool<'_>, key: &Key<'_>) -> Answer<Got>
    ensures { GetAllows key.now result pool.now }
{
    let d = descend(pool, key);
    let at = d.at;
    let looked = d.looked;
    match d.stop {
        Stop::Root | Stop::Same => number_in(pool.words, at, looked),
        // No label begins with the key's next byte.
        Stop::Gap => Err(Refusal::NotFound(looked)),
        // The key ends inside a label, or parts from it there.
        Stop::Inside(_) | Stop::Fork(_) => Err(Refusal::NotFound(looked)),
    }
}

// The number at exactly the key.
pub fn get(labels: &[u8], words: &[u32], key: &[u8]) -> Answer<Got>
    ensures { GetAllows key.now result (lent labels.now words.now) }
{
    let pool = Pool::new(labels, words)?;
    let key = Key::new(key)?;
    get_in(&pool, &key)
}

// `longest` in a pool that has been tested, of a query that has been.
pub fn longest_in(pool: &Pool<'_>, query: &Key<'_>) -> Answer<Prefixed>
    ensures { LongestAllows query.now result pool.now }
{
    let d = descend(pool, query);
    let looked = d.looked;
    match d.best {
        Some(best) => Ok(Prefixed {
            length: best.length,
            number: best.number,
            looked,
        }),
        None => Err(Refusal::NotFound(looked)),
    }
}

// Length and number of the longest stored key that starts the query.
pub fn longest(labels: &[u8], words: &[u32], query: &[u8]) -> Answer<Prefixed>
    ensures { LongestAllows query.now result (lent labels.now words.now) }
{
    let pool = Pool::new(labels, words)?;
    let query = Key::new(query)?;
    longest_in(&pool, &query)
}

// `shared` in a pool that has been tested, of a query that has been.
pub fn shared_in(pool: &Pool<'_>, query: &Key<'_>) -> Answer<Sharing>
    ensures { SharedAllows query.now result pool.now }
{
    let d = descend(pool, query);
    let above = d.above;
    let looked = d.looked;
    let length = match d.stop {
        Stop::Root | Stop::Same | Stop::Inside(_) => query.bytes.len(),
        Stop::Gap => above,
        Stop::Fork(m) => above + m,
    };
    Ok(Sharing { length, looked })
}

// The greatest number of leading bytes that the query shares with any stored key.
pub fn shared(labels: &[u8], words: &[u32], query: &[u8]) -> Answer<Sharing>
    ensures { SharedAllows query.now result (lent labels.now words.now) }
{
    let pool = Pool::new(labels, words)?;
    let query = Key::new(query)?;
    shared_in(&pool, &query)
}
