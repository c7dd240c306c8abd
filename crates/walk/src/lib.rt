// The walk under a prefix: a value that carries its prefix and the last key given, and is handed on by each step. A step is
// one pass over the slots in use, which stand in the order of their keys. Counterparts in the Rust: `Node::iter`,
// `iter_descendant` and `Iter::next`, whose stack of nodes gives way to the last key.
#![tactic(auto)]

ghost use Rattle.std.specs.Prelude.{◌≡◌, ◌+◌, ◌*◌, ◌≤◌, length};
ghost use Rattle.std.proofs.Math.Option.{some};
ghost use Rattle.tree.specs.Key.{key_max};
ghost use Rattle.tree.specs.Map.{past};
ghost use Rattle.slots.specs.Layout.{WordsIn, has_of};
ghost use Rattle.pool.specs.Lent.{lent};
ghost use Rattle.walk.specs.Due.{lent_key, due, GivesKey, LayRoom, Laid, Sought};
ghost use Rattle.walk.specs.Walks.{Keeps, Lends, LendsLast, stepped, Begins, HandedIn, StepAllows};

use pool::Pool;
use tree::{Answer, KEY_MAX, Refusal, RuleNo, Slot, Stepped};

// A key in a room of its own. Of one over 4,096 bytes only the length is kept.
#[derive(Drop)]
pub struct Key {
    pub bytes: [u8; 4096],
    pub len: usize,
}

// A walk: its prefix, and the last key given, if one was.
#[derive(Drop)]
pub struct Walk {
    pub prefix: Key,
    pub last: Option<Key>,
}

// What a step gives: its answer, and the walk handed on.
#[derive(Drop)]
pub struct Step {
    pub answer: Answer<Stepped>,
    pub walk: Walk,
}

// Whether the walk may give a key: it starts with the prefix and comes after the last one given, if one was.
fn is_due(key: &[u8], prefix: &[u8], last: Option<&[u8]>) -> bool
    ensures { result ≡ due prefix.now (lent_key last.entry) key.now }
{
    if !key.starts_with(prefix) {
        return false;
    }
    match last {
        Some(last) => last.cmp(&key).is_lt(),
        None => true,
    }
}

// Lays the label of a slot behind the bytes above it in the path, and gives the length of the slot's key.
fn lay(labels: &[u8], words: &[u32], at: Slot, path: &mut [u8]) -> usize
    requires { LayRoom words.now labels.now path.old at.0 }
    ensures { let ws = words.now in
        let bs = labels.now in
        Laid ws bs path.old at.0 path.new result }
{
    let from = slots::start_at(words, at);
    let to = from + slots::len_at(words, at);
    label::copy(&mut path[from..to], slots::label_at(labels, words, at));
    to
}

// Whether a slot gives a key: one with a number does, also where longer keys stand below it.
fn gives_key(words: &[u32], at: Slot) -> bool
    requires { WordsIn words.now at.0 }
    ensures { GivesKey result (has_of words.now at.0) }
{
    slots::has_at(words, at) != 0
}

// Looks for the next key, slot by slot: the first that is due. Counterpart: `Iter::next`, called until a node with a value
// comes; the Rust finds its way back by a stack, and this loop by the path that it keeps.
fn seek(pool: &Pool<'_>, prefix: &[u8], last: Option<&[u8]>, path: &mut [u8]) -> Option<Stepped>
    requires { length path.old ≡ key_max }
    ensures { let was = pool.now in
        Sought was.words was.labels prefix.now (lent_key last.entry) result path.new }
{
    let labels = pool.labels;
    let words = pool.words;
    let n = slots::nodes_in(words);
    for i in 0..n {
        let length = lay(labels, words, Slot(i), path);
        if gives_key(words, Slot(i)) {
            if is_due(&path[..length], prefix, last) {
                let number = slots::number_at(words, Slot(i));
                return Some(Stepped { length, number });
            }
        }
    }
    None
}

impl Key {
    // The key that has these bytes.
    pub fn of(bytes: &[u8]) -> Key
        ensures { Keeps bytes.now result }
    {
        let len = bytes.len();
        let mut room = [0u8; 4096];
        if len <= KEY_MAX {
            label::copy(&mut room[..len], bytes);
        }
        Key { bytes: room, len }
    }

    // Its bytes, if they have been kept.
    fn lend(&self) -> Answer<&[u8]>
        ensures { Lends self.now result }
    {
        if self.len > KEY_MAX {
            return Err(Refusal::TooLong);
        }
        Ok(&self.bytes[..self.len])
    }
}

impl Walk {
    // A walk that has given no key. A prefix over 4,096 bytes is not kept, only its length: every step then gives 2.
    pub fn new(prefix: &[u8]) -> Walk
        ensures { Begins prefix.now result }
    {
        Walk {
            prefix: Key::of(prefix),
            last: None,
        }
    }

    // The walk with a last key that is handed in. One over 4,096 bytes is not kept, only its length: every step then gives 2.
    pub fn after(self, last: &[u8]) -> Walk
        ensures { HandedIn last.now self result }
    {
        Walk {
            prefix: self.prefix,
            last: Some(Key::of(last)),
        }
    }

    // The bytes of the last key, if one was given.
    fn lend_last(&self) -> Answer<Option<&[u8]>>
        ensures { LendsLast self.now result }
    {
        match &self.last {
            Some(last) => Ok(Some(last.lend()?)),
            None => Ok(None),
        }
    }

    // What a step answers. The key that it gives stands at the front of the output, and at the front of the path.
    fn find(&self, labels: &[u8], words: &[u32], path: &mut [u8], out: &mut [u8]) -> Answer<Stepped>
        requires { length path.old ≡ key_max }
        ensures { let w = self.now in
            let r = stepped w result path.new in
            StepAllows w r (lent labels.now words.now) out.old out.new }
    {
        let pool = Pool::new(labels, words)?;
        let prefix = self.prefix.lend()?;
        let last = self.lend_last()?;
        let found = seek(&pool, prefix, last, path).ok_or(Refusal::NoKey)?;
        let n = found.length;
        if out.len() < n {
            return Err(Refusal::KeyShort(n));
        }
        label::copy(&mut out[..n], &path[..n]);
        Ok(found)
    }

    // The next key under the prefix, at the front of the output, with its length and number; and the walk handed on: a step that
    // gives no key hands the same walk on. Counterpart: a step of the iterator over `iter_descendant`.
    pub fn step(self, labels: &[u8], words: &[u32], out: &mut [u8]) -> Step
        ensures { StepAllows self result (lent labels.now words.now) out.old out.new }
    {
        let mut path = [0u8; 4096];
        let answer = self.find(labels, words, &mut path, out);
        let walk = match answer {
            Ok(given) => {
                let last = Key {
                    bytes: path,
                    len: given.length,
                };
                Walk {
                    prefix: self.prefix,
                    last: Some(last),
                }
            }
            Err(_) => self,
        };
        Step { answer, walk }
    }
}
