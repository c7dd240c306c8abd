// A pool of slots in two lent slices: the full test, and the calls that need no search. docs/POOL.md has the rule.
#![tactic(auto)]

ghost use Rattle.std.specs.Prelude.{◌≡◌, ℕ, ◌+◌, ◌*◌, ◌≤◌, ◌<◌, length};
ghost use Rattle.slots.specs.Layout.{words_for, WordsIn, has_of};
ghost use Rattle.tree.specs.Told.{Unless};
ghost use Rattle.tree.specs.declared.Refusal.TheVariants.{NotPool};
ghost use Rattle.pool.specs.Pool.{slots_of};
ghost use Rattle.pool.specs.Rule.{Says, Within, Child, Children, NodeAt, Lengths, PoolRule};
ghost use Rattle.pool.specs.Lent.{lent};
ghost use Rattle.pool.specs.Post.{MakeAllows, ClearAllows, CountsAllows};
ghost use Rattle.pool.specs.Fields.{sized_of, has_sum, emptied};

use slots::put::{Head, put_words};
use slots::{HEAD_WORDS, LABEL_ROOM, SLOT_WORDS};
use tree::{Answer, Counted, KEY_MAX, LABEL_MAX, Refusal, RuleNo, SLOTS_MAX, Slot};

// How many slots two slices have, if their lengths are those of a pool.
pub fn slots_of(labels: &[u8], words: &[u32]) -> Option<usize>
    ensures { sized_of result ≡ slots_of words.now labels.now }
{
    let slots = slots::slots_in(labels);
    if slots < 1 {
        return None;
    }
    if slots > SLOTS_MAX {
        return None;
    }
    if labels.len() != LABEL_ROOM * slots {
        return None;
    }
    if words.len() != SLOT_WORDS * slots + HEAD_WORDS {
        return None;
    }
    Some(slots)
}

// Whether slot c can be the child that comes next.
fn child_ok(labels: &[u8], words: &[u32], base: usize, end: Slot, least: usize, c: Slot) -> bool
    requires { Within words.now labels.now end.0 × (c.0 < end.0) }
    ensures { Says result (Child words.now labels.now base end.0 least c.0) }
{
    if slots::start_at(words, c) != base {
        return false;
    }
    let n = slots::len_at(words, c);
    if n < 1 {
        return false;
    }
    if n > LABEL_MAX {
        return false;
    }
    let s = slots::span_at(words, c);
    if s < 1 {
        return false;
    }
    if end.0 - c.0 < s {
        return false;
    }
    if slots::has_at(words, c) + s < 2 {
        return false;
    }
    if (slots::first_at(labels, c) as usize) < least {
        return false;
    }
    true
}

// Whether the slots from .. end are children, the last of which ends exactly there.
fn children_ok(labels: &[u8], words: &[u32], base: usize, end: Slot, from: Slot) -> bool
    requires { Within words.now labels.now end.0 × (from.0 ≤ end.0) }
    ensures { Says result (Children words.now labels.now base end.0 0 from.0) }
{
    let mut least: usize = 0;
    let mut c = from.0;
    while c < end.0 {
        if !child_ok(labels, words, base, end, least, Slot(c)) {
            return false;
        }
        least = (slots::first_at(labels, Slot(c)) as usize) + 1;
        c += slots::span_at(words, Slot(c));
    }
    true
}

// Whether a slot of the first n is right as a node.
fn node_ok(labels: &[u8], words: &[u32], n: usize, at: Slot) -> bool
    requires { Within words.now labels.now n × (at.0 < n) }
    ensures { Says result (NodeAt words.now labels.now n at.0) }
{
    let i = at.0;
    if slots::has_at(words, at) > 1 {
        return false;
    }
    let base = slots::start_at(words, at) + slots::len_at(words, at);
    if base > KEY_MAX {
        return false;
    }
    let s = slots::span_at(words, at);
    if s < 1 {
        return false;
    }
    if n - i < s {
        return false;
    }
    children_ok(labels, words, base, Slot(i + s), Slot(i + 1))
}

// Whether the slots in use are a tree's, in a pool whose lengths are right.
fn tree_ok(labels: &[u8], words: &[u32], slots: usize) -> bool
    requires { Lengths words.now labels.now slots }
    ensures { Says result (PoolRule words.now labels.now) }
{
    let n = slots::nodes_in(words);
    if n < 1 {
        return false;
    }
    if n > slots {
        return false;
    }
    if slots::start_at(words, Slot(0)) != 0 {
        return false;
    }
    if slots::len_at(words, Slot(0)) != 0 {
        return false;
    }
    if slots::span_at(words, Slot(0)) != n {
        return false;
    }
    for i in 0..n {
        if !node_ok(labels, words, n, Slot(i)) {
            return false;
        }
    }
    true
}

// The full test of a pool, in time linear in its nodes: each slot is looked at once as a node and once as a child.
pub fn is_pool(labels: &[u8], words: &[u32]) -> bool
    ensures { Says result (PoolRule words.now labels.now) }
{
    match slots_of(labels, words) {
        Some(slots) => tree_ok(labels, words, slots),
        None => false,
    }
}

// The full test as the calls make it, which go on only in a pool.
pub fn tested(labels: &[u8], words: &[u32]) -> Answer<()>
    ensures { Unless NotPool (PoolRule words.now labels.now) result }
{
    if !is_pool(labels, words) {
        return Err(Refusal::NotPool);
    }
    Ok(())
}

// The empty tree: the root alone, without a number.
pub fn write_empty(words: &mut [u32])
    requires { WordsIn words.old 0 }
    ensures { words.new ≡ emptied words.old }
{
    slots::set_nodes(words, 1);
    let root = Head {
        start: 0,
        len: 0,
        has: 0,
        number: RuleNo(0),
        span: 1,
    };
    put_words(words, Slot(0), root);
}

// Makes a fresh pool. Only the lengths are tested; old contents don't matter.
pub fn make(labels: &mut [u8], words: &mut [u32]) -> Answer<()>
    ensures { MakeAllows result (lent labels.old words.old) (lent labels.new words.new) }
{
    slots_of(labels, words).ok_or(Refusal::NotPool)?;
    write_empty(words);
    Ok(())
}

// Leaves the empty tree in a pool.
pub fn clear(labels: &mut [u8], words: &mut [u32]) -> Answer<()>
    ensures { ClearAllows result (lent labels.old words.old) (lent labels.new words.new) }
{
    tested(labels, words)?;
    write_empty(words);
    Ok(())
}

// How many of the first n slots have a number.
pub fn keys_in(words: &[u32], n: usize) -> usize
    requires { (words_for n ≤ length words.now) × (n ≤ 16384) × ((i : ℕ) → i < n → has_of words.now i ≤ 1) }
    ensures { result ≡ has_sum words.now n }
{
    let mut keys: usize = 0;
    for i in 0..n {
        keys += slots::has_at(words, Slot(i));
    }
    keys
}

// Keys and nodes, the root included.
pub fn counts(labels: &[u8], words: &[u32]) -> Answer<Counted>
    ensures { CountsAllows result (lent labels.now words.now) }
{
    tested(labels, words)?;
    let nodes = slots::nodes_in(words);
    let keys = keys_in(words, nodes);
    Ok(Counted { keys, nodes })
}

mod whole;

pub use whole::Pool;
