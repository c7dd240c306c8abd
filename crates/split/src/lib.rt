// Split by a prefix: the subtree of all keys that start with the prefix is carried over into a second pool, without the
// prefix, and what is left in the first is tidied as in remove. Counterpart: `split_by_prefix` of the Rust's node.
#![tactic(auto)]

ghost use Rattle.std.specs.Prelude.{◌≡◌, ℕ, ◌+◌, ◌*◌, ◌-◌, ◌≤◌, ◌<◌, length};
ghost use Rattle.slots.specs.Layout.{WordsIn, start_of, len_of, has_of, span_of};
ghost use Rattle.slots.specs.Records.{rec_at};
ghost use Rattle.slots.specs.Bare.{stored_of};
ghost use Rattle.slots.specs.Put.{SlotPut, rec_of};
ghost use Rattle.pool.specs.Lent.{lent};
ghost use Rattle.pool.specs.Rule.{Within, Lengths};
ghost use Rattle.search.specs.declared.Stop.{Stop};
ghost use Rattle.split.specs.Lift.{carried, lowered, topped, Liftable, Lifted, Rooted, Detached, DetachedBelow};
ghost use Rattle.split.specs.Halved.{Landed, Detachable, Leaving};
ghost use Rattle.split.specs.Post.{SplitAllows};
ghost use Rattle.tidy.specs.Climb.{Tidied};

use pool::Pool;
use search::Stop;
use slots::put::{Head, put_slot, put_words, stored_at};
use tree::{Answer, Key, Refusal, RuleNo, Slot};

// Slots of the first pool that are carried over: `count` of them from `from` on, under a path that is `base` bytes shorter.
#[derive(Clone, Copy)]
struct Part<'a> {
    labels: &'a [u8],
    words: &'a [u32],
    from: Slot,
    count: usize,
    base: usize,
}

// A node of the first pool that is carried over, with all below it.
#[derive(Clone, Copy)]
struct Node<'a> {
    labels: &'a [u8],
    words: &'a [u32],
    at: Slot,
}

// A node of the first pool that is cut off: its slot and its parent's, and how many slots the second pool has.
#[derive(Clone, Copy)]
struct Cut {
    at: Slot,
    parent: Slot,
    room: usize,
}

// The words for a slot of the second pool with the number and the span of a slot of the first, under a path of `start` bytes,
// with this label.
fn carried(words: &[u32], from: Slot, start: usize, label: &[u8]) -> Head
    requires { let ws = words.now in
        let i = from.0 in
        WordsIn ws i × (start < 4294967296) × (length label.now ≤ 255) }
    ensures { rec_of result label.now ≡ carried words.now from.0 start label.now }
{
    Head {
        start: start as u32,
        len: label.len() as u32,
        has: slots::has_at(words, from) as u32,
        number: slots::number_at(words, from),
        span: slots::span_at(words, from) as u32,
    }
}

// Carries the i-th slot of a part over.
fn lift_slot(part: &Part<'_>, i: usize, labels2: &mut [u8], words2: &mut [u32], to: Slot)
    requires fact { let p = part.now in
        Liftable p.words.now p.labels.now p.from.0 p.count p.base × (i < p.count) }
    requires within { Within words2.old labels2.old (to.0 + 1) }
    ensures { let p = part.now in
        let ws2 = words2.old in
        let bs2 = labels2.old in
        let vs2 = words2.new in
        let cs2 = labels2.new in
        SlotPut ws2 bs2 vs2 cs2 to.0 (lowered p.base (rec_at p.words.now p.labels.now (p.from.0 + i))) }
{
    let words = part.words;
    let from = Slot(part.from.0 + i);
    let start = slots::start_at(words, from) - part.base;
    let label = slots::label_at(part.labels, words, from);
    let head = carried(words, from, start, label);
    put_slot(labels2, words2, to, head, label);
}

// Carries a part over, to the slots from `to` on.
fn lift(part: &Part<'_>, labels2: &mut [u8], words2: &mut [u32], to: Slot)
    requires { let p = part.now in
        Liftable p.words.now p.labels.now p.from.0 p.count p.base × Within words2.old labels2.old (to.0 + p.count) }
    ensures { let p = part.now in
        let ws2 = words2.old in
        let bs2 = labels2.old in
        let vs2 = words2.new in
        let cs2 = labels2.new in
        Lifted p.words.now p.labels.now ws2 bs2 vs2 cs2 p.from.0 to.0 p.count p.base }
{
    for i in 0..part.count {
        lift_slot(part, i, labels2, words2, Slot(to.0 + i));
    }
}

// Writes the root, and how many slots are in use.
fn put_root(words: &mut [u32], stored: Option<RuleNo>, nodes: usize)
    requires { WordsIn words.old 0 × (nodes < 4294967296) }
    ensures { Rooted words.old words.new (stored_of stored) nodes }
{
    let head = Head::new(0, 0, stored, nodes as u32);
    put_words(words, Slot(0), head);
    slots::set_nodes(words, nodes as u32);
}

// Carries the subtree of a slot over, with the slot as the root.
fn detach_node(node: &Node<'_>, labels2: &mut [u8], words2: &mut [u32])
    requires { let ws = node.now.words.now in
        let i = node.now.at.0 in
        Detachable ws node.now.labels.now i × Within words2.old labels2.old (span_of ws i) }
    ensures { let ws = node.now.words.now in
        let bs = node.now.labels.now in
        let i = node.now.at.0 in
        let ws2 = words2.old in
        let bs2 = labels2.old in
        let vs2 = words2.new in
        let cs2 = labels2.new in
        Detached ws bs ws2 bs2 vs2 cs2 i (start_of ws i + len_of ws i) }
{
    let words = node.words;
    let at = node.at;
    let span = slots::span_at(words, at);
    let base = slots::start_at(words, at) + slots::len_at(words, at);
    let first = at.0 + 1;
    let below = Part {
        labels: node.labels,
        words,
        from: Slot(first),
        count: span - 1,
        base,
    };
    lift(&below, labels2, words2, Slot(1));
    put_root(words2, stored_at(words, at), span);
}

// Carries over what is left of a slot's label behind its first m bytes, as the top of a tree.
fn top_slot(node: &Node<'_>, m: usize, labels2: &mut [u8], words2: &mut [u32])
    requires { let ws = node.now.words.now in
        let i = node.now.at.0 in
        Within ws node.now.labels.now (i + 1) × (m ≤ len_of ws i) × (len_of ws i ≤ 255) × Within words2.old labels2.old 2 }
    ensures { let ws = node.now.words.now in
        let bs = node.now.labels.now in
        let ws2 = words2.old in
        let bs2 = labels2.old in
        let vs2 = words2.new in
        let cs2 = labels2.new in
        SlotPut ws2 bs2 vs2 cs2 1 (topped m (rec_at ws bs node.now.at.0)) }
{
    let words = node.words;
    let at = node.at;
    let label = slots::label_at(node.labels, words, at);
    let rest = &label[m..];
    let head = carried(words, at, 0, rest);
    put_slot(labels2, words2, Slot(1), head, rest);
}

// Carries the subtree of a slot over, with what is left of its label behind m bytes below an empty root.
fn detach_label(node: &Node<'_>, m: usize, labels2: &mut [u8], words2: &mut [u32])
    requires { let ws = node.now.words.now in
        let i = node.now.at.0 in
        Detachable ws node.now.labels.now i × (m ≤ len_of ws i) × Within words2.old labels2.old (span_of ws i + 1) }
    ensures { let ws = node.now.words.now in
        let bs = node.now.labels.now in
        let i = node.now.at.0 in
        let ws2 = words2.old in
        let bs2 = labels2.old in
        let vs2 = words2.new in
        let cs2 = labels2.new in
        DetachedBelow ws bs ws2 bs2 vs2 cs2 i m (start_of ws i + m) }
{
    let words = node.words;
    let at = node.at;
    let span = slots::span_at(words, at);
    let base = slots::start_at(words, at) + m;
    let first = at.0 + 1;
    let below = Part {
        labels: node.labels,
        words,
        from: Slot(first),
        count: span - 1,
        base,
    };
    lift(&below, labels2, words2, Slot(2));
    top_slot(node, m, labels2, words2);
    put_root(words2, None, span + 1);
}

// Takes the subtree of a slot out, and tidies from its parent up.
fn leave(labels: &mut [u8], words: &mut [u32], at: Slot, parent: Slot)
    requires { Leaving words.old labels.old at.0 parent.0 }
    ensures { let ws = words.old in
        let bs = labels.old in
        let vs = words.new in
        let cs = labels.new in
        ((x : Leaving ws bs at.0 parent.0) → Tidied ws bs vs cs x.left) }
{
    let end = at.0 + slots::span_at(words, at);
    splice::alter::open_gaps(words, at, Slot(end));
    tidy::tidy(labels, words, parent);
}

// The empty prefix: the whole tree is carried over, and an empty one is left.
fn split_root(
    labels: &mut [u8],
    words: &mut [u32],
    labels2: &mut [u8],
    words2: &mut [u32],
    room: usize,
) -> Answer<()>
    requires { Landed words.old labels.old Stop.Root 0 0 × Lengths words2.old labels2.old room }
    ensures { let was = lent labels.old words.old in
        let was₂ = lent labels2.old words2.old in
        ((x : Landed was.words was.labels Stop.Root 0 0)
        → SplitAllows x.prefix result was was₂ (lent labels.new words.new) (lent labels2.new words2.new)) }
{
    if slots::nodes_in(words) > room {
        return Err(Refusal::NoRoom);
    }
    let root = Node {
        labels,
        words,
        at: Slot(0),
    };
    detach_node(&root, labels2, words2);
    pool::write_empty(words);
    Ok(())
}

// The prefix ends with the label of the slot.
fn split_node(
    labels: &mut [u8],
    words: &mut [u32],
    cut: Cut,
    labels2: &mut [u8],
    words2: &mut [u32],
) -> Answer<()>
    requires { Landed words.old labels.old Stop.Same cut.at.0 cut.parent.0
        × Lengths words2.old labels2.old cut.room }
    ensures { let was = lent labels.old words.old in
        let was₂ = lent labels2.old words2.old in
        ((x : Landed was.words was.labels Stop.Same cut.at.0 cut.parent.0)
        → SplitAllows x.prefix result was was₂ (lent labels.new words.new) (lent labels2.new words2.new)) }
{
    let Cut { at, parent, room } = cut;
    if slots::span_at(words, at) > room {
        return Err(Refusal::NoRoom);
    }
    let node = Node { labels, words, at };
    detach_node(&node, labels2, words2);
    leave(labels, words, at, parent);
    Ok(())
}

// The prefix ends inside the label of the slot, behind m bytes.
fn split_label(
    labels: &mut [u8],
    words: &mut [u32],
    cut: Cut,
    m: usize,
    labels2: &mut [u8],
    words2: &mut [u32],
) -> Answer<()>
    requires { Landed words.old labels.old (Stop.Inside m) cut.at.0 cut.parent.0
        × Lengths words2.old labels2.old cut.room }
    ensures { let was = lent labels.old words.old in
        let was₂ = lent labels2.old words2.old in
        ((x : Landed was.words was.labels (Stop.Inside m) cut.at.0 cut.parent.0)
        → SplitAllows x.prefix result was was₂ (lent labels.new words.new) (lent labels2.new words2.new)) }
{
    let Cut { at, parent, room } = cut;
    if slots::span_at(words, at) >= room {
        return Err(Refusal::NoRoom);
    }
    let node = Node { labels, words, at };
    detach_label(&node, m, labels2, words2);
    leave(labels, words, at, parent);
    Ok(())
}

// Moves all keys that start with the prefix into the second pool, without the prefix. The second pool's old tree is given up.
pub fn split(
    labels: &mut [u8],
    words: &mut [u32],
    prefix: &[u8],
    labels2: &mut [u8],
    words2: &mut [u32],
) -> Answer<()>
    ensures { let was = lent labels.old words.old in
        let was₂ = lent labels2.old words2.old in
        SplitAllows prefix.now result was was₂ (lent labels.new words.new) (lent labels2.new words2.new) }
{
    let pool = Pool::new(labels, words)?;
    let room = pool::slots_of(labels2, words2).ok_or(Refusal::NotPool)?;
    let tested = Key::new(prefix)?;
    let d = search::descend(&pool, &tested);
    let cut = Cut {
        at: d.at,
        parent: d.parent,
        room,
    };
    match d.stop {
        Stop::Root => split_root(labels, words, labels2, words2, room),
        Stop::Same => split_node(labels, words, cut, labels2, words2),
        Stop::Inside(m) => split_label(labels, words, cut, m, labels2, words2),
        // No label begins with the prefix's next byte, or the prefix parts from one.
        Stop::Gap => Err(Refusal::NoKey),
        Stop::Fork(_) => Err(Refusal::NoKey),
    }
}
