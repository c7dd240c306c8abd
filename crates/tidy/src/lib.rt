// Tidying: on the way back up from a slot to the root, each node without a number that has lost its children is dropped, and
// one that is left with an only child takes it in, where the joined label has at most 255 bytes. Remove and split end so.
// Counterparts: `try_reclaim_child`, `try_reclaim_sibling` and `try_merge_with_child` of the Rust.
#![tactic(auto)]

ghost use Rattle.std.specs.Prelude.{◌≡◌, List, ℕ, suc, ◌+◌, ◌*◌, ◌≤◌, length};
ghost use Rattle.std.proofs.Math.Option.{none};
ghost use Rattle.tree.specs.Key.{Key};
ghost use Rattle.tree.specs.Map.{Num};
ghost use Rattle.tree.specs.Tree.{Forest};
ghost use Rattle.slots.specs.Layout.{words_for, bytes_for, WordsIn, span_of};
ghost use Rattle.tidy.specs.Climb.{Climbing, Stage, Tidied};
ghost use Rattle.tidy.specs.Sparse.{Sparse, Hops, Next, Ripe, Ready, KidsAre, OnlyChild, Below, NodeSettled, Parent};

use tree::{LABEL_MAX, Slot};

// The children of a slot: none, one at a slot, or more.
#[derive(Clone, Copy)]
pub enum Kids {
    Nothing,
    One(Slot),
    More,
}

// The first slot from `from` on, from span to span, that is no gap, or `end`.
fn next_child(words: &[u32], from: Slot, end: Slot) -> Slot
    requires { (words_for end.0 ≤ length words.now) × Hops words.now end.0 from.0 }
    ensures { let ws = words.now in
        let e = end.0 in
        Hops ws e result.0
        × ((bs : List ℕ) (s : ℕ) (f : Forest) → Sparse ws bs s e f from.0 → Next ws bs s e f from.0 result.0) }
{
    let end = end.0;
    let mut c = from.0;
    while c < end {
        if slots::len_at(words, Slot(c)) > 0 {
            return Slot(c);
        }
        c += slots::span_at(words, Slot(c));
    }
    Slot(c)
}

// What children a slot has.
fn kids_of(words: &[u32], at: Slot) -> Kids
    requires fact { let ws = words.now in
        (words_for (at.0 + span_of ws at.0) ≤ length ws) × (1 ≤ span_of ws at.0) }
    requires hops { Hops words.now (at.0 + span_of words.now at.0) (at.0 + 1) }
    ensures { let ws = words.now in
        let i = at.0 in
        ((bs : List ℕ) (s b : ℕ) (l : Key) (w : Num) (kids : Forest)
        → Ripe ws bs i s b l w kids → KidsAre ws bs i (s + suc (length l)) kids result) }
{
    let end = at.0 + slots::span_at(words, at);
    let first = at.0 + 1;
    let child = next_child(words, Slot(first), Slot(end));
    if child.0 >= end {
        return Kids::Nothing;
    }
    let next = child.0 + slots::span_at(words, child);
    let other = next_child(words, Slot(next), Slot(end));
    if other.0 < end {
        return Kids::More;
    }
    Kids::One(child)
}

// A slot without a number takes in its only child, if the joined label has at most 255 bytes.
fn take_in(labels: &mut [u8], words: &mut [u32], at: Slot, child: Slot)
    requires { Below words.old labels.old at.0 child.0 }
    ensures { let ws = words.old in
        let bs = labels.old in
        let vs = words.new in
        let cs = labels.new in
        let i = at.0 in
        ((s b : ℕ) (l : Key) (kids : Forest)
        → Ripe ws bs i s b l none kids → OnlyChild ws bs i (s + suc (length l)) kids child.0
        → bytes_for (i + span_of ws i) ≤ length bs → NodeSettled ws bs vs cs i s b l none kids) }
{
    if slots::len_at(words, at) + slots::len_at(words, child) > LABEL_MAX {
        return;
    }
    splice::alter::join_label(labels, words, at, child);
    splice::alter::open_gap(words, child);
}

// Settles one node: it goes if it has neither number nor child, and it takes in an only child if it has no number.
fn settle_node(labels: &mut [u8], words: &mut [u32], at: Slot)
    requires { Ready words.old labels.old at.0 }
    ensures { let ws = words.old in
        let bs = labels.old in
        let vs = words.new in
        let cs = labels.new in
        let i = at.0 in
        ((s b : ℕ) (l : Key) (w : Num) (kids : Forest)
        → Ripe ws bs i s b l w kids → NodeSettled ws bs vs cs i s b l w kids) }
{
    if slots::has_at(words, at) > 0 {
        return;
    }
    match kids_of(words, at) {
        Kids::Nothing => splice::alter::open_gap(words, at),
        Kids::One(child) => take_in(labels, words, at, child),
        Kids::More => {}
    }
}

// The parent of a slot: the nearest before it that starts above it. The root's children start where the root does.
fn parent_of(words: &[u32], at: Slot) -> Slot
    requires { (1 ≤ at.0) × WordsIn words.now at.0 }
    ensures { Parent words.now at.0 result.0 }
{
    let start = slots::start_at(words, at);
    for r in (1..at.0).rev() {
        if slots::start_at(words, Slot(r)) < start {
            return Slot(r);
        }
    }
    Slot(0)
}

// Settles the slot and each of its ancestors but the root. Gaps are left where nodes went.
fn climb(labels: &mut [u8], words: &mut [u32], from: Slot)
    requires { Climbing words.old labels.old from.0 }
    ensures { let ws = words.old in
        let bs = labels.old in
        let vs = words.new in
        let cs = labels.new in
        ((x : Climbing ws bs from.0) → Stage x.words x.labels x.whole x.final vs cs 0) }
{
    let mut c = from.0;
    while 0 < c {
        settle_node(labels, words, Slot(c));
        c = parent_of(words, Slot(c)).0;
    }
}

// Tidies a pool from which something has been taken at the slot or below: all the way up, then the gaps are closed and the
// spans put right. Each is one pass.
pub fn tidy(labels: &mut [u8], words: &mut [u32], from: Slot)
    requires { Climbing words.old labels.old from.0 }
    ensures { let ws = words.old in
        let bs = labels.old in
        let vs = words.new in
        let cs = labels.new in
        ((x : Climbing ws bs from.0) → Tidied ws bs vs cs x.final) }
{
    climb(labels, words, from);
    let n = slots::nodes_in(words);
    let left = splice::close_gaps(labels, words, n);
    splice::settle(words, left);
}
