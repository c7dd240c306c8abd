// Splices of the list of records: a gap is opened, a slot is filled, gaps are closed, the spans are put right. The changing
// calls are made of these. Their contracts speak of records (`specs/Splice.antt`), not of the tree.
#![tactic(auto)]

ghost use Rattle.std.specs.Prelude.{◌≡◌, ◌+◌, ◌-◌, ◌≤◌, ◌<◌, length};
ghost use Rattle.slots.specs.Layout.{words_for, bytes_for, WordsIn, RoomIn, nodes_of, start_of, len_of};
ghost use Rattle.slots.specs.Bare.{bare_at, Filled};
ghost use Rattle.splice.specs.Splice.{reach, Linked, Relinked, Settled, Room, Moved, LabelIn, Swept, Closed};
ghost use Rattle.splice.specs.Spans.{Loose, Raised};

use slots::{HEAD_WORDS, LABEL_ROOM, SLOT_WORDS};
use tree::Slot;

// How many slots from this one on, itself included, belong to it: those behind it that start at the end of its label or
// deeper. The spans behind it are right, so it goes from child to child.
fn extent(words: &[u32], n: usize, at: Slot) -> usize
    requires { (words_for n ≤ length words.now) × (n ≤ 16384) × (at.0 < n) × Linked words.now (at.0 + 1) n }
    ensures { let ws = words.now in
        (result ≡ 1 + reach ws (start_of ws at.0 + len_of ws at.0) (at.0 + 1) (n - (at.0 + 1))) × (result ≤ 16384) }
{
    let i = at.0;
    let base = slots::start_at(words, at) + slots::len_at(words, at);
    let mut j = i + 1;
    while j < n {
        if slots::start_at(words, Slot(j)) < base {
            return j - i;
        }
        j += slots::span_at(words, Slot(j));
    }
    j - i
}

// Puts the spans of the first n slots right, from the last one down.
pub fn relink(words: &mut [u32], n: usize)
    requires { (words_for n ≤ length words.old) × (n ≤ 16384) }
    ensures { Relinked words.old words.new n }
{
    for i in (0..n).rev() {
        let span = extent(words, n, Slot(i));
        slots::set_span(words, Slot(i), span as u32);
    }
}

// Ends a splice that leaves n slots in use: they are counted, and their spans are put right.
pub fn settle(words: &mut [u32], n: usize)
    requires { (words_for n ≤ length words.old) × (n ≤ 16384) }
    ensures { Settled words.old words.new n }
{
    slots::set_nodes(words, n as u32);
    relink(words, n);
}

// Slot c on the way down to slot `at`, where k slots are new: if they belong to c, its span grows, and the next slot is its
// first child; else the next slot is the one past its span. Gives that next slot.
fn raise_slot(words: &mut [u32], c: Slot, at: Slot, k: usize) -> Slot
    requires { let ws = words.old in
        let n = nodes_of ws in
        (words_for n ≤ length ws) × (n ≤ 16384) × (c.0 < at.0) × Loose ws n at.0 k c.0 }
    ensures { let ws = words.old in
        Raised ws words.new (nodes_of ws) at.0 k c.0 result.0 }
{
    let i = c.0;
    let span = slots::span_at(words, c);
    let end = i + span;
    if end < at.0 {
        return Slot(end);
    }
    let base = slots::start_at(words, c) + slots::len_at(words, c);
    if slots::start_at(words, at) < base {
        return Slot(end);
    }
    slots::set_span(words, c, (span + k) as u32);
    Slot(i + 1)
}

// Lets the spans of the ancestors of slot `at` grow by the k slots that are new there. Goes from the root down and jumps over
// the subtrees that end before it.
fn raise(words: &mut [u32], at: Slot, k: usize)
    requires { let ws = words.old in
        let n = nodes_of ws in
        (words_for n ≤ length ws) × (n ≤ 16384) × Loose ws n at.0 k 0 }
    ensures { let ws = words.old in
        Relinked ws words.new (nodes_of ws) }
{
    let mut c = Slot(0);
    while c.0 < at.0 {
        c = raise_slot(words, c, at, k);
    }
}

// Ends a splice that leaves n slots in use, k of them new, where only the spans of the ancestors of slot `at` are short.
pub fn settle_at(words: &mut [u32], n: usize, at: Slot, k: usize)
    requires { (words_for n ≤ length words.old) × (n ≤ 16384) × Loose words.old n at.0 k 0 }
    ensures { Settled words.old words.new n }
{
    slots::set_nodes(words, n as u32);
    raise(words, at, k);
}

// Opens a gap: the slots `from` .. `to` move up by k.
pub fn move_slots(labels: &mut [u8], words: &mut [u32], from: Slot, to: Slot, k: usize)
    requires { Room words.old labels.old from.0 to.0 k }
    ensures { let ws = words.old in
        let bs = labels.old in
        let vs = words.new in
        let cs = labels.new in
        Moved ws bs vs cs from.0 to.0 k }
{
    let from = from.0;
    let to = to.0;
    let dest = from + k;
    words.copy_within(
        SLOT_WORDS * from + HEAD_WORDS..SLOT_WORDS * to + HEAD_WORDS,
        SLOT_WORDS * dest + HEAD_WORDS,
    );
    labels.copy_within(LABEL_ROOM * from..LABEL_ROOM * to, LABEL_ROOM * dest);
}

// How many bytes of a slot's room its label takes: all of them, where the length is no label's.
fn label_room(words: &[u32], at: Slot) -> usize
    requires { WordsIn words.now at.0 }
    ensures { LabelIn (len_of words.now at.0) result }
{
    slots::len_at(words, at).min(LABEL_ROOM)
}

// Moves one slot down: its words, and the bytes of its label.
fn lower_slot(labels: &mut [u8], words: &mut [u32], from: Slot, to: Slot)
    requires { (to.0 < from.0) × WordsIn words.old from.0 × RoomIn labels.old from.0 }
    ensures { let ws = words.old in
        let bs = labels.old in
        let vs = words.new in
        let cs = labels.new in
        Filled ws bs vs cs to.0 (bare_at ws bs from.0) }
{
    let i = from.0;
    let j = to.0;
    let n = label_room(words, from);
    words.copy_within(
        SLOT_WORDS * i + HEAD_WORDS..SLOT_WORDS * (i + 1) + HEAD_WORDS,
        SLOT_WORDS * j + HEAD_WORDS,
    );
    labels.copy_within(LABEL_ROOM * i..LABEL_ROOM * i + n, LABEL_ROOM * j);
}

// Keeps slot `from`, as slot `to`, or passes it: one without a label is a gap. Gives the next place.
fn sweep_slot(labels: &mut [u8], words: &mut [u32], from: Slot, to: Slot) -> Slot
    requires { (to.0 ≤ from.0) × WordsIn words.old from.0 × RoomIn labels.old from.0 }
    ensures { let ws = words.old in
        let bs = labels.old in
        let vs = words.new in
        let cs = labels.new in
        Swept ws bs vs cs from.0 to.0 result.0 }
{
    if slots::len_at(words, from) == 0 {
        return to;
    }
    let next = Slot(to.0 + 1);
    if to.0 == from.0 {
        return next;
    }
    lower_slot(labels, words, from, to);
    next
}

// Closes every gap in one sweep: a slot but the root without a label is one, and goes. Gives the slots then in use.
pub fn close_gaps(labels: &mut [u8], words: &mut [u32], n: usize) -> usize
    requires { (1 ≤ n) × (words_for n ≤ length words.old) × (bytes_for n ≤ length labels.old) }
    ensures { Closed words.old labels.old words.new labels.new n result }
{
    let mut to = Slot(1);
    for i in 1..n {
        to = sweep_slot(labels, words, Slot(i), to);
    }
    to.0
}

pub mod alter;
