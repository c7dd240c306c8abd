// Slots altered in their place, for the changing calls that make a tree smaller: a slot becomes a gap, loses its number, or
// takes in its only child. Starts and spans stay, so that the way up to a slot's parent is still found; `close_gaps` and
// `settle` come last.
ghost use Rattle.std.specs.Prelude.{◌≡◌, List, ℕ, ◌+◌, ◌*◌, ◌≤◌, length};
ghost use Rattle.slots.specs.Bare.{bare_at};
ghost use Rattle.splice.specs.Altered.{gap_of, numberless, join_of, Altered, Joinable, Emptied};
ghost use Rattle.slots.specs.Layout.{words_for, bytes_for, WordsIn};

use slots::LABEL_ROOM;
use slots::put::{put_head, stored_at};
use tree::Slot;

// Makes the slot a gap.
pub fn open_gap(words: &mut [u32], at: Slot)
    requires { WordsIn words.old at.0 }
    ensures { let ws = words.old in
        let vs = words.new in
        ((bs : List ℕ) → Altered ws bs vs bs at.0 (gap_of (bare_at ws bs at.0))) }
{
    slots::set_len(words, at, 0);
}

// Takes the slot's number away.
pub fn drop_number(words: &mut [u32], at: Slot)
    requires { WordsIn words.old at.0 }
    ensures { let ws = words.old in
        let vs = words.new in
        ((bs : List ℕ) → Altered ws bs vs bs at.0 (numberless (bare_at ws bs at.0))) }
{
    slots::set_has(words, at, 0);
}

// Puts the child's label behind the slot's own, and gives the slot the child's number or none.
pub fn join_label(labels: &mut [u8], words: &mut [u32], at: Slot, child: Slot)
    requires { Joinable words.old labels.old at.0 child.0 }
    ensures { let ws = words.old in
        let bs = labels.old in
        let vs = words.new in
        let cs = labels.new in
        Altered ws bs vs cs at.0 (join_of (bare_at ws bs at.0) (bare_at ws bs child.0)) }
{
    let from = LABEL_ROOM * child.0;
    let start = slots::start_at(words, at);
    let own = slots::len_at(words, at);
    let more = slots::len_at(words, child);
    let stored = stored_at(words, child);
    put_head(words, at, start, own + more, stored);
    labels.copy_within(from..from + more, LABEL_ROOM * at.0 + own);
}

// Makes the slots `from` .. `to` gaps.
pub fn open_gaps(words: &mut [u32], from: Slot, to: Slot)
    requires { (from.0 ≤ to.0) × (words_for to.0 ≤ length words.old) }
    ensures { let ws = words.old in
        let vs = words.new in
        ((bs : List ℕ) → bytes_for to.0 ≤ length bs → Emptied ws bs vs from.0 to.0) }
{
    for i in from.0..to.0 {
        open_gap(words, Slot(i));
    }
}
