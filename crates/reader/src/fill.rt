// The fill: an image that has passed the check is believed. Its records stand in the order of the slots, so that one loop
// goes over them, and each finds the length of its path in a table by its level. The spans are put right at the end.
ghost use Rattle.std.specs.Prelude.{◌≡◌, [], ◌+◌, ◌*◌, ◌≤◌, ◌<◌, length, get_or};
ghost use Rattle.tree.specs.Told.{done};
ghost use Rattle.tree.specs.Calls.{read_call};
ghost use Rattle.slots.specs.Layout.{num_of};
ghost use Rattle.slots.specs.Bare.{stored_of};
ghost use Rattle.pool.specs.Pool.{slots_of};
ghost use Rattle.slots.specs.Put.{SlotPut};
ghost use Rattle.pool.specs.Post.{Meets};
ghost use Rattle.reader.specs.Fill.{SlotDue, rec_read, RecordDue, Behind, RecordsDue, Recorded, FillDue};

use super::level_at;
use flags::has_number;
use slots::put::{Head, put_slot};
use splice::settle;
use tree::{RuleNo, Slot};

// Where the fill stands: the offset of the record due, its slot, and the place of the number due.
#[derive(Clone, Copy)]
struct Cursor {
    at: usize,
    slot: Slot,
    next: usize,
}

// The number of a record, if it has one: `has` is the flag as it is counted.
fn number_due(numbers: &[u64], next: usize, has: usize) -> Option<RuleNo>
    requires { next + has ≤ length numbers.now }
    ensures { stored_of result ≡ num_of has (get_or numbers.now next 0) }
{
    if has == 0 {
        return None;
    }
    Some(RuleNo(numbers[next]))
}

// Writes the record at the cursor into its slot, under a path of so many bytes. How many nodes are below it is not known
// yet: the span counts the node alone. Counterpart: `Node::new_for_decoding`, the copy into `label_mut` and `set_value`.
fn fill_slot(
    labels: &mut [u8],
    words: &mut [u32],
    tree: &[u8],
    numbers: &[u64],
    path: usize,
    from: Cursor,
)
    requires { SlotDue tree.now numbers.now words.old labels.old path from }
    ensures { let r = rec_read tree.now numbers.now path from in
        let ws = words.old in
        let bs = labels.old in
        SlotPut ws bs words.new labels.new from.slot.0 r }
{
    let at = from.at;
    let len = usize::from(tree[at + 1]);
    let has = has_number(tree[at]);
    let number = number_due(numbers, from.next, has);
    let head = Head {
        start: path as u32,
        len: len as u32,
        has: has as u32,
        number: number.unwrap_or(RuleNo(0)),
        span: 1,
    };
    let first = at + 4;
    let last = first + len;
    let slot = from.slot;
    put_slot(labels, words, slot, head, &tree[first..last]);
}

// The cursor behind a record.
fn behind(tree: &[u8], from: Cursor) -> Cursor
    requires { RecordDue tree.now from }
    ensures { Behind tree.now from result }
{
    let at = from.at;
    Cursor {
        at: at + 4 + usize::from(tree[at + 1]),
        slot: Slot(from.slot.0 + 1),
        next: from.next + has_number(tree[at]),
    }
}

// Writes every record into its slot, but for the spans, and gives their count. A node's children start where its label
// ends: it leaves that in the table at their level, where they find it. Nothing writes there before the next node of its
// own level, and by then they have been passed. Counterpart: `set_child` and `set_sibling`.
fn fill_records(labels: &mut [u8], words: &mut [u32], tree: &[u8], numbers: &[u64]) -> usize
    requires { RecordsDue tree.now numbers.now words.old labels.old }
    ensures { let s = tree.now in
        let ns = numbers.now in
        Recorded s ns words.old labels.old words.new labels.new result }
{
    let mut starts = [0u16; 4098];
    let mut c = Cursor {
        at: 0,
        slot: Slot(0),
        next: 0,
    };
    while c.at < tree.len() {
        let at = c.at;
        let level = level_at(tree, at).0;
        let start = usize::from(starts[level]);
        let end = start + usize::from(tree[at + 1]);
        starts[level + 1] = end as u16;
        fill_slot(labels, words, tree, numbers, start, c);
        c = behind(tree, c);
    }
    c.slot.0
}

// The whole tree: its records, and then their count and their spans.
pub fn fill_tree(labels: &mut [u8], words: &mut [u32], tree: &[u8], numbers: &[u64])
    requires { FillDue tree.now numbers.now words.old labels.old }
    ensures { let ws = words.old in
        let bs = labels.old in
        let call = read_call (slots_of ws bs) tree.now numbers.now in
        Meets call (done []) ws bs words.new labels.new }
{
    let n = fill_records(labels, words, tree, numbers);
    settle(words, n);
}
