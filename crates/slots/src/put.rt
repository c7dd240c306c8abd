// Writing slots: all fields of one slot, or all but its span, and nothing else.
ghost use Rattle.std.specs.Prelude.{◌≡◌, List, ℕ, ◌+◌, ◌≤◌, ◌<◌, length};
ghost use Rattle.slots.specs.Layout.{label_room, WordsIn, RoomIn, start_of, len_of, span_of, num_at};
ghost use Rattle.slots.specs.Bare.{stored_of, head_put, HeadOf, bare_of, bare_at, front_of, back_of, Filled};
ghost use Rattle.slots.specs.Put.{words_put, LabelPut, SlotPut, rec_of};

use crate::{
    LABEL_ROOM, has_at, len_at, number_at, set_has, set_len, set_number, set_span, set_start,
    start_at,
};
use tree::{RuleNo, Slot};

// The words of a slot: bytes of the path above it, label length, 1 if it has a number and else 0, that number, and the
// nodes of its subtree, itself included. `put_words` and `put_slot` write any such words, so `has` and `number` stay apart.
#[derive(Clone, Copy)]
pub struct Head {
    pub start: u32,
    pub len: u32,
    pub has: u32,
    pub number: RuleNo,
    pub span: u32,
}

impl Head {
    // Of a node under a path of `start` bytes, with a label of `len` bytes and its number: a missing one is told by two zeros.
    pub fn new(start: u32, len: u32, stored: Option<RuleNo>, span: u32) -> Head
        ensures { HeadOf result start len (stored_of stored) span }
    {
        Head {
            start,
            len,
            has: u32::from(stored.is_some()),
            number: stored.unwrap_or(RuleNo(0)),
            span,
        }
    }
}

// Writes the words of one slot.
pub fn put_words(words: &mut [u32], at: Slot, head: Head)
    requires { WordsIn words.old at.0 }
    ensures { words.new ≡ words_put words.old at.0 head }
{
    set_start(words, at, head.start);
    set_len(words, at, head.len);
    set_has(words, at, head.has);
    set_number(words, at, head.number);
    set_span(words, at, head.span);
}

// Writes the label bytes of one slot.
pub fn put_label(labels: &mut [u8], at: Slot, label: &[u8])
    requires { RoomIn labels.old at.0 × (length label.now ≤ label_room) }
    ensures { LabelPut labels.old labels.new at.0 label.now }
{
    let from = LABEL_ROOM * at.0;
    let to = from + label.len();
    label::copy(&mut labels[from..to], label);
}

// Writes one slot whole.
pub fn put_slot(labels: &mut [u8], words: &mut [u32], at: Slot, head: Head, label: &[u8])
    requires words_in { WordsIn words.old at.0 × RoomIn labels.old at.0 }
    requires label_len_bound { (length label.now ≤ label_room) × (head.len ≡ length label.now) }
    ensures { let ws = words.old in
        let bs = labels.old in
        let vs = words.new in
        let cs = labels.new in
        SlotPut ws bs vs cs at.0 (rec_of head label.now) }
{
    put_words(words, at, head);
    put_label(labels, at, label);
}

// Writes a slot's words but for its span. A missing number is told by two zeros.
pub fn put_head(words: &mut [u32], at: Slot, start: usize, len: usize, stored: Option<RuleNo>)
    requires { WordsIn words.old at.0 × (start < 4294967296) × (len < 4294967296) }
    ensures { words.new ≡ head_put words.old at.0 start len (stored_of stored) }
{
    set_start(words, at, start as u32);
    set_len(words, at, len as u32);
    set_has(words, at, u32::from(stored.is_some()));
    set_number(words, at, stored.unwrap_or(RuleNo(0)));
}

// Fills a slot whole, with its span: `put_slot`, told as a splice.
pub fn put_linked(
    labels: &mut [u8],
    words: &mut [u32],
    at: Slot,
    start: usize,
    bytes: &[u8],
    stored: Option<RuleNo>,
    span: usize,
)
    requires { let i = at.0 in
        let l = bytes.now in
        let bs = labels.old in
        let ws = words.old in
        WordsIn ws i × RoomIn bs i × (start ≤ 4096) × (length l ≤ label_room) × (span < 4294967296) }
    ensures { let ws = words.old in
        let bs = labels.old in
        let vs = words.new in
        let cs = labels.new in
        let i = at.0 in
        Filled ws bs vs cs i (bare_of start bytes.now (stored_of stored)) × (span_of vs i ≡ span) }
{
    let head = Head::new(start as u32, bytes.len() as u32, stored, span as u32);
    put_slot(labels, words, at, head, bytes);
}

// The number at a slot, if it has one.
pub fn stored_at(words: &[u32], at: Slot) -> Option<RuleNo>
    requires { WordsIn words.now at.0 }
    ensures { stored_of result ≡ num_at words.now at.0 }
{
    if has_at(words, at) == 0 {
        return None;
    }
    Some(number_at(words, at))
}

// Keeps the first m bytes of a slot's label, with this number or none. The bytes stay where they are, and so does the span.
pub fn keep_front(words: &mut [u32], at: Slot, m: usize, stored: Option<RuleNo>)
    requires { let ws = words.old in
        WordsIn ws at.0 × (m ≤ len_of ws at.0) × (len_of ws at.0 ≤ label_room) }
    ensures { let ws = words.old in
        let vs = words.new in
        let i = at.0 in
        ((bs : List ℕ) → RoomIn bs i → Filled ws bs vs bs i (front_of m (stored_of stored) (bare_at ws bs i)))
        × (span_of vs i ≡ span_of ws i) }
{
    let start = start_at(words, at);
    put_head(words, at, start, m, stored);
}

// Keeps what is behind the first m bytes of a slot's label, with the slot's number and span, under m more bytes of the path.
pub fn keep_back(labels: &mut [u8], words: &mut [u32], at: Slot, m: usize)
    requires { let ws = words.old in
        let i = at.0 in
        WordsIn ws i × RoomIn labels.old i × (m ≤ len_of ws i) × (len_of ws i ≤ label_room) × (start_of ws i ≤ 4096) }
    ensures { let ws = words.old in
        let bs = labels.old in
        let vs = words.new in
        let cs = labels.new in
        Filled ws bs vs cs at.0 (back_of m (bare_at ws bs at.0)) × (span_of vs at.0 ≡ span_of ws at.0) }
{
    let from = LABEL_ROOM * at.0;
    let start = start_at(words, at);
    let len = len_at(words, at);
    let stored = stored_at(words, at);
    put_head(words, at, start + m, len - m, stored);
    labels.copy_within(from + m..from + len, from);
}
