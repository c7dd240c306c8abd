// The slots of a pool in its two lent slices: where their fields stand. Only this crate reads and stores single words; all others
// ask and tell by a field's name. docs/POOL.md has the layout.
#![tactic(auto)]

ghost use Rattle.std.specs.Prelude.{◌≡◌, ◌+◌, ◌≤◌, ◌<◌, length, set};
ghost use Rattle.slots.specs.Layout.{slots_in, label_room, WordsIn, RoomIn, field_at, start_field, len_field, has_field, span_field, nodes_word, nodes_of, start_of, len_of, has_of, number_of, span_of, first_of, label_of};
ghost use Rattle.slots.specs.Bare.{number_put};

use tree::{LABEL_MAX, RuleNo, Slot};

// Words of the head and of a slot, and bytes of a slot's room, in which its label stands.
pub const HEAD_WORDS: usize = 8;

pub const SLOT_WORDS: usize = 8;

pub const LABEL_ROOM: usize = LABEL_MAX;

// The fields of slot 0.
const START: usize = HEAD_WORDS;

const LEN: usize = HEAD_WORDS + 1;

const HAS: usize = HEAD_WORDS + 2;

const LOW: usize = HEAD_WORDS + 3;

const SPAN: usize = HEAD_WORDS + 4;

const HIGH: usize = HEAD_WORDS + 5;

// So many numbers one word tells apart.
const WORD_RANGE: u64 = 4294967296;

// How many slots so many label bytes are.
pub fn slots_in(labels: &[u8]) -> usize
    ensures { result ≡ slots_in labels.now }
{
    labels.len() / LABEL_ROOM
}

// How many slots are in use.
pub fn nodes_in(words: &[u32]) -> usize
    requires { 1 ≤ length words.now }
    ensures { (result ≡ nodes_of words.now) × (result < 4294967296) }
{
    words[0] as usize
}

// Bytes of the path above the slot's label.
pub fn start_at(words: &[u32], at: Slot) -> usize
    requires { WordsIn words.now at.0 }
    ensures { (result ≡ start_of words.now at.0) × (result < 4294967296) }
{
    let i = at.0;
    words[SLOT_WORDS * i + START] as usize
}

// The length of the slot's label.
pub fn len_at(words: &[u32], at: Slot) -> usize
    requires { WordsIn words.now at.0 }
    ensures { (result ≡ len_of words.now at.0) × (result < 4294967296) }
{
    let i = at.0;
    words[SLOT_WORDS * i + LEN] as usize
}

// 1 if the slot has a number, else 0: a number and no bool, since the words are lent and this one may hold anything.
pub fn has_at(words: &[u32], at: Slot) -> usize
    requires { WordsIn words.now at.0 }
    ensures { (result ≡ has_of words.now at.0) × (result < 4294967296) }
{
    let i = at.0;
    words[SLOT_WORDS * i + HAS] as usize
}

// The slot's number, if it has one: a low word and a high one.
pub fn number_at(words: &[u32], at: Slot) -> RuleNo
    requires { WordsIn words.now at.0 }
    ensures { result.0 ≡ number_of words.now at.0 }
{
    let i = at.0;
    let low = u64::from(words[SLOT_WORDS * i + LOW]);
    let high = u64::from(words[SLOT_WORDS * i + HIGH]);
    RuleNo(low + WORD_RANGE * high)
}

// Nodes of the slot's subtree, itself included.
pub fn span_at(words: &[u32], at: Slot) -> usize
    requires { WordsIn words.now at.0 }
    ensures { (result ≡ span_of words.now at.0) × (result < 4294967296) }
{
    let i = at.0;
    words[SLOT_WORDS * i + SPAN] as usize
}

// The first byte of the slot's label.
pub fn first_at(labels: &[u8], at: Slot) -> u8
    requires { RoomIn labels.now at.0 }
    ensures { (result ≡ first_of labels.now at.0) × (result < 256) }
{
    let i = at.0;
    labels[LABEL_ROOM * i]
}

// The slot's label.
pub fn label_at<'a>(labels: &'a [u8], words: &[u32], at: Slot) -> &'a [u8]
    requires { WordsIn words.now at.0 × RoomIn labels.now at.0 × (len_of words.now at.0 ≤ label_room) }
    ensures { result.now ≡ label_of words.now labels.now at.0 }
{
    let from = LABEL_ROOM * at.0;
    let to = from + len_at(words, at);
    &labels[from..to]
}

// The setters: one for each field, and nobody else stores a word.
pub fn set_nodes(words: &mut [u32], nodes: u32)
    requires { 1 ≤ length words.old }
    ensures { words.new ≡ set words.old nodes_word nodes }
{
    words[0] = nodes;
}

pub fn set_start(words: &mut [u32], at: Slot, start: u32)
    requires { WordsIn words.old at.0 }
    ensures { words.new ≡ set words.old (field_at at.0 start_field) start }
{
    let i = at.0;
    words[SLOT_WORDS * i + START] = start;
}

pub fn set_len(words: &mut [u32], at: Slot, len: u32)
    requires { WordsIn words.old at.0 }
    ensures { words.new ≡ set words.old (field_at at.0 len_field) len }
{
    let i = at.0;
    words[SLOT_WORDS * i + LEN] = len;
}

pub fn set_has(words: &mut [u32], at: Slot, has: u32)
    requires { WordsIn words.old at.0 }
    ensures { words.new ≡ set words.old (field_at at.0 has_field) has }
{
    let i = at.0;
    words[SLOT_WORDS * i + HAS] = has;
}

pub fn set_number(words: &mut [u32], at: Slot, number: RuleNo)
    requires { WordsIn words.old at.0 }
    ensures { words.new ≡ number_put words.old at.0 number.0 }
{
    let i = at.0;
    words[SLOT_WORDS * i + LOW] = (number.0 % WORD_RANGE) as u32;
    words[SLOT_WORDS * i + HIGH] = (number.0 / WORD_RANGE) as u32;
}

pub fn set_span(words: &mut [u32], at: Slot, span: u32)
    requires { WordsIn words.old at.0 }
    ensures { words.new ≡ set words.old (field_at at.0 span_field) span }
{
    let i = at.0;
    words[SLOT_WORDS * i + SPAN] = span;
}

pub mod put;
