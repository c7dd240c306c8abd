// The four kinds of number that must not be mixed up, the sizes of document 01, and what a call answers: what it gives, or a
// refusal.
#![tactic(auto)]

ghost use Rattle.std.specs.Prelude.{◌≡◌, option_to_list, take};
ghost use Rattle.tree.specs.Told.{number_of, refusal_told};

// A label has at most so many bytes.
pub const LABEL_MAX: usize = 255;

// A key, query, prefix or path has at most so many bytes.
pub const KEY_MAX: usize = 4096;

// A pool has at most so many slots.
pub const SLOTS_MAX: usize = 16384;

// The place of a node in a pool.
#[derive(Clone, Copy)]
pub struct Slot(pub usize);

// How far a node is below the root, which is at level 0.
#[derive(Clone, Copy)]
pub struct Level(pub usize);

// A stored number: any 64-bit value.
#[derive(Clone, Copy)]
pub struct RuleNo(pub u64);

// How many nodes a search looked at.
#[derive(Clone, Copy, PartialEq, Eq)]
pub struct Looked(pub usize);

// What a call that is done has to say, or its refusal. Make, clear, split and read say nothing more.
pub type Answer<T> = Result<T, Refusal>;

// What get and remove answer: the number at the key, the old one for remove. A search tells how many nodes it looked at.
#[derive(Clone, Copy)]
pub struct Got {
    pub number: RuleNo,
    pub looked: Looked,
}

// What insert answers: the old number, if there was one. Its search is that in the tree as it was before.
#[derive(Clone, Copy)]
pub struct Inserted {
    pub old: Option<RuleNo>,
    pub looked: Looked,
}

// What the longest stored prefix answers: its length and number.
#[derive(Clone, Copy)]
pub struct Prefixed {
    pub length: usize,
    pub number: RuleNo,
    pub looked: Looked,
}

// What the longest shared length answers.
#[derive(Clone, Copy)]
pub struct Sharing {
    pub length: usize,
    pub looked: Looked,
}

// What a walk's step answers: the key's length and number.
#[derive(Clone, Copy)]
pub struct Stepped {
    pub length: usize,
    pub number: RuleNo,
}

// What counts answers: keys and nodes.
#[derive(Clone, Copy)]
pub struct Counted {
    pub keys: usize,
    pub nodes: usize,
}

// What the writer answers: the lengths of tree bytes and numbers.
#[derive(Clone, Copy, PartialEq, Eq)]
pub struct Written {
    pub bytes: usize,
    pub numbers: usize,
}

// Document 01's refusals, in the order of their numbers.
#[derive(Clone, Copy, PartialEq, Eq)]
pub enum Refusal {
    // 1: the slices are no pool.
    NotPool,
    // 2: a key, query, prefix or path is too long.
    TooLong,
    // 3: nothing is stored there; the search looked at so many nodes.
    NotFound(Looked),
    // 3: no key is left under the prefix of a walk, or none is under that of a split.
    NoKey,
    // 4: the pool has too few slots.
    NoRoom,
    // 5: the output is too short for a key of so many bytes.
    KeyShort(usize),
    // 5: an output is too short for an image of these lengths.
    ImageShort(Written),
    // 6 to 13: what the reader found, at this offset into the image.
    CutShort(usize),
    FlagByte(usize),
    WrongLevel(usize),
    LabelLength(usize),
    SiblingOrder(usize),
    IdleNode(usize),
    NumberCount(usize),
    BytesLeft(usize),
}

impl Refusal {
    // Document 01's number.
    pub fn number(self) -> u32
        ensures { result ≡ (refusal_told self).number }
    {
        match self {
            Refusal::NotPool => 1,
            Refusal::TooLong => 2,
            Refusal::NotFound(_) | Refusal::NoKey => 3,
            Refusal::NoRoom => 4,
            Refusal::KeyShort(_) | Refusal::ImageShort(_) => 5,
            Refusal::CutShort(_) => 6,
            Refusal::FlagByte(_) => 7,
            Refusal::WrongLevel(_) => 8,
            Refusal::LabelLength(_) => 9,
            Refusal::SiblingOrder(_) => 10,
            Refusal::IdleNode(_) => 11,
            Refusal::NumberCount(_) => 12,
            Refusal::BytesLeft(_) => 13,
        }
    }

    // The count, length or offset that is told besides, if one is; of two the first.
    pub fn value(self) -> Option<usize>
        ensures { option_to_list result ≡ take 1 (refusal_told self).values }
    {
        match self {
            Refusal::NotPool | Refusal::TooLong | Refusal::NoKey | Refusal::NoRoom => None,
            Refusal::NotFound(looked) => Some(looked.0),
            Refusal::KeyShort(length) => Some(length),
            Refusal::ImageShort(needed) => Some(needed.bytes),
            Refusal::CutShort(at)
            | Refusal::FlagByte(at)
            | Refusal::WrongLevel(at)
            | Refusal::LabelLength(at)
            | Refusal::SiblingOrder(at)
            | Refusal::IdleNode(at)
            | Refusal::NumberCount(at)
            | Refusal::BytesLeft(at) => Some(at),
        }
    }
}

// Document 01's number of an answer: 0 where the call is done.
pub fn number<T>(answer: &Answer<T>) -> u32
    ensures { result ≡ number_of answer.now }
{
    match answer {
        Ok(_) => 0,
        Err(refusal) => refusal.number(),
    }
}

mod key;

pub use key::Key;
