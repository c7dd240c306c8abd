// The image of the tree that a pool holds: tree bytes into one output, stored numbers into another. Counterpart:
// `Node::serialize` of the Rust, whose stack of levels is a table by the start of a slot here.
#![tactic(auto)]

ghost use Rattle.std.specs.Prelude.{◌≡◌, [], ◌+◌, ◌*◌, ◌≤◌, ◌<◌, length};
ghost use Rattle.std.proofs.lemmas.List.Edits.{sets};
ghost use Rattle.tree.specs.Image.{numbers_w};
ghost use Rattle.slots.specs.Layout.{words_for, WordsIn, num_at};
ghost use Rattle.pool.specs.Lent.{lent};
ghost use Rattle.writer.specs.Post.{WriteAllows};
ghost use Rattle.writer.specs.Parts.{record_at, follows_at, Followed, record_sum, numbers_in};
ghost use Rattle.writer.specs.Runs.{Room, Put, RecordRoom, TreeRoom, RunPut, TreePut};

use tree::{Answer, Level, Refusal, Slot, Written};

// How many bytes the image of n slots has: each record is four bytes and its label.
fn image_length(words: &[u32], n: usize) -> usize
    requires { (words_for n ≤ length words.now) × (n ≤ 16384) }
    ensures { result ≡ record_sum words.now n }
{
    let mut sum: usize = 0;
    for i in 0..n {
        sum += 4 + slots::len_at(words, Slot(i));
    }
    sum
}

// Writes the record of one slot, and gives the place behind it. `sibling` says whether a younger sibling follows.
// Counterpart: what `Node::serialize` pushes to its tree bytes for one node.
fn write_record(
    labels: &[u8],
    words: &[u32],
    slot: Slot,
    level: Level,
    sibling: bool,
    out: &mut [u8],
    at: usize,
) -> usize
    requires { RecordRoom words.now labels.now slot.0 level.0 out.old at }
    ensures { let ws = words.now in
        let bs = labels.now in
        Put (record_at ws bs slot.0 level.0 sibling) out.old at out.new result }
{
    let n = slots::len_at(words, slot);
    let number = 0 < slots::has_at(words, slot);
    let child = 1 < slots::span_at(words, slot);
    out[at] = flags::flag_byte(number, child, sibling);
    out[at + 1] = n as u8;
    out[at + 2] = (level.0 / 256) as u8;
    out[at + 3] = (level.0 % 256) as u8;
    let to = at + 4;
    let next = to + n;
    let label = slots::label_at(labels, words, slot);
    label::copy(&mut out[to..next], label);
    next
}

// Whether a younger sibling of the slot follows: the slot behind its span, of n, starts where it does.
fn follows(words: &[u32], slot: Slot, n: usize) -> bool
    requires { Followed words.now slot.0 n }
    ensures { result ≡ follows_at words.now slot.0 n }
{
    let next = slot.0 + slots::span_at(words, slot);
    if next >= n {
        return false;
    }
    slots::start_at(words, Slot(next)) == slots::start_at(words, slot)
}

// Writes the slots below the root, from slot 1 up to slot n, and gives the place behind them. They stand in the order of the
// image, so one loop goes over them. A node's children start where its label ends: there each node leaves their level, and
// each finds its own. What starts farther up stays in the table until all below it has been passed.
// Counterpart: the loop of `Node::serialize` over its stack.
fn write_slots(labels: &[u8], words: &[u32], n: usize, out: &mut [u8], at: usize) -> usize
    requires { Room words.now labels.now 1 n 1 out.old at }
    ensures { let ws = words.now in
        RunPut ws labels.now 1 n 1 out.old at out.new result }
{
    let mut levels = [1u16; 4097];
    let mut place = at;
    for i in 1..n {
        let start = slots::start_at(words, Slot(i));
        let end = start + slots::len_at(words, Slot(i));
        let level = usize::from(levels[start]);
        levels[end] = (level + 1) as u16;
        let sibling = follows(words, Slot(i), n);
        place = write_record(labels, words, Slot(i), Level(level), sibling, out, place);
    }
    place
}

// Writes the whole tree to the front of the output: the root at level 0, which has no sibling, and all below it.
fn write_tree(labels: &[u8], words: &[u32], out: &mut [u8])
    requires { TreeRoom words.now labels.now out.old }
    ensures { TreePut words.now labels.now out.old out.new }
{
    let n = slots::nodes_in(words);
    let below = write_record(labels, words, Slot(0), Level(0), false, out, 0);
    write_slots(labels, words, n, out, below);
}

// Writes the number of one slot, if it has one, and gives the place behind it. Counterpart: what `Node::serialize` pushes
// to its values for one node.
fn write_number(words: &[u32], slot: Slot, out: &mut [u64], at: usize) -> usize
    requires { let ws = words.now in
        WordsIn ws slot.0 × (at + length (numbers_w (num_at ws slot.0) []) ≤ length out.old) }
    ensures { let ws = words.now in
        Put (numbers_w (num_at ws slot.0) []) out.old at out.new result }
{
    if slots::has_at(words, slot) == 0 {
        return at;
    }
    out[at] = slots::number_at(words, slot).0;
    at + 1
}

// Writes the numbers of n slots to the front of the output.
fn write_numbers(words: &[u32], n: usize, out: &mut [u64])
    requires { (words_for n ≤ length words.now) × (length (numbers_in words.now n) ≤ length out.old) }
    ensures { out.new ≡ sets out.old 0 (numbers_in words.now n) }
{
    let mut at: usize = 0;
    for i in 0..n {
        at = write_number(words, Slot(i), out, at);
    }
}

// Writes the image of the pool's tree: each output has its part at the front, and with any refusal both stay as they
// were. Both lengths are known and tested before anything is written. Counterpart: `Node::serialize`.
pub fn write(labels: &[u8], words: &[u32], tree: &mut [u8], numbers: &mut [u64]) -> Answer<Written>
    ensures { let was = lent labels.now words.now in
        WriteAllows result was tree.old numbers.old tree.new numbers.new }
{
    pool::tested(labels, words)?;
    let n = slots::nodes_in(words);
    let bytes = image_length(words, n);
    let keys = pool::keys_in(words, n);
    let lengths = Written {
        bytes,
        numbers: keys,
    };
    if tree.len() < bytes {
        return Err(Refusal::ImageShort(lengths));
    }
    if numbers.len() < keys {
        return Err(Refusal::ImageShort(lengths));
    }
    write_tree(labels, words, tree);
    write_numbers(words, n, numbers);
    Ok(lengths)
}
