// The image's reader: a full check first, a fill after, so that a refusal leaves every lent byte and word as it was.
// Counterpart: `KeyAndNode::deserialize`, which builds as it parses and takes many images that are refused here.
#![tactic(auto)]

ghost use Rattle.std.specs.Prelude.{◌≡◌, ◌+◌, ◌*◌, ◌≤◌, ◌<◌, length, get_or};
ghost use Rattle.tree.specs.Reader.{judge};
ghost use Rattle.pool.specs.Lent.{lent};
ghost use Rattle.reader.specs.Post.{ReadAllows};
ghost use Rattle.reader.specs.Check.{found_of, head_rules, body_rules, count_rules, NodeChecked, KidsChecked, Place, RootChecked, CheckedAs};

mod fill;

use flags::{flags_sound, has_child, has_number, has_sibling};
use pool::slots_of;
use tree::{Answer, KEY_MAX, Level, Refusal};

// How far the check has come: the offset of the next record, the numbers left and the nodes passed.
#[derive(Clone, Copy)]
struct Mark {
    at: usize,
    left: usize,
    nodes: usize,
}

// The level that a record says.
fn level_at(tree: &[u8], at: usize) -> Level
    requires { at + 4 ≤ length tree.now }
    ensures { let s = tree.now in
        (result.0 ≡ 256 * get_or s (at + 2) 0 + get_or s (at + 3) 0) × (result.0 < 65536) }
{
    Level(256 * usize::from(tree[at + 2]) + usize::from(tree[at + 3]))
}

// The tests of a record's first four bytes, up to the label's presence, below the root. A length is not believed before the
// bytes that are left have been counted. Counterpart: the two "unexpected EOS" tests; the Rust makes no other here.
fn test_head(tree: &[u8], level: Level, at: usize) -> Answer<()>
    requires { (at ≤ length tree.now) × (1 ≤ level.0) }
    ensures { found_of result ≡ judge (head_rules tree.now level.0 at) }
{
    let room = tree.len() - at;
    if room < 4 {
        return Err(Refusal::CutShort(at));
    }
    if !flags_sound(tree[at], level) {
        return Err(Refusal::FlagByte(at));
    }
    if level_at(tree, at).0 != level.0 {
        return Err(Refusal::WrongLevel(at));
    }
    let len = usize::from(tree[at + 1]);
    if len < 1 {
        return Err(Refusal::LabelLength(at));
    }
    if room - 4 < len {
        return Err(Refusal::CutShort(at));
    }
    Ok(())
}

// The tests of what the record says: sibling order, path, idle node, number due. Where a first byte is at least `least`,
// it is above its elder sibling's.
fn test_body(tree: &[u8], level: Level, least: usize, path: usize, from: Mark) -> Answer<()>
    requires { (from.at + 4 < length tree.now) × (path ≤ 4096) × (1 ≤ level.0) }
    ensures { found_of result ≡ judge (body_rules tree.now from.left level.0 least path from.at) }
{
    let at = from.at;
    if usize::from(tree[at + 4]) < least {
        return Err(Refusal::SiblingOrder(at));
    }
    if path + usize::from(tree[at + 1]) > KEY_MAX {
        return Err(Refusal::TooLong);
    }
    let has = has_number(tree[at]);
    if has == 0 && !has_child(tree[at]) {
        return Err(Refusal::IdleNode(at));
    }
    if from.left < has {
        return Err(Refusal::NumberCount(at));
    }
    Ok(())
}

// The tests of one record below the root, in document 01's order.
fn test_record(tree: &[u8], level: Level, least: usize, path: usize, from: Mark) -> Answer<()>
    requires { (from.at ≤ length tree.now) × (path ≤ 4096) × (1 ≤ level.0) }
    ensures { let s = tree.now in
        found_of result ≡ judge (count_rules s from.left level.0 least path from.at) }
{
    test_head(tree, level, from.at)?;
    test_body(tree, level, least, path, from)
}

// A node with all below it: its record, and behind it its children, where it says that it has any. Counterpart: the part of
// the loop that ends in `set_child`; its stack is the cycle of calls here.
#[cycle(check_kids_check_node)]
fn check_node(tree: &[u8], level: Level, least: usize, path: usize, from: Mark) -> Answer<Mark>
    requires { Place tree.now level.0 path from }
    ensures { NodeChecked tree.now level.0 least path from result }
{
    test_record(tree, level, least, path, from)?;
    let at = from.at;
    let len = usize::from(tree[at + 1]);
    let past = Mark {
        at: at + 4 + len,
        left: from.left - has_number(tree[at]),
        nodes: from.nodes + 1,
    };
    if !has_child(tree[at]) {
        return Ok(past);
    }
    check_kids(tree, Level(level.0 + 1), path + len, past)
}

// A list of siblings: a node, and behind it the next sibling, where it says that it has one. Counterpart: the part that ends
// in `set_sibling`.
#[cycle(check_kids_check_node)]
fn check_kids(tree: &[u8], level: Level, path: usize, from: Mark) -> Answer<Mark>
    requires { Place tree.now level.0 path from }
    ensures { KidsChecked tree.now level.0 0 path from result }
{
    let mut least = 0;
    let mut m = from;
    loop {
        let at = m.at;
        let next = check_node(tree, level, least, path, m)?;
        if !has_sibling(tree[at]) {
            return Ok(next);
        }
        least = usize::from(tree[at + 4]) + 1;
        m = next;
    }
}

// The tests of the root's record: its level is 0, it has no label and no sibling.
fn test_root(tree: &[u8], numbers: usize) -> Answer<()>
    ensures { found_of result ≡ judge (count_rules tree.now numbers 0 0 0 0) }
{
    if tree.len() < 4 {
        return Err(Refusal::CutShort(0));
    }
    if !flags_sound(tree[0], Level(0)) {
        return Err(Refusal::FlagByte(0));
    }
    if level_at(tree, 0).0 != 0 {
        return Err(Refusal::WrongLevel(0));
    }
    if tree[1] > 0 {
        return Err(Refusal::LabelLength(0));
    }
    if numbers < has_number(tree[0]) {
        return Err(Refusal::NumberCount(0));
    }
    Ok(())
}

// The root with all below it.
fn check_root(tree: &[u8], numbers: usize) -> Answer<Mark>
    ensures { RootChecked tree.now numbers result }
{
    test_root(tree, numbers)?;
    let past = Mark {
        at: 4,
        left: numbers - has_number(tree[0]),
        nodes: 1,
    };
    if !has_child(tree[0]) {
        return Ok(past);
    }
    check_kids(tree, Level(1), 0, past)
}

// The check of a whole image with so many numbers, for a pool of so many slots.
pub fn check(tree: &[u8], numbers: usize, slots: usize) -> Answer<usize>
    ensures { CheckedAs tree.now numbers slots result }
{
    let end = check_root(tree, numbers)?;
    if end.at < tree.len() {
        return Err(Refusal::BytesLeft(end.at));
    }
    if end.left > 0 {
        return Err(Refusal::NumberCount(tree.len()));
    }
    if end.nodes > slots {
        return Err(Refusal::NoRoom);
    }
    Ok(end.nodes)
}

// Reads an image into a pool, of which only the lengths are tested: old contents don't matter. With any number but 0 no lent
// byte or word has changed. Counterpart: `KeyAndNode::deserialize`.
pub fn read(labels: &mut [u8], words: &mut [u32], tree: &[u8], numbers: &[u64]) -> Answer<()>
    ensures { let was = lent labels.old words.old in
        ReadAllows tree.now numbers.now result was (lent labels.new words.new) }
{
    let slots = slots_of(labels, words).ok_or(Refusal::NotPool)?;
    check(tree, numbers.len(), slots)?;
    fill::fill_tree(labels, words, tree, numbers);
    Ok(())
}
