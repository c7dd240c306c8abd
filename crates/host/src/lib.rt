// The store as a C program calls it: one function a call, which `host_c` exports. Each hands its call's answer on as document
// 01's number, and the values besides through the results that the caller lends. `include/yarnhollow.h` is what a C program
// reads. A stored number is a `RuleNo` inside; only the edge to C has plain 64 bits.
#![tactic(auto)]

ghost use Rattle.std.specs.Prelude.{◌≡◌, [], ◌∷◌};
ghost use Rattle.tree.specs.Calls.{make_call, clear_call, get_call, insert_call, remove_call, longest_call, shared_call};
ghost use Rattle.tree.specs.Calls.{split_call, counts_call, read_call};
ghost use Rattle.pool.specs.Lent.{lent, tree_in, size_in, room_in};
ghost use Rattle.host.specs.Host.{over, over_last, over_flagged, Returns, Changes, Splits};
ghost use Rattle.host.specs.Host.{last_given, NextGiven, Written};
ghost use Rattle.host.specs.Resumed.{Resumes};

use tree::RuleNo;
use walk::Walk;

mod results;

pub fn yarnhollow_make(labels: &mut [u8], words: &mut [u32]) -> u32
    ensures { let was = lent labels.old words.old in
        Changes over (make_call (size_in was)) result [] [] was (lent labels.new words.new) }
{
    tree::number(&pool::make(labels, words))
}

pub fn yarnhollow_clear(labels: &mut [u8], words: &mut [u32]) -> u32
    ensures { let was = lent labels.old words.old in
        Changes over (clear_call (tree_in was)) result [] [] was (lent labels.new words.new) }
{
    tree::number(&pool::clear(labels, words))
}

pub fn yarnhollow_get(
    labels: &[u8],
    words: &[u32],
    key: &[u8],
    number: &mut u64,
    looked: &mut usize,
) -> u32
    ensures { let t = tree_in (lent labels.now words.now) in
        let results = number.old ∷ looked.old ∷ [] in
        let results' = number.new ∷ looked.new ∷ [] in
        Returns over_last (get_call t key.now) result results results' }
{
    let answer = search::get(labels, words, key);
    results::store_got(answer, number, looked);
    tree::number(&answer)
}

pub fn yarnhollow_insert(
    labels: &mut [u8],
    words: &mut [u32],
    key: &[u8],
    number: u64,
    had_old: &mut u32,
    old: &mut u64,
    looked: &mut usize,
) -> u32
    ensures { let was = lent labels.old words.old in
        let call = insert_call (tree_in was) (room_in was) key.now number in
        let results = had_old.old ∷ old.old ∷ looked.old ∷ [] in
        let results' = had_old.new ∷ old.new ∷ looked.new ∷ [] in
        Changes over_flagged call result results results' was (lent labels.new words.new) }
{
    let answer = insert::insert(labels, words, key, RuleNo(number));
    results::store_inserted(answer, had_old, old, looked);
    tree::number(&answer)
}

pub fn yarnhollow_remove(
    labels: &mut [u8],
    words: &mut [u32],
    key: &[u8],
    old: &mut u64,
    looked: &mut usize,
) -> u32
    ensures { let was = lent labels.old words.old in
        let call = remove_call (tree_in was) key.now in
        let results = old.old ∷ looked.old ∷ [] in
        let results' = old.new ∷ looked.new ∷ [] in
        Changes over_last call result results results' was (lent labels.new words.new) }
{
    let answer = remove::remove(labels, words, key);
    results::store_got(answer, old, looked);
    tree::number(&answer)
}

pub fn yarnhollow_longest(
    labels: &[u8],
    words: &[u32],
    query: &[u8],
    prefix_length: &mut usize,
    number: &mut u64,
    looked: &mut usize,
) -> u32
    ensures { let t = tree_in (lent labels.now words.now) in
        let results = prefix_length.old ∷ number.old ∷ looked.old ∷ [] in
        let results' = prefix_length.new ∷ number.new ∷ looked.new ∷ [] in
        Returns over_last (longest_call t query.now) result results results' }
{
    let answer = search::longest(labels, words, query);
    results::store_prefixed(answer, prefix_length, number, looked);
    tree::number(&answer)
}

pub fn yarnhollow_shared(
    labels: &[u8],
    words: &[u32],
    query: &[u8],
    shared_length: &mut usize,
    looked: &mut usize,
) -> u32
    ensures { let t = tree_in (lent labels.now words.now) in
        let results = shared_length.old ∷ looked.old ∷ [] in
        let results' = shared_length.new ∷ looked.new ∷ [] in
        Returns over_last (shared_call t query.now) result results results' }
{
    let answer = search::shared(labels, words, query);
    results::store_sharing(answer, shared_length, looked);
    tree::number(&answer)
}

// The walk that the lent state stands for.
fn resumed(prefix: &[u8], last: &[u8], begun: u32) -> Walk
    ensures { Resumes prefix.now (last_given begun last.now) result }
{
    let fresh = Walk::new(prefix);
    if begun == 0 {
        return fresh;
    }
    fresh.after(last)
}

// The walk's step, its state lent as plain slices and a number: with `begun` 0 no key has been given, and `last` does not count.
pub fn yarnhollow_next(
    labels: &[u8],
    words: &[u32],
    prefix: &[u8],
    last: &[u8],
    begun: u32,
    out: &mut [u8],
    key_length: &mut usize,
    number: &mut u64,
) -> u32
    ensures { let t = tree_in (lent labels.now words.now) in
        let l = last_given begun last.now in
        let results = key_length.old ∷ number.old ∷ [] in
        let results' = key_length.new ∷ number.new ∷ [] in
        NextGiven t prefix.now l result results results' out.old out.new }
{
    let step = resumed(prefix, last, begun).step(labels, words, out);
    let answer = step.answer;
    results::store_stepped(answer, key_length, number);
    tree::number(&answer)
}

pub fn yarnhollow_split(
    labels: &mut [u8],
    words: &mut [u32],
    prefix: &[u8],
    labels2: &mut [u8],
    words2: &mut [u32],
) -> u32
    ensures { let was = lent labels.old words.old in
        let was₂ = lent labels2.old words2.old in
        let call = split_call (tree_in was) (size_in was₂) prefix.now in
        Splits call result was was₂ (lent labels.new words.new) (lent labels2.new words2.new) }
{
    tree::number(&split::split(labels, words, prefix, labels2, words2))
}

pub fn yarnhollow_counts(labels: &[u8], words: &[u32], keys: &mut usize, nodes: &mut usize) -> u32
    ensures { let t = tree_in (lent labels.now words.now) in
        let results = keys.old ∷ nodes.old ∷ [] in
        let results' = keys.new ∷ nodes.new ∷ [] in
        Returns over (counts_call t) result results results' }
{
    let answer = pool::counts(labels, words);
    results::store_counted(answer, keys, nodes);
    tree::number(&answer)
}

pub fn yarnhollow_write(
    labels: &[u8],
    words: &[u32],
    tree: &mut [u8],
    numbers: &mut [u64],
    tree_length: &mut usize,
    numbers_length: &mut usize,
) -> u32
    ensures { let t = tree_in (lent labels.now words.now) in
        let results = tree_length.old ∷ numbers_length.old ∷ [] in
        let results' = tree_length.new ∷ numbers_length.new ∷ [] in
        let s = tree.old in
        Written t result results results' s numbers.old tree.new numbers.new }
{
    let answer = writer::write(labels, words, tree, numbers);
    results::store_written(answer, tree_length, numbers_length);
    tree::number(&answer)
}

pub fn yarnhollow_read(
    labels: &mut [u8],
    words: &mut [u32],
    tree: &[u8],
    numbers: &[u64],
    offset: &mut usize,
) -> u32
    ensures { let was = lent labels.old words.old in
        let call = read_call (size_in was) tree.now numbers.now in
        Changes over call result (offset.old ∷ []) (offset.new ∷ []) was (lent labels.new words.new) }
{
    let answer = reader::read(labels, words, tree, numbers);
    results::store_loaded(answer, offset);
    tree::number(&answer)
}
