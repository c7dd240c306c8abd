// Insert: the key is looked up, and the tree grows where the search has come to, by a leaf, a cut or both. A splice moves
// each record behind the place once, with its span; then the spans of the ancestors grow. Counterparts: `insert`, `split_at`
// and `new` of the Rust.
#![tactic(auto)]

ghost use Rattle.std.specs.Prelude.{◌≡◌, true, false, List, [], ◌∷◌, ℕ, ◌+◌, ◌*◌, ◌≤◌, ◌<◌, length, Ok};
ghost use Rattle.std.proofs.Math.Option.{some};
ghost use Rattle.tree.specs.Image.{numbers_w};
ghost use Rattle.tree.specs.Told.{done, inserted_told};
ghost use Rattle.pool.specs.Lent.{lent};
ghost use Rattle.slots.specs.Layout.{words_for, nodes_of, len_of, span_of, num_at};
ghost use Rattle.pool.specs.Rule.{Within, PoolRule};
ghost use Rattle.slots.specs.Bare.{bare_at, front_of, back_of};
ghost use Rattle.splice.specs.Spans.{Loose};
ghost use Rattle.search.specs.Landing.{Descends};
ghost use Rattle.insert.specs.Post.{InsertAllows};
ghost use Rattle.insert.specs.Splices.{leaf_nodes, KeyLeft, new_nodes, leaf_bares, Built, Grows, Opens, Cuts};
ghost use Rattle.insert.specs.Splices.{Replaced, set_bares, fork_side, fork_was, Placed};
ghost use Rattle.insert.specs.Forked.{ForkDue, fork_of, side_of};

use pool::Pool;
use search::{Descent, Stop};
use slots::put::{keep_back, keep_front, put_linked, stored_at};
use tree::{Answer, Inserted, Key, LABEL_MAX, Looked, Refusal, RuleNo, Slot};

// A new leaf: how many bytes of the path are above it, what is left of its key, and its number.
#[derive(Clone, Copy)]
struct Leaf<'a> {
    start: usize,
    rest: &'a [u8],
    number: RuleNo,
}

// A key that forks off inside a label: the slot, behind how many bytes of its label, what is left of the key, and its number. Of
// the pool n slots are in use, and k new ones come.
#[derive(Clone, Copy)]
struct Fork<'a> {
    at: Slot,
    m: usize,
    rest: &'a [u8],
    number: RuleNo,
    n: usize,
    k: usize,
}

// How many nodes a new label of `len` bytes takes.
fn chain_nodes(len: usize) -> usize
    requires { 1 ≤ len }
    ensures { result ≡ leaf_nodes len }
{
    (len - 1) / LABEL_MAX + 1
}

// How many slots a key of `len` bytes takes where its search has ended: none to set a number.
fn new_nodes(stop: Stop, above: usize, len: usize) -> usize
    requires { KeyLeft stop above len }
    ensures { (result ≡ new_nodes stop above len) × (result ≤ len + 1) }
{
    match stop {
        Stop::Root | Stop::Same => 0,
        Stop::Gap => chain_nodes(len - above),
        Stop::Inside(_) => 1,
        Stop::Fork(m) => {
            let from = above + m;
            1 + chain_nodes(len - from)
        }
    }
}

// Fills the slots from `at` on with a new leaf: a label over 255 bytes becomes 255 bytes without a number, over the rest
// treated again in that way. It takes the leaf by its parts: with a `Leaf` of its own lent to the next call, each 255 bytes of the
// key cost a frame, and by parts the compiler makes a loop of it. Counterpart: `new`.
fn chain(labels: &mut [u8], words: &mut [u32], at: Slot, start: usize, rest: &[u8], number: RuleNo)
    requires { let l = rest.now in
        Within words.old labels.old (at.0 + leaf_nodes (length l)) × (1 ≤ length l) × (start + length l ≤ 4096) }
    ensures { let ws = words.old in
        let bs = labels.old in
        let vs = words.new in
        let cs = labels.new in
        Built ws bs vs cs at.0 (leaf_bares start rest.now number.0) }
{
    if rest.len() <= LABEL_MAX {
        put_linked(labels, words, at, start, rest, Some(number), 1);
        return;
    }
    let span = chain_nodes(rest.len());
    put_linked(labels, words, at, start, &rest[0..LABEL_MAX], None, span);
    let next = at.0 + 1;
    chain(
        labels,
        words,
        Slot(next),
        start + LABEL_MAX,
        &rest[LABEL_MAX..],
        number,
    );
}

// Cuts the label of the slot behind m bytes, with a new leaf before the lower part. Of the n slots in use those behind move
// up by k.
fn fork_before(labels: &mut [u8], words: &mut [u32], fork: &Fork<'_>)
    requires { ForkDue words.old labels.old fork.now }
    ensures { let ws = words.old in
        let bs = labels.old in
        let vs = words.new in
        let cs = labels.new in
        let x = fork.now in
        Replaced ws bs vs cs x.at.0 1 (fork_of ws bs x true) × Loose vs (x.n + x.k) (x.at.0 + 1) x.k 0 }
{
    let at = fork.at;
    let m = fork.m;
    let k = fork.k;
    let start = slots::start_at(words, at) + m;
    let next = at.0 + 1;
    let lower = at.0 + k;
    splice::move_slots(labels, words, at, Slot(fork.n), k);
    keep_front(words, at, m, None);
    chain(labels, words, Slot(next), start, fork.rest, fork.number);
    keep_back(labels, words, Slot(lower), m);
}

// The same, with the new leaf behind the lower part and its subtree, which end at `end`.
fn fork_behind(labels: &mut [u8], words: &mut [u32], fork: &Fork<'_>)
    requires { ForkDue words.old labels.old fork.now }
    ensures { let ws = words.old in
        let bs = labels.old in
        let vs = words.new in
        let cs = labels.new in
        let x = fork.now in
        Replaced ws bs vs cs x.at.0 (span_of ws x.at.0) (fork_of ws bs x false) × Loose vs (x.n + x.k) (x.at.0 + 1) x.k 0 }
{
    let at = fork.at;
    let m = fork.m;
    let start = slots::start_at(words, at) + m;
    let lower = at.0 + 1;
    let end = at.0 + slots::span_at(words, at);
    splice::move_slots(labels, words, Slot(end), Slot(fork.n), fork.k);
    splice::move_slots(labels, words, at, Slot(end), 1);
    keep_front(words, at, m, None);
    keep_back(labels, words, Slot(lower), m);
    chain(labels, words, Slot(end + 1), start, fork.rest, fork.number);
}

// Whether the first byte of `rest` is below the byte of the slot's label behind its first m.
fn byte_below(labels: &[u8], words: &[u32], at: Slot, m: usize, rest: &[u8]) -> bool
    requires { let ws = words.now in
        let i = at.0 in
        Within ws labels.now (i + 1) × (m < len_of ws i) × (len_of ws i ≤ 255) × (1 ≤ length rest.now) }
    ensures { result ≡ fork_side words.now labels.now at.0 m rest.now }
{
    let label = slots::label_at(labels, words, at);
    let new = rest[0];
    let old = label[m];
    new < old
}

// Cuts the label of the slot behind m bytes, with a new leaf beside the lower part, in the order of their first bytes.
fn fork_label(labels: &mut [u8], words: &mut [u32], fork: &Fork<'_>)
    requires { ForkDue words.old labels.old fork.now }
    ensures { let ws = words.old in
        let bs = labels.old in
        let vs = words.new in
        let cs = labels.new in
        let x = fork.now in
        let side = side_of ws bs x in
        Replaced ws bs vs cs x.at.0 (fork_was ws x.at.0 side) (fork_of ws bs x side) × Loose vs (x.n + x.k) (x.at.0 + 1) x.k 0 }
{
    if byte_below(labels, words, fork.at, fork.m, fork.rest) {
        fork_before(labels, words, fork);
        return;
    }
    fork_behind(labels, words, fork);
}

// The key ends at the slot: its number is set, and the old one given back. No span changes.
fn set_number(words: &mut [u32], at: Slot, number: RuleNo, looked: Looked) -> Inserted
    requires { let ws = words.old in
        (words_for (nodes_of ws) ≤ length ws) × (at.0 < nodes_of ws) × (len_of ws at.0 ≤ 255) }
    ensures placed { let ws = words.old in
        let vs = words.new in
        ((bs : List ℕ) → PoolRule ws bs → Placed ws bs vs bs at.0 1 (set_bares ws bs at.0 number.0)) }
    ensures told { let old = num_at words.old at.0 in
        inserted_told (Ok result) ≡ done (numbers_w old (looked.0 ∷ [])) }
{
    let len = slots::len_at(words, at);
    let old = stored_at(words, at);
    keep_front(words, at, len, Some(number));
    Inserted { old, looked }
}

// No node begins with the key's next byte: a new leaf of k nodes stands at the slot. Of the n slots in use those behind move
// up, the leaf is built in the gap, and the spans of its ancestors grow.
fn add_leaf(labels: &mut [u8], words: &mut [u32], at: Slot, n: usize, k: usize, leaf: &Leaf<'_>)
    requires { let ws = words.old in
        let bs = labels.old in
        let l = leaf.now.rest.now in
        Grows ws bs n k × Opens ws bs at.0 leaf.now.start l × (k ≡ leaf_nodes (length l)) }
    ensures { let was = lent labels.old words.old in
        let is = lent labels.new words.new in
        let new = leaf_bares leaf.now.start leaf.now.rest.now leaf.now.number.0 in
        Placed was.words was.labels is.words is.labels at.0 0 new }
{
    splice::move_slots(labels, words, at, Slot(n), k);
    chain(labels, words, at, leaf.start, leaf.rest, leaf.number);
    splice::settle_at(words, n + k, at, k);
}

// The key ends inside the slot's label, which is cut there, behind m bytes: the upper part gets the number, the lower part
// keeps what was there. Counterpart: `split_at`.
fn add_cut(labels: &mut [u8], words: &mut [u32], at: Slot, n: usize, m: usize, number: RuleNo)
    requires { Grows words.old labels.old n 1 × Cuts words.old at.0 m × PoolRule words.old labels.old }
    ensures { let was = lent labels.old words.old in
        let is = lent labels.new words.new in
        let cut = bare_at was.words was.labels at.0 in
        let parts = front_of m (some number.0) cut ∷ back_of m cut ∷ [] in
        Placed was.words was.labels is.words is.labels at.0 1 parts }
{
    let lower = at.0 + 1;
    splice::move_slots(labels, words, at, Slot(n), 1);
    keep_front(words, at, m, Some(number));
    keep_back(labels, words, Slot(lower), m);
    splice::settle_at(words, n + 1, Slot(lower), 1);
}

// The key forks off inside the slot's label, behind m bytes: the cut and a new leaf are k nodes.
fn add_fork(labels: &mut [u8], words: &mut [u32], fork: &Fork<'_>)
    requires { ForkDue words.old labels.old fork.now }
    ensures { let was = lent labels.old words.old in
        let is = lent labels.new words.new in
        let x = fork.now in
        let side = side_of was.words was.labels x in
        let parts = fork_of was.words was.labels x side in
        Placed was.words was.labels is.words is.labels x.at.0 (fork_was was.words x.at.0 side) parts }
{
    let n = fork.n;
    let k = fork.k;
    let below = fork.at.0 + 1;
    fork_label(labels, words, fork);
    splice::settle_at(words, n + k, Slot(below), k);
}

// Stores the number where the search for the key has ended. Of the pool n slots are in use, and there is room for the k new
// ones.
fn place(
    labels: &mut [u8],
    words: &mut [u32],
    d: Descent,
    n: usize,
    k: usize,
    key: &[u8],
    number: RuleNo,
) -> Inserted
    requires { let ws = words.old in
        let bs = labels.old in
        Descends (lent bs ws) key.now d × Grows ws bs n k × (k ≡ new_nodes d.stop d.above (length key.now)) }
    ensures { InsertAllows key.now number.0 (Ok result) (lent labels.old words.old) (lent labels.new words.new) }
{
    let at = d.at;
    let above = d.above;
    let looked = d.looked;
    match d.stop {
        Stop::Root | Stop::Same => return set_number(words, at, number, looked),
        Stop::Gap => {
            let leaf = Leaf {
                start: above,
                rest: &key[above..],
                number,
            };
            add_leaf(labels, words, at, n, k, &leaf);
        }
        Stop::Inside(m) => add_cut(labels, words, at, n, m, number),
        Stop::Fork(m) => {
            let from = above + m;
            let fork = Fork {
                at,
                m,
                rest: &key[from..],
                number,
                n,
                k,
            };
            add_fork(labels, words, &fork);
        }
    }
    Inserted { old: None, looked }
}

// Stores the number where the search for the key has ended. The search comes first, so that setting a stored number never needs
// room; the room is tested before anything is written.
fn insert_in(
    labels: &mut [u8],
    words: &mut [u32],
    d: Descent,
    key: &[u8],
    number: RuleNo,
) -> Answer<Inserted>
    requires { Descends (lent labels.old words.old) key.now d }
    ensures { InsertAllows key.now number.0 result (lent labels.old words.old) (lent labels.new words.new) }
{
    let n = slots::nodes_in(words);
    let k = new_nodes(d.stop, d.above, key.len());
    if n + k > slots::slots_in(labels) {
        return Err(Refusal::NoRoom);
    }
    Ok(place(labels, words, d, n, k, key, number))
}

// Stores the number at the key, and gives the old one, if any. Counterpart: `insert`.
pub fn insert(labels: &mut [u8], words: &mut [u32], key: &[u8], number: RuleNo) -> Answer<Inserted>
    ensures { InsertAllows key.now number.0 result (lent labels.old words.old) (lent labels.new words.new) }
{
    let pool = Pool::new(labels, words)?;
    let tested = Key::new(key)?;
    let d = search::descend(&pool, &tested);
    insert_in(labels, words, d, key, number)
}
