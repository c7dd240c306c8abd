// For the benchmark alone: lookups without the test of the pool, which no public call gives, and the shared length of
// two runs, by steps of eight and by the plain loop.
#![tactic(auto)]

ghost use Rattle.std.specs.Prelude.{◌≡◌};
ghost use Rattle.tree.specs.Key.{common};
ghost use Rattle.tree.specs.Calls.{get_call};
ghost use Rattle.pool.specs.Lent.{lent, tree_in};
ghost use Rattle.search.specs.Post.{GetAllows};

use pool::Pool;
use tree::{Answer, Got, Key};

// One get with the test, and then so many without it.
fn gets(labels: &[u8], words: &[u32], key: &[u8], times: usize) -> Answer<Got>
    ensures { GetAllows key.now result (lent labels.now words.now) }
{
    let pool = Pool::new(labels, words)?;
    let tested = Key::new(key)?;
    let mut last = search::get_in(&pool, &tested);
    for _ in 0..times {
        last = search::get_in(&pool, &tested);
    }
    last
}

// The number of the last.
#[unsafe(no_mangle)]
pub extern "C" fn probe_gets(labels: &[u8], words: &[u32], key: &[u8], times: usize) -> u32
    ensures { result ≡ (get_call (tree_in (lent labels.now words.now)) key.now).number }
{
    tree::number(&gets(labels, words, key, times))
}

// How many leading bytes two runs share, as the store counts them.
#[unsafe(no_mangle)]
pub extern "C" fn probe_shared(k: &[u8], l: &[u8]) -> usize
    ensures { result ≡ common k.now l.now }
{
    label::shared_length(k, l)
}

// The same by the plain loop alone, as the store counted them before: what the other is measured against.
#[unsafe(no_mangle)]
pub extern "C" fn probe_shared_singly(k: &[u8], l: &[u8]) -> usize
    ensures { result ≡ common k.now l.now }
{
    label::shared_singly(k, l, 0)
}
