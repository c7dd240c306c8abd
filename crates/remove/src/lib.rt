// Remove: the key is looked up, its number is taken away, and the way back up is tidied. An absent key tidies nothing.
// Counterpart: `remove` of the Rust.
#![tactic(auto)]

ghost use Rattle.pool.specs.Lent.{lent};
ghost use Rattle.search.specs.Landing.{Descends};
ghost use Rattle.remove.specs.Found.{Found};
ghost use Rattle.remove.specs.Post.{RemoveAllows};

use pool::Pool;
use search::{Descent, Stop};
use slots::put::stored_at;
use tree::{Answer, Got, Key, Looked, Refusal, Slot};

// The key ends at the slot: its number is taken, if there is one.
fn take_number(labels: &mut [u8], words: &mut [u32], at: Slot, looked: Looked) -> Answer<Got>
    requires { Found words.old labels.old at.0 looked.0 }
    ensures { let was = lent labels.old words.old in
        let is = lent labels.new words.new in
        ((x : Found was.words was.labels at.0 looked.0) → RemoveAllows x.key result was is) }
{
    match stored_at(words, at) {
        None => Err(Refusal::NotFound(looked)),
        Some(number) => {
            splice::alter::drop_number(words, at);
            tidy::tidy(labels, words, at);
            Ok(Got { number, looked })
        }
    }
}

// Takes the number where the search for the key has ended.
fn remove_in(labels: &mut [u8], words: &mut [u32], d: Descent, key: &[u8]) -> Answer<Got>
    requires { Descends (lent labels.old words.old) key.now d }
    ensures { RemoveAllows key.now result (lent labels.old words.old) (lent labels.new words.new) }
{
    let at = d.at;
    let looked = d.looked;
    match d.stop {
        Stop::Root | Stop::Same => take_number(labels, words, at, looked),
        // The key ends inside a label.
        Stop::Inside(_) => Err(Refusal::NotFound(looked)),
        // No label goes on as it does.
        Stop::Gap | Stop::Fork(_) => Err(Refusal::NotFound(looked)),
    }
}

// Takes the key out, and gives its number.
pub fn remove(labels: &mut [u8], words: &mut [u32], key: &[u8]) -> Answer<Got>
    ensures { RemoveAllows key.now result (lent labels.old words.old) (lent labels.new words.new) }
{
    let pool = Pool::new(labels, words)?;
    let tested = Key::new(key)?;
    let d = search::descend(&pool, &tested);
    remove_in(labels, words, d, key)
}
