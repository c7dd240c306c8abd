// A pool that has passed its test, lent to be read: whoever holds one need not test again.
ghost use Rattle.pool.specs.Lent.{lent};
ghost use Rattle.pool.specs.Whole.{PoolOf};

use crate::tested;
use std::marker::Model;
use tree::Answer;

// The rule holds of the two slices, which nobody can change as long as they are lent. A contract sees what they hold.
#[derive(Drop)]
pub struct Pool<'a> {
    pub labels: &'a [u8],
    pub words: &'a [u32],
}

impl<'a> Model for Pool<'a> {
    ghost use Rattle.pool.specs.Lent.{Lent, lent};
    ghost use Rattle.pool.specs.Whole.{Whole};

    ghost Value = { Lent };

    ghost view = { λ p. lent p.labels.now p.words.now };

    ghost invariant = { λ p. Whole (lent p.labels.now p.words.now) };
}

impl<'a> Pool<'a> {
    pub fn new(labels: &'a [u8], words: &'a [u32]) -> Answer<Pool<'a>>
        ensures { PoolOf (lent labels.now words.now) result }
    {
        tested(labels, words)?;
        Ok(Pool { labels, words })
    }
}
