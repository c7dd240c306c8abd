// A key, a query or a prefix that has passed its test: whoever holds one need not ask again how long it is.
ghost use Rattle.tree.specs.Told.{KeyOf};

use crate::{Answer, KEY_MAX, Refusal};
use std::marker::Model;

// At most 4,096 bytes. A contract sees the bytes.
#[derive(Drop)]
pub struct Key<'a> {
    pub bytes: &'a [u8],
}

impl<'a> Model for Key<'a> {
    ghost use Rattle.std.specs.Prelude.{List, ℕ, ◌≤◌, length};
    ghost use Rattle.tree.specs.Key.{key_max};

    ghost Value = { List ℕ };

    ghost view = { λ k. k.bytes.now };

    ghost invariant = { λ k. length k.bytes.now ≤ key_max };
}

impl<'a> Key<'a> {
    pub fn new(bytes: &'a [u8]) -> Answer<Key<'a>>
        ensures { KeyOf bytes.now result }
    {
        if bytes.len() > KEY_MAX {
            return Err(Refusal::TooLong);
        }
        Ok(Key { bytes })
    }
}
