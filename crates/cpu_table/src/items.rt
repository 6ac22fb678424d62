ghost use Rattle.std.specs.Prelude.{◌≡◌, ◌↔◌, [], IsTrue, length};
ghost use Rattle.std.specs.Slice.Iter.{iter_rest};

use std::alloc::AllocError;
use std::marker::Model;
use std::slice;

/// A list that a contract sees as its items alone, so that two lists can be compared.
#[derive(Drop)]
pub struct Items<T> {
    items: Vec<T>,
}

impl<T> Model for Items<T> {
    ghost use Rattle.std.specs.Prelude.{List};

    ghost Value = { List T };

    ghost view = { λ list. list.items.items };
}

impl<T> Items<T> {
    /// The items of `items` in their order.
    pub fn new(items: Vec<T>) -> Self
        ensures { result ≡ items.items }
    {
        Items { items }
    }

    pub fn len(&self) -> usize
        ensures { result ≡ length self.now }
    {
        self.items.len()
    }

    pub fn is_empty(&self) -> bool
        ensures { IsTrue result ↔ (self.now ≡ []) }
    {
        self.items.is_empty()
    }

    pub fn as_slice(&self) -> &[T]
        ensures { result.now ≡ self.now }
    {
        self.items.as_slice()
    }

    pub fn iter(&self) -> slice::Iter<'_, T>
        ensures { iter_rest result ≡ self.now }
    {
        self.items.iter()
    }
}

impl<'a, T> IntoIterator for &'a Items<T> {
    type Item = &'a T;

    type IntoIter = slice::Iter<'a, T>;

    ghost into_iter_gives = { λ list it. iter_rest it ≡ list.now };

    fn into_iter(self) -> Self::IntoIter {
        self.iter()
    }
}

/// The copy has a copy of each item, in the same order.
impl<T: Clone> Clone for Items<T> {
    ghost use Rattle.std.specs.List.{AllZip};

    ghost is_clone = { λ list copy. AllZip T.is_clone list copy };

    fn clone(&self) -> Result<Self, AllocError> {
        Ok(Items {
            items: self.items.clone()?,
        })
    }
}
