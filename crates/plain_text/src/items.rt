// A list that contracts see as one.
ghost use Rattle.std.specs.Prelude.{◌≡◌, ◌↔◌, IsTrue};

use crate::plain::Same;
use std::alloc::AllocError;
use std::marker::Model;

/// A list, which contracts see as one.
#[derive(Debug, Drop)]
pub struct Items<T> {
    items: Vec<T>,
}

impl<T> Model for Items<T> {
    ghost use Rattle.std.specs.Prelude.{List};

    ghost Value = { List T };

    ghost view = { λ l. l.items.items };
}

impl<T> Items<T> {
    pub fn as_slice(&self) -> &[T]
        ensures { result.now ≡ self.now }
    {
        self.items.as_slice()
    }

    /// Gives the items back without copying them.
    pub fn into_vec(self) -> Vec<T>
        ensures { result.items ≡ self }
    {
        let Items { items } = self;
        items
    }
}

impl<T: Clone> Clone for Items<T> {
    ghost use Rattle.std.specs.List.{AllZip};

    ghost is_clone = { λ original copy. AllZip T.is_clone original copy };

    fn clone(&self) -> Result<Items<T>, AllocError> {
        Ok(Items {
            items: self.items.clone()?,
        })
    }
}

impl<T: Same> Items<T> {
    pub fn same(&self, other: &Items<T>) -> bool
        ensures { IsTrue result ↔ (self.now ≡ other.now) }
    {
        let (mine, others) = (self.as_slice(), other.as_slice());
        if mine.len() != others.len() {
            return false;
        }
        for i in 0..mine.len() {
            if !mine[i].same(&others[i]) {
                return false;
            }
        }
        true
    }
}

/// Takes no memory.
impl<T> From<Vec<T>> for Items<T> {
    ghost use Rattle.std.specs.Prelude.{◌≡◌};

    ghost from_gives = { λ items result. result ≡ items.items };

    fn from(items: Vec<T>) -> Items<T> {
        Items { items }
    }
}
