//! A `Vec` that contracts see as the list of its items.
ghost use Rattle.std.specs.Prelude.{◌≡◌, ◌≤◌, ◌-◌, ◌↔◌, [], ◌∷◌, ◌++◌, length, take, drop, IsTrue, OnOk, OnErr};
ghost use Rattle.pm_list.specs.Ends.{OnLast};

use std::alloc::{AllocError, Global};
use std::marker::Model;

/// Items in order. A contract sees the list alone, and nothing of the memory that holds it.
#[derive(Drop, Debug)]
pub struct Listed<T> {
    items: Vec<T>,
}

impl<T> Model for Listed<T> {
    ghost use Rattle.std.specs.Prelude.{List};
    ghost use Rattle.std.specs.Coded.{coded_list};

    ghost Value = { List T };

    ghost coded = { coded_list T.code };

    ghost view = { λ l. l.items.items };
}

impl<T> Listed<T> {
    /// The empty list. It takes no memory until an item comes.
    pub fn new(alloc: Global) -> Listed<T>
        ensures { result ≡ [] }
    {
        Listed {
            items: Vec::new(alloc),
        }
    }

    /// The items of `items`, in their order. It takes no memory.
    pub fn from_vec(items: Vec<T>) -> Listed<T>
        ensures { result ≡ items.items }
    {
        Listed { items }
    }

    /// The items as a `Vec`, in their order. It takes no memory.
    pub fn into_vec(self) -> Vec<T>
        ensures { result.items ≡ self }
    {
        let Listed { items } = self;
        items
    }

    /// The items, lent as a slice.
    pub fn as_slice(&self) -> &[T]
        ensures { result.now ≡ self.now }
    {
        self.items.as_slice()
    }

    /// The number of items.
    pub fn len(&self) -> usize
        ensures { result ≡ length self.now }
    {
        self.items.len()
    }

    /// Whether there is no item.
    pub fn is_empty(&self) -> bool
        ensures { IsTrue result ↔ (self.now ≡ []) }
    {
        self.items.is_empty()
    }

    /// Puts `item` after the last one. Out of memory, the list stays as it was, and the item is dropped.
    pub fn push(&mut self, item: T) -> Result<(), AllocError>
    where
        T: Drop,
        ensures ok { OnOk result (self.new ≡ self.old ++ item ∷ []) }
        ensures err { OnErr result (self.new ≡ self.old) }
    {
        self.items.push(item)?;
        Ok(())
    }

    /// Puts the items of `other` after the last one, in their order. Out of memory, the list stays as it was, and
    /// the items of `other` are dropped.
    pub fn append(&mut self, other: Listed<T>) -> Result<(), AllocError>
    where
        T: Drop,
        ensures ok { OnOk result (self.new ≡ self.old ++ other) }
        ensures err { OnErr result (self.new ≡ self.old) }
    {
        let Listed { items: mut more } = other;
        self.items.append(&mut more)?;
        Ok(())
    }

    /// Puts the items of `other` in place of the last `count`, in their order. Out of memory, the list stays as it was,
    /// and the items of `other` are dropped.
    pub fn replace_last(&mut self, count: usize, other: Listed<T>) -> Result<(), AllocError>
    where
        T: Drop,
        requires { count ≤ length self.old }
        ensures ok { OnOk result (self.new ≡ take (length self.old - count) self.old ++ other) }
        ensures err { OnErr result (self.new ≡ self.old) }
    {
        let Listed { items: mut more } = other;
        let kept = self.items.len() - count;
        self.items.reserve(more.len())?;
        self.items.truncate(kept);
        self.items.append(&mut more)
    }

    /// Takes the last item out; None where there is none. It takes no memory.
    pub fn pop(&mut self) -> Option<T>
        ensures { OnLast self.old result self.new }
    {
        self.items.pop()
    }

    /// Lets all items but the first `count` go.
    pub fn truncate(&mut self, count: usize)
    where
        T: Drop,
        ensures { self.new ≡ take count self.old }
    {
        self.items.truncate(count);
    }

    /// Lets the first `count` items go. The rest keep their order.
    pub fn drop_front(&mut self, count: usize)
    where
        T: Drop,
        requires { count ≤ length self.old }
        ensures { self.new ≡ drop count self.old }
    {
        let rest = self.items.len() - count;
        self.items.rotate_left(count);
        self.items.truncate(rest);
    }

    /// Lets all items go.
    pub fn clear(&mut self)
    where
        T: Drop,
        ensures { self.new ≡ [] }
    {
        self.items.clear();
    }
}
