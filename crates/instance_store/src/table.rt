ghost use Rattle.std.specs.Prelude.{◌≡◌, ◌<◌, not, None, Some, OnOk, OnErr, IfOk, IsErr, slice_get};
ghost use Rattle.std.specs.Option.{option_copied, option_copied_mut};
ghost use Rattle.std.specs.List.Sorted.{IsStrictlyIncreasing};
ghost use Rattle.std.specs.FinMap as map;
ghost use Rattle.std.specs.Borrow.{sem};
ghost use Rattle.instance_store.specs.Table.{index_in};

use std::alloc::{AllocError, Global};
use std::marker::Model;

/// Items by their numbers, which are kept in ascending order.
#[derive(Clone, Drop)]
pub(crate) struct Table<T> {
    numbers: Vec<u16>,
    items: Vec<T>,
}

impl<T> Model for Table<T> {
    ghost use Rattle.std.specs.Coded.{coded_ℕ};
    ghost use Rattle.std.specs.FinMap as map;
    ghost use Rattle.instance_store.specs.Table.{TableOf, table_of, IsTable};

    ghost Value = { TableOf T };

    ghost coded = { map.code coded_ℕ T.code };

    ghost view = { λ t. table_of t.numbers.items t.items.items };

    ghost invariant = { λ t. IsTable t.numbers.items t.items.items };
}

/// The index of a number, or the number of numbers where it is none of them.
fn index_of(numbers: &[u16], number: u16) -> usize
    requires { IsStrictlyIncreasing numbers.now }
    ensures { result ≡ index_in numbers.now number }
{
    match numbers.binary_search(&number) {
        Ok(index) => index,
        Err(_) => numbers.len(),
    }
}

impl<T> Table<T> {
    ghost use Rattle.instance_store.specs.Lends.{lends_item};

    /// No item.
    pub(crate) fn new(alloc: Global) -> Table<T>
        ensures { result ≡ map.empty }
    {
        Table {
            numbers: Vec::new(alloc),
            items: Vec::new(alloc),
        }
    }

    /// How many items there are.
    pub(crate) fn len(&self) -> usize
        ensures { result ≡ map.len self.now }
    {
        self.numbers().len()
    }

    /// The numbers, ascending.
    pub(crate) fn numbers(&self) -> &[u16]
        ensures { result.now ≡ map.keys self.now }
    {
        self.numbers.as_slice()
    }

    /// The items, in the order of their numbers.
    pub(crate) fn items(&self) -> &[T]
        ensures { result.now ≡ map.values self.now }
    {
        self.items.as_slice()
    }

    /// The number and the item at an index, in the order of the numbers.
    pub(crate) fn entry(&self, index: usize) -> (u16, &T)
        requires { index < map.len self.now }
        ensures { slice_get (map.entries self.now) index ≡ Some (result.0, result.1.now) }
    {
        let numbers = self.numbers();
        let items = self.items();
        (numbers[index], &items[index])
    }

    /// The item of a number.
    pub(crate) fn get(&self, number: u16) -> Option<&T>
        ensures { option_copied result ≡ map.get self.now number }
    {
        let index = index_of(&self.numbers, number);
        self.items.get(index)
    }

    /// The item of a number, for writing.
    pub(crate) fn get_mut(&mut self, number: u16) -> Option<&mut T>
        ensures* writes_back { sem 𝓛 (lends_item T.row self.entry number result) }
        ensures value { option_copied_mut result ≡ map.get self.old number }
    {
        let index = index_of(&self.numbers, number);
        self.items.get_mut(index)
    }
}

impl<T: Drop> Table<T> {
    /// Sets the item of a number, and returns whether it had none. It takes memory only then.
    #[inline(never)]
    pub(crate) fn insert(&mut self, number: u16, item: T) -> Result<bool, AllocError>
        ensures ok { OnOk result (self.new ≡ map.insert self.old number item) }
        ensures added { IfOk result (λ added. added ≡ not (map.contains_key self.old number)) }
        ensures may_lack_memory { IsErr result → map.get self.old number ≡ None }
        ensures err { OnErr result (self.new ≡ self.old) }
    {
        match self.numbers.binary_search(&number) {
            Ok(index) => {
                self.items[index] = item;
                Ok(false)
            }
            Err(index) => {
                self.numbers.reserve(1)?;
                self.items.insert(index, item)?;
                match self.numbers.insert(index, number) {
                    Ok(()) => Ok(true),
                    Err(_) => unreachable!(),
                }
            }
        }
    }

    /// Removes the item of a number, if there is one.
    pub(crate) fn remove(&mut self, number: u16)
        ensures { self.new ≡ map.remove self.old number }
    {
        match self.numbers.binary_search(&number) {
            Ok(index) => {
                self.numbers.remove(index);
                self.items.remove(index);
            }
            Err(_) => {}
        }
    }
}
