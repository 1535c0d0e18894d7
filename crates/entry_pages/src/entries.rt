//! The entries of a trace, one by one.

ghost use Rattle.std.specs.Iterator.{YieldsFirstRef, item_count};

use std::marker::Model;
use trace_file::Entry;

/// Goes over entries, from the first to the last. Contracts see those that are left.
#[derive(Drop)]
pub struct EntryIter<'a> {
    /// Those that are left of a page.
    pub(crate) page: &'a [Entry],
    /// The full pages after it.
    pub(crate) full: &'a [Vec<Entry>],
    /// Those that are left of the last page, which comes after these.
    pub(crate) last: &'a [Entry],
}

impl<'a> Model for EntryIter<'a> {
    ghost use Rattle.std.specs.Prelude.{List, ◌++◌};
    ghost use Rattle.std.specs.List.{AllByRecursion};
    ghost use Rattle.trace_file.specs.declared.entry.Entry.{Entry};
    ghost use Rattle.entry_pages.specs.Pages.{entries_in, IsFullPage};

    ghost Value = { List Entry };

    ghost view = { λ i. i.page.now ++ (entries_in i.full.now ++ i.last.now) };

    ghost invariant = { λ i. AllByRecursion IsFullPage i.full.now };
}

impl<'a> Iterator for EntryIter<'a> {
    type Item = &'a Entry;

    ghost next_gives = { YieldsFirstRef (λ i. i) };

    ghost remaining = { item_count (λ i. i) };

    fn next(&mut self) -> Option<&'a Entry> {
        if let Some((first, left)) = self.page.split_first() {
            self.page = left;
            return Some(first);
        }
        if let Some((page, full)) = self.full.split_first() {
            let (first, left) = page.as_slice().split_first()?;
            self.page = left;
            self.full = full;
            return Some(first);
        }
        let (first, left) = self.last.split_first()?;
        self.last = left;
        Some(first)
    }
}
