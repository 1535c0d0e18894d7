ghost use Rattle.std.specs.Prelude.{◌≡◌, ◌+◌, ◌*◌, ◌<◌, ◌≤◌, ◌++◌, ◌∷◌, [], length, vec_capacity, IfOk, IfErr, OnOk};
ghost use Rattle.std.specs.Prelude.{OnErr};
ghost use Rattle.entry_pages.specs.Pages.{IsSparePage};

use crate::entries::EntryIter;
use std::alloc::{AllocError, Global};
use std::marker::Model;
use std::mem;
use trace_file::Entry;

/// How many entries a page has.
pub const PAGE: usize = 256;

/// Entries in pages of 256. The memory of a page is allocated with it, so that no entry moves when others are added.
/// The list that a job brings its entries in becomes a page once it is empty. Contracts see the entries, in order, and
/// how many more there is room for.
#[derive(Drop)]
pub struct Pages {
    alloc: Global,
    /// The pages before the last one, which are full.
    full: Vec<Vec<Entry>>,
    last: Vec<Entry>,
    /// Empty pages for the entries to come. Each has a place in `full`.
    spare: Vec<Vec<Entry>>,
    /// Empty pages that jobs left, for other jobs, and for `spare`.
    left: Vec<Vec<Entry>>,
}

impl Model for Pages {
    ghost use Rattle.std.specs.Prelude.{◌+◌, ◌-◌, ◌*◌, ◌++◌, length, vec_capacity};
    ghost use Rattle.std.specs.List.{AllByRecursion};
    ghost use Rattle.entry_pages.specs.Pages.{PagesModel, ArePages, IsSparePage, entries_in};

    ghost Value = { PagesModel };

    ghost view = { λ p. record {
      held = entries_in p.full.items ++ p.last.items;
      room = (256 - length p.last.items) + 256 * length p.spare.items;
    } };

    ghost invariant = { λ p. ArePages p.full.items (vec_capacity p.full) p.last p.spare.items
        × AllByRecursion IsSparePage p.left.items };
}

impl Pages {
    /// No entries, and a page for the first ones.
    pub fn new(alloc: Global) -> Result<Pages, AllocError>
        ensures { IfOk result (λ p. p.held ≡ []) }
    {
        let last = Vec::with_capacity(alloc, PAGE)?;
        Ok(Pages {
            alloc,
            full: Vec::new(alloc),
            last,
            spare: Vec::new(alloc),
            left: Vec::new(alloc),
        })
    }

    /// The entries, in order.
    pub fn iter(&self) -> EntryIter<'_>
        ensures { result ≡ self.now.held }
    {
        EntryIter {
            page: &[],
            full: self.full.as_slice(),
            last: self.last.as_slice(),
        }
    }

    /// An empty page: one that a job left, or a new one.
    fn empty_page(&mut self) -> Result<Vec<Entry>, AllocError>
        ensures same { self.new ≡ self.old }
        ensures page { IfOk result IsSparePage }
    {
        if self.left.is_empty() {
            return Vec::with_capacity(self.alloc, PAGE);
        }
        Ok(self.left.take_last())
    }

    /// Adds a spare page.
    fn add_page(&mut self) -> Result<(), AllocError>
        ensures held { self.new.held ≡ self.old.held }
        ensures room { OnOk result (self.new.room ≡ self.old.room + 256) }
    {
        let page = self.empty_page()?;
        self.full.reserve(self.spare.len() + 1)?;
        self.spare.push(page)?;
        Ok(())
    }

    /// Adds this many spare pages.
    fn add_pages(&mut self, count: usize) -> Result<(), AllocError>
        ensures held { self.new.held ≡ self.old.held }
        ensures room { OnOk result (self.new.room ≡ self.old.room + 256 * count) }
    {
        for _added in 0..count {
            self.add_page()?;
        }
        Ok(())
    }

    /// Makes room for this many entries more.
    fn make_room(&mut self, more: usize) -> Result<(), AllocError>
        ensures held { self.new.held ≡ self.old.held }
        ensures room { OnOk result (more ≤ self.new.room) }
    {
        let wanted = more.saturating_sub(PAGE - self.last.len()).div_ceil(PAGE);
        let spare = self.spare.len();
        self.add_pages(wanted.saturating_sub(spare))
    }

    /// Puts an entry after the others.
    fn push(&mut self, entry: Entry)
        requires { 0 < self.old.room }
        ensures held { self.new.held ≡ self.old.held ++ entry ∷ [] }
        ensures room { self.new.room + 1 ≡ self.old.room }
    {
        if self.last.len() < PAGE {
            self.last.push_reserved(entry);
            return;
        }
        let mut page = self.spare.take_last();
        page.push_reserved(entry);
        let full = mem::replace(&mut self.last, page);
        self.full.push_reserved(full);
    }

    /// Moves these entries after the others, into the last page and into new ones.
    fn append_pages(&mut self, block: Vec<Entry>) -> Result<(), (Vec<Entry>, AllocError)>
        ensures held { OnOk result (self.new.held ≡ self.old.held ++ block.items) }
        ensures back { IfErr result (λ e. e.0.items ≡ block.items) }
        ensures unchanged { OnErr result (self.new.held ≡ self.old.held) }
    {
        match self.make_room(block.len()) {
            Ok(()) => {}
            Err(AllocError) => return Err((block, AllocError)),
        }
        for entry in block {
            self.push(entry);
        }
        Ok(())
    }

    /// A place for the list of one job more, once it is empty.
    fn make_place(&mut self) -> Result<(), AllocError>
        ensures { self.new ≡ self.old }
    {
        self.left.reserve(1)
    }

    /// Keeps an empty list for another job, if it has the memory for a page, and there is a place for it.
    fn keep(&mut self, list: Vec<Entry>)
        requires { list.items ≡ [] }
        ensures { self.new ≡ self.old }
    {
        if PAGE <= list.capacity() && self.left.len() < self.left.capacity() {
            self.left.push_reserved(list);
        }
    }

    /// An empty list for the entries of a job: a page that another one left. The last of these stays for the entries to
    /// come, so then, and where there is none, it is a list without memory.
    pub fn list_for_job(&mut self) -> Vec<Entry>
        ensures same { self.new ≡ self.old }
        ensures empty { result.items ≡ [] }
    {
        if self.left.len() < 2 {
            return Vec::new(self.alloc);
        }
        self.left.take_last()
    }

    /// Moves these entries after the others. Without memory for a page, or for a place for the list, they come back,
    /// and the others are unchanged.
    pub fn append(&mut self, mut block: Vec<Entry>) -> Result<(), (Vec<Entry>, AllocError)>
        ensures held { OnOk result (self.new.held ≡ self.old.held ++ block.items) }
        ensures back { IfErr result (λ e. e.0.items ≡ block.items) }
        ensures unchanged { OnErr result (self.new.held ≡ self.old.held) }
    {
        match self.make_place() {
            Ok(()) => {}
            Err(fault) => return Err((block, fault)),
        }
        if PAGE - self.last.len() < block.len() {
            return self.append_pages(block);
        }
        gather(&mut self.last, &mut block);
        self.keep(block);
        Ok(())
    }

    /// An empty vector with room for all entries.
    fn vector_for_all(&self) -> Result<Vec<Entry>, AllocError>
        ensures empty { IfOk result (λ v. v.items ≡ []) }
        ensures room { IfOk result (λ v. length self.now.held ≤ vec_capacity v) }
    {
        let before = self.full.len().saturating_mul(PAGE);
        Vec::with_capacity(self.alloc, before.saturating_add(self.last.len()))
    }

    /// All entries in one vector. Without memory for it the pages come back.
    pub fn into_vec(self) -> Result<Vec<Entry>, (Pages, AllocError)>
        ensures ok { IfOk result (λ v. v.items ≡ self.held) }
        ensures back { IfErr result (λ e. e.0 ≡ self) }
    {
        let mut gathered = match self.vector_for_all() {
            Ok(gathered) => gathered,
            Err(fault) => return Err((self, fault)),
        };
        let Pages {
            alloc: _,
            full,
            mut last,
            spare,
            left,
        } = self;
        drop(spare);
        drop(left);
        for mut page in full {
            gather(&mut gathered, &mut page);
        }
        gather(&mut gathered, &mut last);
        Ok(gathered)
    }
}

/// Moves the entries of a page after those of a vector that has room for them.
fn gather(gathered: &mut Vec<Entry>, page: &mut Vec<Entry>)
    requires { length gathered.old.items + length page.old.items ≤ vec_capacity gathered.old }
    ensures items { gathered.new.items ≡ gathered.old.items ++ page.old.items }
    ensures capacity { vec_capacity gathered.old ≤ vec_capacity gathered.new }
    ensures empty { page.new.items ≡ [] }
{
    match gathered.append(page) {
        Ok(()) => {}
        Err(_) => unreachable!(),
    }
}
