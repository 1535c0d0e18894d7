ghost use Rattle.std.specs.Prelude.{◌≡◌, ◌<◌, ◌++◌, ◌∷◌, ◌↔◌, [], length, is_some, true, IsTrue, OnOk, OnErr};
ghost use Rattle.coap_codec.specs.Options.{number_option};

use crate::number::uint_bytes;
use octets::Bytes;
use std::alloc::{AllocError, Global};
use std::marker::Model;
use std::{mem, slice};

/// An option: its number and its value (RFC 7252 section 5.4).
#[derive(Drop)]
pub struct Opt {
    pub number: u16,
    pub value: Bytes,
}

/// The options of a message, in the order in which they stand.
///
/// Contracts see the list of the options.
pub struct Options {
    alloc: Global,
    items: Items,
}

/// By hand, so that a caller's proof has one step where it is dropped, and no case for each of its parts.
impl Drop for Options {
    fn drop(self) {
        let Options {
            alloc: _,
            items: _items,
        } = self;
    }
}

/// One option, or a list of others.
#[derive(Drop)]
enum Items {
    One(Opt),
    Listed(Vec<Opt>),
}

impl Model for Options {
    ghost use Rattle.std.specs.Prelude.{List};
    ghost use Rattle.coap_codec.specs.declared.option.Opt.{Opt};

    ghost Value = { List Opt };

    ghost use Rattle.coap_codec.specs.OptionItems.{items_of};

    ghost view = { λ o. items_of o.items };
}

impl Options {
    /// No option.
    pub fn new(alloc: Global) -> Options
        ensures { result ≡ [] }
    {
        Options {
            alloc,
            items: Items::Listed(Vec::new(alloc)),
        }
    }

    /// The options of a vector, which keeps its memory.
    pub fn from_vec(items: Vec<Opt>) -> Options
        ensures { result ≡ items.items }
    {
        Options {
            alloc: *items.allocator(),
            items: Items::Listed(items),
        }
    }

    /// The memory of the list, without an option.
    pub(crate) fn into_spare(self) -> Vec<Opt>
        ensures { result.items ≡ [] }
    {
        let Options { alloc, items } = self;
        match items {
            Items::One(_) => Vec::new(alloc),
            Items::Listed(items) => {
                let mut spare = items;
                spare.clear();
                spare
            }
        }
    }

    /// One more option, after the others. The first takes no memory.
    pub fn push(&mut self, option: Opt) -> Result<(), AllocError>
        ensures ok { OnOk result (self.new ≡ self.old ++ option ∷ []) }
        ensures err { OnErr result (self.new ≡ self.old) }
        ensures may_lack_memory { OnErr result (0 < length self.old) }
    {
        match &mut self.items {
            Items::Listed(items) => {
                if !items.is_empty() {
                    items.push(option)?;
                    return Ok(());
                }
            }
            Items::One(_) => {
                let mut items = Vec::with_capacity(self.alloc, 4)?;
                match mem::replace(&mut self.items, Items::Listed(Vec::new(self.alloc))) {
                    Items::One(first) => items.push(first)?,
                    Items::Listed(_) => {}
                }
                items.push(option)?;
                self.items = Items::Listed(items);
                return Ok(());
            }
        }
        self.items = Items::One(option);
        Ok(())
    }

    /// One more option, whose value is this number in the fewest bytes, after the others; or none.
    pub fn push_number(
        &mut self,
        alloc: Global,
        number: u16,
        value: Option<u32>,
    ) -> Result<(), AllocError>
        ensures ok { OnOk result (self.new ≡ self.old ++ number_option number value) }
        ensures err { OnErr result (self.new ≡ self.old) }
        ensures may_lack_memory { OnErr result (is_some value ≡ true) }
        ensures further { OnErr result (0 < length self.old) }
    {
        let Some(value) = value else {
            return Ok(());
        };
        let value = uint_bytes(alloc, value)?;
        self.push(Opt { number, value })
    }

    /// Like `push_number`, for a number of 16 bits.
    pub fn push_short_number(
        &mut self,
        alloc: Global,
        number: u16,
        value: Option<u16>,
    ) -> Result<(), AllocError>
        ensures ok { OnOk result (self.new ≡ self.old ++ number_option number value) }
        ensures err { OnErr result (self.new ≡ self.old) }
        ensures may_lack_memory { OnErr result (is_some value ≡ true) }
        ensures further { OnErr result (0 < length self.old) }
    {
        let Some(value) = value else {
            return Ok(());
        };
        self.push_number(alloc, number, Some(u32::from(value)))
    }

    /// The options.
    pub fn as_slice(&self) -> &[Opt]
        ensures { result.now ≡ self.now }
    {
        match &self.items {
            Items::One(option) => slice::from_ref(option),
            Items::Listed(items) => items.as_slice(),
        }
    }

    /// How many options there are.
    pub fn len(&self) -> usize
        ensures { result ≡ length self.now }
    {
        self.as_slice().len()
    }

    /// Whether there is no option.
    pub fn is_empty(&self) -> bool
        ensures { IsTrue result ↔ (length self.now ≡ 0) }
    {
        self.as_slice().is_empty()
    }
}
