ghost use Rattle.std.specs.Prelude.{◌≡◌, ◌==◌, nat_lt, length, position, [], IfOk, OnOk, OnErr};
ghost use Rattle.std.specs.List.{list_any, position_or_len};
ghost use Rattle.object_defs.specs.Vendor.{with_inserted};

use std::alloc::{AllocError, Global};
use std::marker::Model;

/// The Short Server IDs of a class's accounts, by ascending number. Contracts see their list.
#[derive(Clone)]
pub(crate) struct Accounts {
    items: Vec<u16>,
}

/// By hand, so that a caller's proof has one step where it is dropped, and no case for each of its parts.
impl Drop for Accounts {
    fn drop(self) {
        let Accounts { items: _items } = self;
    }
}

impl Model for Accounts {
    ghost use Rattle.std.specs.Prelude.{ℕ, List};

    ghost Value = { List ℕ };

    ghost view = { λ a. a.items.items };
}

impl Accounts {
    /// No account.
    pub(crate) fn new(alloc: Global) -> Accounts
        ensures { result ≡ [] }
    {
        Accounts {
            items: Vec::new(alloc),
        }
    }

    /// The accounts.
    pub(crate) fn as_slice(&self) -> &[u16]
        ensures { result.now ≡ self.now }
    {
        self.items.as_slice()
    }

    /// The accounts, copied.
    pub(crate) fn to_vec(&self) -> Result<Vec<u16>, AllocError>
        ensures { IfOk result (λ v. v.items ≡ self.now) }
    {
        self.items.clone()
    }

    /// How many accounts there are.
    pub(crate) fn len(&self) -> usize
        ensures { result ≡ length self.now }
    {
        self.items.len()
    }

    /// Whether there is the account.
    pub(crate) fn contains(&self, server: u16) -> bool
        ensures { result ≡ list_any (λ account. account == server) self.now }
    {
        self.items.iter().any(|account| *account == server)
    }

    /// The place of the first account of a higher number.
    fn first_above(&self, server: u16) -> Option<usize>
        ensures { result ≡ position (λ a. nat_lt server a) self.now }
    {
        self.items.iter().position(|a| *a > server)
    }

    /// The place of an account that is not there yet: before the first of a higher number.
    #[tactic(auto, using(object_defs::proofs::Inserting::place_or_end))]
    fn place_for(&self, server: u16) -> usize
        ensures { result ≡ position_or_len (λ a. nat_lt server a) self.now }
    {
        let above = self.first_above(server);
        above.unwrap_or(self.items.len())
    }

    /// Adds an account in the order of the numbers.
    pub(crate) fn insert(&mut self, server: u16) -> Result<(), AllocError>
        ensures ok { OnOk result (self.new ≡ with_inserted (λ a. a) server self.old) }
        ensures unchanged { OnErr result (self.new ≡ self.old) }
    {
        let place = self.place_for(server);
        self.items.insert(place, server)?;
        Ok(())
    }
}
