//! A list of numbers, each with the worker that added it.
use std::alloc::{AllocError, Global};
use std::marker::Model;
use ticket_lock::Logged;

/// Contracts see it as the list of pairs of a worker and a number.
#[derive(Drop)]
pub struct Items {
    list: Vec<(u16, u64)>,
}

impl Model for Items {
    ghost use Rattle.std.specs.Prelude.{List, ℕ};

    ghost Value = { List (ℕ × ℕ) };

    ghost view = { λ s. s.list.items };
}

impl Logged for Items {
    ghost use Rattle.ticket_lock_uses.specs.Items.{items_log};

    type Entry = (u16, u64);

    type Subject = ();

    type Work = ();

    ghost log = { items_log };
}

impl Items {
    ghost use Rattle.std.specs.Prelude.{◌≡◌, [], ◌∷◌, ◌++◌, length, OnOk, OnErr};

    pub fn new(alloc: Global) -> Items
        ensures { result ≡ [] }
    {
        Items {
            list: Vec::new(alloc),
        }
    }

    pub fn as_slice(&self) -> &[(u16, u64)]
        ensures { result.now ≡ self.now }
    {
        self.list.as_slice()
    }

    /// Drops all items. A holder of the lock that did so could not give the list back.
    pub fn clear(&mut self)
        ensures { self.new ≡ [] }
    {
        self.list.clear();
    }

    pub fn push(&mut self, worker: u16, number: u64) -> Result<(), AllocError>
        ensures ok { OnOk result (self.new ≡ self.old ++ (worker, number) ∷ []) }
        ensures err { OnErr result (self.new ≡ self.old) }
    {
        self.list.push((worker, number))?;
        Ok(())
    }
}
