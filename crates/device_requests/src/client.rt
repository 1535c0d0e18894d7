//! The part of a device that management requests read and modify.

ghost use Rattle.std.specs.Prelude.{◌≡◌, ◌≢◌, ◌↔◌, false, true, length, Err, IfOk, IsErrOf, IsFalse, IsTrue, OnOk};
ghost use Rattle.std.specs.Prelude.{OnErr};
ghost use Rattle.std.specs.Prelude.{None, Some};
ghost use Rattle.instance_store.specs.Stored.{has_instance, value_at};
ghost use Rattle.device_requests.specs.Client.{has_account, with_stored};
ghost use Rattle.std.specs.FinMap as map;
ghost use Rattle.std.specs.Option.{is_some, unwrap_or};
ghost use Rattle.device_template.specs.Values.{instance_at, is_one_too_many, with_value_at};
ghost use Rattle.device_firmware.specs.Firmware.{firmware_after, is_ready};
ghost use Rattle.device_firmware.specs.declared.event.FirmwareEvent.TheVariants.{Ended};

use device_firmware::{FirmwareEvent, take};
use instance_store::{Store, StoreFault};
use lwm2m_values::Value;
use notifier::Attributes;
use object_defs::{Catalog, FullPath, Path};
use std::alloc::{AllocError, Global};
use std::marker::Model;

/// The part of a device that management requests read and modify: the servers' accounts, the objects' definitions,
/// instances and values, the attributes that servers set, and how the device notifies.
pub struct Client {
    pub(crate) accounts: Vec<u16>,
    pub(crate) catalog: Catalog,
    pub(crate) store: Store,
    pub(crate) attributes: Attributes,
    pub(crate) notify: u8,
    pub(crate) alloc: Global,
}

/// By hand, so that a caller's proof has one step where it is dropped, and no case for each of its parts.
impl Drop for Client {
    fn drop(self) {
        let Client {
            accounts: _accounts,
            catalog: _catalog,
            store: _store,
            attributes: _attributes,
            notify: _,
            alloc: _,
        } = self;
    }
}

impl Model for Client {
    ghost use Rattle.std.specs.Coded.{codes};
    ghost use Rattle.instance_store.specs.Stored.{stored_code};
    ghost use Rattle.device_requests.specs.Client.{Client, attributes_code};

    ghost Value = { Client };

    ghost coded = { Prim.hlevel (codes, stored_code, attributes_code) };

    ghost view = { λ c. record {
      accounts = c.accounts.items;
      catalog = c.catalog;
      store = c.store;
      attributes = c.attributes;
      notify = c.notify;
    } };
}

impl Client {
    /// Data of these accounts, definitions and values, with no attribute set. `notify` is 0 if notifications are
    /// Non-confirmable; otherwise how many seconds the device waits for the Ack of a Confirmable one before it sends
    /// that again for the first time.
    pub fn new(
        alloc: Global,
        accounts: Vec<u16>,
        catalog: Catalog,
        store: Store,
        notify: u8,
    ) -> Client
        ensures { result ≡ record {
          accounts = accounts.items;
          catalog = catalog;
          store = store;
          attributes = map.empty;
          notify = notify;
        } }
    {
        Client {
            accounts,
            catalog,
            store,
            attributes: Attributes::new(alloc),
            notify,
            alloc,
        }
    }

    /// A copy, which equals its source.
    pub fn copy(&self) -> Result<Client, AllocError>
        ensures { IfOk result (λ c. c ≡ self.now) }
    {
        Ok(Client {
            accounts: self.accounts.clone()?,
            catalog: self.catalog.copy()?,
            store: self.store.copy()?,
            attributes: self.attributes.copy()?,
            notify: self.notify,
            alloc: self.alloc,
        })
    }

    /// The definitions of the objects.
    pub fn catalog(&self) -> &Catalog
        ensures { result.now ≡ self.now.catalog }
    {
        &self.catalog
    }

    /// The values and instances.
    pub fn store(&self) -> &Store
        ensures { result.now ≡ self.now.store }
    {
        &self.store
    }

    /// The attributes that servers set.
    pub fn attributes(&self) -> &Attributes
        ensures { result.now ≡ self.now.attributes }
    {
        &self.attributes
    }

    /// How it notifies: 0 for Non-confirmable notifications, else how many seconds it waits for the Ack of a
    /// Confirmable one before it sends that again for the first time.
    pub fn notify(&self) -> u8
        ensures { result ≡ self.now.notify }
    {
        self.notify
    }

    /// Whether a server has an account.
    pub fn has_account(&self, server: u16) -> bool
        ensures { result ≡ has_account self.now server }
    {
        self.accounts.iter().any(|account| *account == server)
    }

    /// How many servers have an account.
    pub(crate) fn account_count(&self) -> usize
        ensures { result ≡ length self.now.accounts }
    {
        self.accounts.len()
    }

    /// Puts a value at a full path, past the rights of servers. Only a path without a value takes memory.
    pub fn put(&mut self, path: FullPath, value: Value) -> Result<(), StoreFault>
        ensures ok { OnOk result (self.new ≡ with_stored self.old (with_value_at self.old.store (Some path) value)) }
        ensures absent { IsErrOf result StoreFault.Absent ↔ IsFalse (has_instance self.old.store (instance_at path)) }
        ensures full { IsErrOf result StoreFault.Full
            ↔ (IsTrue (has_instance self.old.store (instance_at path)) × IsTrue (is_one_too_many self.old.store path)) }
        ensures never_exists { result ≢ Err StoreFault.Exists }
        ensures may_lack_memory { IsErrOf result StoreFault.Memory → value_at self.old.store path ≡ None }
        ensures err { OnErr result (self.new ≡ self.old) }
    {
        device_template::put(&mut self.store, path, value)
    }

    /// Ends a download or an update of the firmware with this code, past the rights of servers, and returns whether
    /// there is one that it ends. An allocation can fail only for one that it ends, and only if State and Update Result
    /// are not both held.
    pub fn end_firmware(&mut self, code: u8) -> Result<bool, AllocError>
        ensures ended { IfOk result (λ b. b ≡ is_some (firmware_after self.old.store (Ended code))) }
        ensures change { OnOk result (self.new ≡ with_stored self.old
            (unwrap_or (firmware_after self.old.store (Ended code)) self.old.store)) }

        // It takes memory only if there is one, and State and Update Result are not both held.
        ensures taken { OnErr result (is_some (firmware_after self.old.store (Ended code)) ≡ true) }
        ensures may_lack_memory { OnErr result (is_ready self.old.store (Ended code) ≡ false) }
    {
        take(self.alloc, &mut self.store, FirmwareEvent::Ended(code))
    }
}
