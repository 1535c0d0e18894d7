ghost use Rattle.std.specs.Prelude.{◌≡◌, ◌≢◌, ◌==◌, [], true, false, IfOk, IfErr, OnOk, OnErr, None, Some, Ok, Err};
ghost use Rattle.std.specs.List.Sorted.{IsStrictlyIncreasing};
ghost use Rattle.instance_store.specs.Stored.{empty, has_instance, with_instance, with_value};
ghost use Rattle.object_defs.specs.Path.{full_path};
ghost use Rattle.device_template.specs.Template.{account_fault, definition_fault, empty_class, instance_fault};
ghost use Rattle.device_template.specs.Template.{is_notify, kind_taken, may_stand, notify_fault, object_fault};
ghost use Rattle.device_template.specs.Template.{value_fault, value_fault_at};
ghost use Rattle.device_template.specs.Template.{with_account, with_catalog, with_idle_firmware, with_notify};
ghost use Rattle.device_template.specs.Template.{with_store};
ghost use Rattle.device_template.specs.Built.{IsBuilt, IsShort};
ghost use Rattle.lwm2m_values.specs.Value.{IsGood};
ghost use Rattle.device_template.specs.Values.{has_kind, instance_at, is_one_too_many, with_value_at};
ghost use Rattle.lwm2m_values.specs.Value.{has_good_length};
ghost use Rattle.lwm2m_values.specs.declared.kind.ValueKind.{ValueKind};
ghost use Rattle.lwm2m_values.specs.declared.value.Value.{Value};
ghost use Rattle.object_defs.specs.Vendor.{with_object, with_resource};

use crate::accounts::Accounts;
use crate::fault::TemplateFault;
use crate::firmware::set_firmware_idle;
use crate::values::{fits, has_all_parts, has_place, plain, put};
use instance_store::{Store, StoreFault};
use lwm2m_values::{Value, ValueKind};
use object_defs::object_number::{DEVICE, FIRMWARE_UPDATE, SECURITY};
use object_defs::{Catalog, FullPath, InstancePath, Path, ResourceDef};
use std::alloc::{AllocError, Global};
use std::marker::Model;

/// How many values a class may have.
const MOST_VALUES: usize = 65535;

/// How many accounts a class may have.
const MOST_ACCOUNTS: usize = 4;

/// What a device starts from: its accounts, the objects that it knows, its instances and values, and how it notifies.
/// Contracts see the record of these.
///
/// A refused call changes nothing.
pub struct Template {
    accounts: Accounts,
    catalog: Catalog,
    store: Store,
    notify: u8,
    alloc: Global,
}

/// By hand, so that a caller's proof has one step where it is dropped, and no case for each of its parts.
impl Drop for Template {
    fn drop(self) {
        let Template {
            accounts: _accounts,
            catalog: _catalog,
            store: _store,
            notify: _,
            alloc: _,
        } = self;
    }
}

impl Model for Template {
    ghost use Rattle.std.specs.Coded.{codes};
    ghost use Rattle.instance_store.specs.Stored.{stored_code};
    ghost use Rattle.device_template.specs.Built.{IsBuilt};
    ghost use Rattle.device_template.specs.Template.{Template};

    ghost Value = { Template };

    ghost coded = { Prim.hlevel (codes, stored_code) };

    ghost view = { λ t. record { accounts = t.accounts; catalog = t.catalog; store = t.store; notify = t.notify } };

    ghost invariant = { λ t. IsBuilt (record {
      accounts = t.accounts;
      catalog = t.catalog;
      store = t.store;
      notify = t.notify;
    }) };
}

/// Whether a class may have an instance of these numbers.
fn may_stand(place: InstancePath) -> bool
    ensures { result ≡ may_stand place }
{
    if place.object == SECURITY || place.instance > 65534 {
        return false;
    }
    if place.object == DEVICE || place.object == FIRMWARE_UPDATE {
        return place.instance == 0;
    }
    true
}

/// Whether a class may notify so.
fn is_notify(seconds: u8) -> bool
    ensures { result ≡ is_notify seconds }
{
    seconds == 0 || seconds == 2 || seconds == 3
}

impl Template {
    /// A template with no account, no instance and no value, which knows the base objects. Its devices send
    /// Non-confirmable notifications.
    pub fn new(alloc: Global) -> Result<Template, AllocError>
        ensures { IfOk result (λ t. t ≡ empty_class) }
    {
        Ok(Template {
            accounts: Accounts::new(alloc),
            catalog: Catalog::base(alloc)?,
            store: Store::new(alloc),
            notify: 0,
            alloc,
        })
    }

    /// A copy, which equals its source.
    pub fn copy(&self) -> Result<Template, AllocError>
        ensures { IfOk result (λ t. t ≡ self.now) }
    {
        Ok(Template {
            accounts: self.accounts.clone()?,
            catalog: self.catalog.copy()?,
            store: self.store.copy()?,
            notify: self.notify,
            alloc: self.alloc,
        })
    }

    fn account_fault(&self, server: u16) -> Option<TemplateFault>
        ensures { result ≡ account_fault self.now server }
    {
        if server < 1 || server > 65534 {
            return Some(TemplateFault::Range);
        }
        if self.accounts.contains(server) {
            return Some(TemplateFault::Duplicate);
        }
        if self.accounts.len() >= MOST_ACCOUNTS {
            return Some(TemplateFault::Full);
        }
        None
    }

    /// Adds the account of a server, by its Short Server ID from 1 to 65534.
    ///
    /// `Range`, then `Duplicate`, then `Full`: a class has at most 4 accounts.
    pub fn add_account(&mut self, server: u16) -> Result<(), TemplateFault>
        ensures added { OnOk result (self.new ≡ with_account self.old server) }
        ensures refused { IfErr result (λ f. f ≢ TemplateFault.Memory → account_fault self.old server ≡ Some f) }
        ensures refuses { (f : TemplateFault) → account_fault self.old server ≡ Some f → result ≡ Err f }
        ensures unchanged { OnErr result (self.new ≡ self.old) }
    {
        if let Some(fault) = self.account_fault(server) {
            return Err(fault);
        }
        self.accounts.insert(server)?;
        Ok(())
    }

    fn instance_fault(&self, place: InstancePath) -> Option<TemplateFault>
        ensures { result ≡ instance_fault self.now place }
    {
        if !may_stand(place) {
            return Some(TemplateFault::Range);
        }
        if self.catalog.object(place.object).is_none() {
            return Some(TemplateFault::Missing);
        }
        if self.store.has_instance(place) {
            return Some(TemplateFault::Duplicate);
        }
        if self.store.instances(place.object).len() >= 64 {
            return Some(TemplateFault::Full);
        }
        None
    }

    /// Adds an object of the class's own, a vendor's, that has no resource yet.
    ///
    /// `Range` (a number outside 10241 to 32768), then `Duplicate`, then `Full` (11 such objects).
    pub fn add_object(&mut self, id: u16) -> Result<(), TemplateFault>
        ensures added { OnOk result (self.new ≡ with_catalog self.old (with_object self.old.catalog id)) }
        ensures refused { IfErr result (λ f. f ≢ TemplateFault.Memory → object_fault self.old id ≡ Some f) }
        ensures refuses { (f : TemplateFault) → object_fault self.old id ≡ Some f → result ≡ Err f }
        ensures unchanged { OnErr result (self.new ≡ self.old) }
    {
        self.catalog.add_vendor(id)?;
        Ok(())
    }

    /// Adds a resource to an object of the class's own.
    ///
    /// `Range` (no such object of the class's own, or an executable resource that is multiple or of another kind than
    /// Text), then `Duplicate`, then `Full` (64 resources of the object).
    pub fn add_resource(
        &mut self,
        object: u16,
        definition: ResourceDef,
    ) -> Result<(), TemplateFault>
        ensures added { OnOk result (self.new ≡ with_catalog self.old
            (with_resource self.old.catalog object definition)) }
        ensures refused { IfErr result (λ f. f ≢ TemplateFault.Memory
            → definition_fault self.old object definition ≡ Some f) }
        ensures refuses { (f : TemplateFault) → definition_fault self.old object definition ≡ Some f → result ≡ Err f }
        ensures unchanged { OnErr result (self.new ≡ self.old) }
    {
        self.catalog.add_resource(object, definition)?;
        Ok(())
    }

    /// Adds an instance of an object.
    ///
    /// `Range` (Security, number 65535, or another number than 0 of Device and Firmware Update), then
    /// `Missing` (no such object), `Duplicate`, `Full` (64 instances of the object).
    pub fn add_instance(&mut self, object: u16, instance: u16) -> Result<(), TemplateFault>
        ensures added { OnOk result
            (self.new ≡ with_store self.old (with_instance self.old.store
            (record { object = object; instance = instance }))) }
        ensures refused { IfErr result
            (λ f. f ≢ TemplateFault.Memory
            → instance_fault self.old (record { object = object; instance = instance }) ≡ Some f) }
        ensures refuses { (f : TemplateFault)
            → instance_fault self.old (record { object = object; instance = instance }) ≡ Some f → result ≡ Err f }
        ensures unchanged { OnErr result (self.new ≡ self.old) }
    {
        let place = InstancePath { object, instance };
        if let Some(fault) = self.instance_fault(place) {
            return Err(fault);
        }
        match self.store.add_instance(place) {
            Ok(()) => Ok(()),
            Err(StoreFault::Memory) => Err(TemplateFault::Memory),
            Err(_) => unreachable!(),
        }
    }

    fn value_fault(&self, path: FullPath, value: &Value) -> Option<TemplateFault>
        ensures fault { result ≡ value_fault_at self.now path value.now }
        ensures short { IsShort path }
        ensures good { result ≡ None → IsGood value.now }
        ensures there { result ≡ None → has_instance self.now.store (instance_at path) ≡ true }
        ensures room { result ≡ None → is_one_too_many self.now.store path ≡ false }
    {
        if !fits(&self.catalog, path, value) {
            return Some(TemplateFault::Range);
        }
        if !has_place(&self.catalog, &self.store, path) {
            return Some(TemplateFault::Missing);
        }
        if self.store.get(path).is_some() {
            return Some(TemplateFault::Duplicate);
        }
        if self.store.len() >= MOST_VALUES {
            return Some(TemplateFault::Full);
        }
        if has_all_parts(&self.store, path) {
            return Some(TemplateFault::Full);
        }
        None
    }

    /// The kind of the values that may be added at the path; `None` where none may. A value of this kind within its
    /// limits is not refused.
    pub fn kind_taken(&self, path: FullPath) -> Option<ValueKind>
        ensures kind { result ≡ kind_taken self.now path }

        // A value of that kind, within the limits of its length, is not refused.
        ensures taken { (kind : ValueKind) (value : Value) → result ≡ Some kind → has_kind value kind ≡ true
            → has_good_length value ≡ true
            → value_fault_at self.now path value ≡ None }
    {
        let definition = self.catalog.resource(path.object, path.resource)?;
        let kind = definition.kind;
        match self.value_fault(path, &plain(self.alloc, kind)) {
            None => Some(kind),
            Some(_) => None,
        }
    }

    /// Adds a value at a path of three or four numbers.
    ///
    /// `Range` (the path, the value's length or kind, or the resource does not fit), then `Missing`
    /// (the object or the instance is not there), `Duplicate`, `Full` (65,535 values, or 32 parts of
    /// the resource).
    pub fn add_value(&mut self, path: Path, value: Value) -> Result<(), TemplateFault>
        ensures added { OnOk result (self.new ≡ with_store self.old
            (with_value_at self.old.store (full_path path) value)) }
        ensures refused { IfErr result (λ f. f ≢ TemplateFault.Memory
            → value_fault self.old (full_path path) value ≡ Some f) }
        ensures refuses { (f : TemplateFault) → value_fault self.old (full_path path) value ≡ Some f → result ≡ Err f }
        ensures unchanged { OnErr result (self.new ≡ self.old) }
    {
        let Some(full) = path.full() else {
            return Err(TemplateFault::Range);
        };
        if let Some(fault) = self.value_fault(full, &value) {
            return Err(fault);
        }
        match put(&mut self.store, full, value) {
            Ok(()) => Ok(()),
            Err(StoreFault::Memory) => Err(TemplateFault::Memory),
            Err(_) => unreachable!(),
        }
    }

    /// Sets how the devices of the class notify: 0 for Non-confirmable notifications, 2 or 3 for Confirmable ones that
    /// are sent again for the first time after that many seconds. The last call decides.
    ///
    /// `Range` for any other number.
    pub fn set_notify(&mut self, seconds: u8) -> Result<(), TemplateFault>
        ensures set { OnOk result (self.new ≡ with_notify self.old seconds) }
        ensures fits { OnOk result (notify_fault seconds ≡ None) }
        ensures refused { IfErr result (λ f. notify_fault seconds ≡ Some f) }
        ensures unchanged { OnErr result (self.new ≡ self.old) }
    {
        if !is_notify(seconds) {
            return Err(TemplateFault::Range);
        }
        self.notify = seconds;
        Ok(())
    }

    /// How the devices of the class notify: 0 for Non-confirmable notifications, 2 or 3 for Confirmable ones that are
    /// sent again for the first time after that many seconds.
    pub fn notify(&self) -> u8
        ensures seconds { result ≡ self.now.notify }
        ensures fits { notify_fault result ≡ None }
    {
        self.notify
    }

    /// The Short Server IDs of the accounts, by ascending number. As every other part of a template, they are what
    /// accepted additions made (`built`): so whoever writes a class down may rely on each part having been accepted.
    pub fn accounts(&self) -> &[u16]
        ensures lent { result.now ≡ self.now.accounts }
        ensures ascending { IsStrictlyIncreasing self.now.accounts }
        ensures built { IsBuilt self.now }
    {
        self.accounts.as_slice()
    }

    /// A copy of the Short Server IDs of the accounts.
    pub fn copy_accounts(&self) -> Result<Vec<u16>, AllocError>
        ensures { IfOk result (λ v. v.items ≡ self.now.accounts) }
    {
        self.accounts.to_vec()
    }

    /// The objects that the class knows.
    pub fn catalog(&self) -> &Catalog
        ensures { result.now ≡ self.now.catalog }
    {
        &self.catalog
    }

    /// The instances and values that were added.
    pub fn store(&self) -> &Store
        ensures { result.now ≡ self.now.store }
    {
        &self.store
    }

    /// The store that a device of the class starts with: that of the class, and where it has `/5/0`, an empty Package
    /// URI, the State 0 Idle and the Update Result 0.
    pub fn start_store(&self) -> Result<Store, AllocError>
        ensures { IfOk result (λ s. s ≡ with_idle_firmware self.now.store) }
    {
        let mut store = self.store.copy()?;
        set_firmware_idle(self.alloc, &mut store)?;
        Ok(store)
    }
}
