ghost use Rattle.std.specs.Prelude.{◌≡◌, nat_lt, Some, position, [], OnOk, OnErr};
ghost use Rattle.std.specs.List.{position_or_len};
ghost use Rattle.std.specs.Option.{option_copied};
ghost use Rattle.object_defs.specs.Catalog.{resource_in};
ghost use Rattle.object_defs.specs.Operations.{can_read, can_write, can_execute};
ghost use Rattle.object_defs.specs.Vendor.{is_sound, new_object, resource_fault_in, with_inserted};

use crate::fault::CatalogFault;
use lwm2m_values::ValueKind;
use std::alloc::{AllocError, Global};
use std::marker::Model;

/// The operations that a resource has (OMA LwM2M 1.1 Core).
#[derive(Clone, Copy)]
pub enum Ops {
    /// Read.
    R,
    /// Write.
    W,
    /// Read and Write.
    RW,
    /// Execute.
    E,
}

impl Ops {
    /// Whether the resource can be read.
    pub fn can_read(self) -> bool
        ensures { result ≡ can_read self }
    {
        match self {
            Ops::R | Ops::RW => true,
            Ops::W | Ops::E => false,
        }
    }

    /// Whether the resource can be written.
    pub fn can_write(self) -> bool
        ensures { result ≡ can_write self }
    {
        match self {
            Ops::W | Ops::RW => true,
            Ops::R | Ops::E => false,
        }
    }

    /// Whether the resource can be executed.
    pub fn can_execute(self) -> bool
        ensures { result ≡ can_execute self }
    {
        match self {
            Ops::E => true,
            Ops::R | Ops::W | Ops::RW => false,
        }
    }
}

/// The definition of a resource of an object.
#[derive(Clone, Copy)]
pub struct ResourceDef {
    /// The resource's number.
    pub id: u16,
    /// The operations that it has.
    pub ops: Ops,
    /// Whether it has resource instances, and no single value.
    pub multiple: bool,
    /// Whether each instance of the object has it.
    pub mandatory: bool,
    /// The kind of its values.
    pub kind: ValueKind,
}

impl ResourceDef {
    /// Whether the resource, if it is executable, is single and has kind Text.
    pub(crate) fn is_sound(&self) -> bool
        ensures { result ≡ is_sound self.now }
    {
        if self.ops.can_execute() {
            return !self.multiple && self.kind == ValueKind::Text;
        }
        true
    }
}

/// The definitions of an object's resources, which contracts see as a list.
#[derive(Clone, Drop)]
pub struct Resources {
    items: Vec<ResourceDef>,
}

impl Model for Resources {
    ghost use Rattle.std.specs.Prelude.{List};
    ghost use Rattle.object_defs.specs.declared.definition.ResourceDef.{ResourceDef};

    ghost Value = { List ResourceDef };

    ghost view = { λ r. r.items.items };
}

impl Resources {
    /// The definitions of a vector, which keeps its memory.
    pub(crate) fn from_vec(items: Vec<ResourceDef>) -> Resources
        ensures { result ≡ items.items }
    {
        Resources { items }
    }

    /// No definition.
    pub(crate) fn new(alloc: Global) -> Resources
        ensures { result ≡ [] }
    {
        Resources {
            items: Vec::new(alloc),
        }
    }

    /// The index of the first definition of a higher number.
    fn first_above(&self, id: u16) -> Option<usize>
        ensures { result ≡ position (λ r. nat_lt id r.id) self.now }
    {
        self.items.iter().position(|r| r.id > id)
    }

    /// The index at which a definition of this number, which is not there yet, belongs: that of the first higher one.
    #[tactic(auto, using(crate::proofs::Inserting::place_or_end))]
    fn place_for(&self, id: u16) -> usize
        ensures { result ≡ position_or_len (λ r. nat_lt id r.id) self.now }
    {
        let above = self.first_above(id);
        above.unwrap_or(self.items.len())
    }

    /// Adds a definition in the order of the numbers.
    pub(crate) fn insert(&mut self, definition: ResourceDef) -> Result<(), AllocError>
        ensures ok { OnOk result (self.new ≡ with_inserted (λ r. r.id) definition self.old) }
        ensures unchanged { OnErr result (self.new ≡ self.old) }
    {
        let place = self.place_for(definition.id);
        self.items.insert(place, definition)?;
        Ok(())
    }

    /// The definitions, by ascending number.
    pub fn as_slice(&self) -> &[ResourceDef]
        ensures { result.now ≡ self.now }
    {
        self.items.as_slice()
    }
}

/// The definition of an object.
#[derive(Clone, Drop)]
pub struct ObjectDef {
    /// The object's number.
    pub id: u16,
    /// Its resources, by ascending number.
    pub resources: Resources,
}

impl ObjectDef {
    /// The definition of an object that has no resource yet.
    pub(crate) fn new(alloc: Global, id: u16) -> ObjectDef
        ensures { result ≡ new_object id }
    {
        ObjectDef {
            id,
            resources: Resources::new(alloc),
        }
    }

    /// The definition of the resource of this number.
    pub fn resource(&self, id: u16) -> Option<&ResourceDef>
        ensures { option_copied result ≡ resource_in self.now.resources id }
    {
        self.resources.as_slice().iter().find(|r| r.id == id)
    }

    /// Why a resource cannot be added.
    pub(crate) fn resource_fault(&self, definition: &ResourceDef) -> Option<CatalogFault>
        ensures { result ≡ resource_fault_in definition.now (Some self.now) }
    {
        if !definition.is_sound() {
            return Some(CatalogFault::IdRange);
        }
        if self.resource(definition.id).is_some() {
            return Some(CatalogFault::Duplicate);
        }
        if self.resources.as_slice().len() >= 64 {
            return Some(CatalogFault::TooMany);
        }
        None
    }
}
