ghost use Rattle.std.specs.Prelude.{◌≡◌, ◌≢◌, ◌==◌, ◌<◌, ℕ, nat_lt, length, slice_get, None, Some, Err, position};
ghost use Rattle.std.specs.Prelude.{IfNone, IfSome, IfOk, IfErr, OnOk, OnErr};
ghost use Rattle.std.specs.List.{position_or_len};
ghost use Rattle.std.specs.Option.{option_copied};
ghost use Rattle.object_defs.specs.Catalog.{object_of, definition_of};
ghost use Rattle.object_defs.specs.Base.{base};
ghost use Rattle.object_defs.specs.Order.{IsInOrder};
ghost use Rattle.object_defs.specs.Vendor.{is_vendor, new_object, with_object, with_resource, vendor_fault};
ghost use Rattle.object_defs.specs.Vendor.{vendor_object, resource_fault};

use crate::base;
use crate::definition::{ObjectDef, ResourceDef};
use crate::fault::CatalogFault;
use std::alloc::{AllocError, Global};
use std::marker::Model;

/// The objects that a device knows. Contracts see the list of their definitions, by ascending
/// number.
#[derive(Clone)]
pub struct Catalog {
    objects: Vec<ObjectDef>,
}

/// By hand, so that a caller's proof has one step where it is dropped, and no case for each of its parts.
impl Drop for Catalog {
    fn drop(self) {
        let Catalog { objects: _objects } = self;
    }
}

impl Model for Catalog {
    ghost use Rattle.std.specs.Prelude.{List, IsTrue};
    ghost use Rattle.object_defs.specs.declared.definition.ObjectDef.{ObjectDef};
    ghost use Rattle.object_defs.specs.Order.{is_in_order};

    ghost Value = { List ObjectDef };

    ghost view = { λ c. c.objects.items };

    ghost invariant = { λ c. IsTrue (is_in_order c.objects.items) };
}

/// Whether the number is one of a vendor's object.
fn is_vendor(id: u16) -> bool
    ensures { result ≡ is_vendor id }
{
    10241 <= id && id <= 32768
}

impl Catalog {
    /// The catalog of the objects that every device knows: 0 Security, 1 Server, 2 Access
    /// Control, 3 Device and 5 Firmware Update (OMA LwM2M 1.1 Core).
    pub fn base(alloc: Global) -> Result<Catalog, AllocError>
        ensures { IfOk result (λ c. c ≡ base) }
    {
        Ok(Catalog {
            objects: base::objects(alloc)?,
        })
    }

    /// The definitions of the objects by ascending number, and the resources of each.
    pub fn objects(&self) -> &[ObjectDef]
        ensures value { result.now ≡ self.now }
        ensures order { IsInOrder self.now }
    {
        self.objects.as_slice()
    }

    /// The definition of the object of this number.
    pub fn object(&self, id: u16) -> Option<&ObjectDef>
        ensures { option_copied result ≡ object_of self.now id }
    {
        // Its index is its number where no lower number is left out.
        match self.objects.get(usize::from(id)) {
            Some(object) if object.id == id => Some(object),
            _ => self.objects.iter().find(|o| o.id == id),
        }
    }

    /// The definition of a resource of an object.
    pub fn resource(&self, object: u16, id: u16) -> Option<&ResourceDef>
        ensures { option_copied result ≡ definition_of self.now object id }
    {
        // For the proof alone: resources stand by ascending number too.
        let _known = &self.objects;
        let found = self.object(object)?;
        match found.resources.as_slice().get(usize::from(id)) {
            Some(resource) if resource.id == id => Some(resource),
            _ => found.resource(id),
        }
    }

    /// A copy, which equals its source.
    pub fn copy(&self) -> Result<Catalog, AllocError>
        ensures { IfOk result (λ c. c ≡ self.now) }
    {
        self.clone()
    }

    /// The index of the first object of a higher number.
    fn first_above(&self, id: u16) -> Option<usize>
        ensures { result ≡ position (λ o. nat_lt id o.id) self.now }
    {
        self.objects.iter().position(|o| o.id > id)
    }

    /// The index at which an object of this number, which is not there yet, belongs: that of the first higher number.
    #[tactic(auto, using(crate::proofs::Inserting::place_or_end))]
    fn place_for(&self, id: u16) -> usize
        ensures { result ≡ position_or_len (λ o. nat_lt id o.id) self.now }
    {
        let above = self.first_above(id);
        above.unwrap_or(self.objects.len())
    }

    fn vendor_fault(&self, id: u16) -> Option<CatalogFault>
        ensures { result ≡ vendor_fault self.now id }
    {
        if !is_vendor(id) {
            return Some(CatalogFault::IdRange);
        }
        if self.object(id).is_some() {
            return Some(CatalogFault::Duplicate);
        }
        if self.objects.len() >= 16 {
            return Some(CatalogFault::TooMany);
        }
        None
    }

    /// Adds a vendor's object that has no resource yet, in the order of the numbers. `IdRange` (a number outside 10241
    /// to 32768), then `Duplicate`, then `TooMany` (16 objects, those of the base among them); an error changes
    /// nothing. Then the new definition is found, and every other one as before.
    pub fn add_vendor(&mut self, id: u16) -> Result<(), CatalogFault>
        ensures added { OnOk result (self.new ≡ with_object self.old id) }
        ensures refused { IfErr result (λ f. f ≢ CatalogFault.Memory → vendor_fault self.old id ≡ Some f) }
        ensures refuses { (f : CatalogFault) → vendor_fault self.old id ≡ Some f → result ≡ Err f }
        ensures unchanged { OnErr result (self.new ≡ self.old) }

        // What is found then.
        ensures found { OnOk result (object_of self.new id ≡ Some (new_object id)) }
        ensures others { OnOk result ((q : ℕ) → q ≢ id → object_of self.new q ≡ object_of self.old q) }
    {
        if let Some(fault) = self.vendor_fault(id) {
            return Err(fault);
        }
        let place = self.place_for(id);
        let object = ObjectDef::new(*self.objects.allocator(), id);
        self.objects.insert(place, object)?;
        Ok(())
    }

    /// The index of the object of this number.
    fn place_of(&self, id: u16) -> Option<usize>
        ensures { result ≡ position (λ o. o.id == id) self.now }
    {
        self.objects.iter().position(|o| o.id == id)
    }

    /// The index of the vendor's object of this number.
    fn vendor_place(&self, id: u16) -> Option<usize>
        ensures none { IfNone result (vendor_object self.now id ≡ None) }
        ensures first { IfSome result (λ i. i ≡ position_or_len (λ o. o.id == id) self.now) }
        ensures within { IfSome result (λ i. i < length self.now) }
        ensures object { IfSome result (λ i. slice_get self.now i ≡ vendor_object self.now id) }
    {
        if is_vendor(id) {
            self.place_of(id)
        } else {
            None
        }
    }

    /// Adds a resource to a vendor's object, in the order of the numbers. `IdRange` (no such vendor's object, or an
    /// executable resource that is multiple or of another kind than Text), then `Duplicate`, then `TooMany` (64
    /// resources of the object); an error changes nothing. Then the new definition is found, and every other one as
    /// before.
    pub fn add_resource(&mut self, object: u16, definition: ResourceDef) -> Result<(), CatalogFault>
        ensures added { OnOk result (self.new ≡ with_resource self.old object definition) }
        ensures refused { IfErr result (λ f. f ≢ CatalogFault.Memory
            → resource_fault self.old object definition ≡ Some f) }
        ensures refuses { (f : CatalogFault) → resource_fault self.old object definition ≡ Some f → result ≡ Err f }
        ensures unchanged { OnErr result (self.new ≡ self.old) }

        // What is found then.
        ensures found { OnOk result (definition_of self.new object definition.id ≡ Some definition) }
        ensures others { OnOk result ((q r : ℕ) → ¬ ((q ≡ object) × (r ≡ definition.id))
            → definition_of self.new q r ≡ definition_of self.old q r) }
    {
        let Some(place) = self.vendor_place(object) else {
            return Err(CatalogFault::IdRange);
        };
        let found = &mut self.objects[place];
        if let Some(fault) = found.resource_fault(&definition) {
            return Err(fault);
        }
        found.resources.insert(definition)?;
        Ok(())
    }
}
