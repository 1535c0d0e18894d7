//! A class, written at the end of a vector. Where memory runs out, some of its bytes may have been written after those
//! that stood there.

ghost use Rattle.std.specs.Prelude.{◌≡◌, ◌≤◌, ◌<◌, ◌++◌, List, [], All, length, drop, OnOk};
ghost use Rattle.std.specs.Io.{StartsWith};
ghost use Rattle.byte_layout.specs.Layout.{each};
ghost use Rattle.lwm2m_values.specs.declared.value.Value.{Value};
ghost use Rattle.lwm2m_values.specs.Value.{IsGood};
ghost use Rattle.object_defs.specs.Base.{base};
ghost use Rattle.object_defs.specs.declared.definition.ObjectDef.{ObjectDef};
ghost use Rattle.instance_store.specs.Listing.{shown_pairs};
ghost use Rattle.scenario_layout.specs.Definition.{resources};
ghost use Rattle.device_template.specs.Template.{Template};
ghost use Rattle.scenario_layout.specs.Class.{account, accounts, class, entry, instance, instances, object, objects};
ghost use Rattle.scenario_layout.specs.Class.{instances_in, values, values_in};

use crate::definition::put_resources;
use crate::laws::{class_has_bytes, good_parts};
use crate::path::{put_path, put_place};
use crate::value_writing::put_value;
use byte_layout::{put_u8, put_u16};
use device_template::Template;
use lwm2m_values::Value;
use object_defs::{Catalog, FullPath, InstancePath, ObjectDef};
use std::alloc::AllocError;

/// Writes a class as version 2 has it: each that there is has bytes, so nothing is refused. Where memory runs out, some
/// of its bytes may have been written after those that stood there.
#[tactic(auto, using(byte_layout::proofs::Appended::appended), unfolding(crate::specs::Class::class, crate::specs::Class::notify_in, crate::specs::Class::notify, crate::specs::Class::behind_notify, crate::specs::Class::behind_accounts, crate::specs::Class::behind_objects, crate::specs::Class::behind_instances))]
pub fn put_class(out: &mut Vec<u8>, template: &Template) -> Result<(), AllocError>
    ensures good { (class 2).Good template.now }
    ensures bytes { OnOk result (out.new.items ≡ out.old.items ++ (class 2).spell template.now) }
    ensures appends { StartsWith out.new.items out.old.items }
{
    class_has_bytes(template);
    good_parts(template);
    put_u8(out, template.notify())?;
    put_accounts(out, template.accounts())?;
    put_objects(out, own_objects(template.catalog()))?;
    put_stored_instances(out, template)?;
    put_stored_values(out, template)
}

/// The objects of a class's own, after the five base objects.
fn own_objects(catalog: &Catalog) -> &[ObjectDef]
    ensures { result.now ≡ drop (length base) catalog.now }
{
    let objects = catalog.objects();
    let [_, _, _, _, _, own @ ..] = objects else {
        return &objects[..0];
    };
    own
}

#[tactic(auto, using(byte_layout::proofs::Appended::appended), unfolding(crate::specs::Class::accounts))]
fn put_accounts(out: &mut Vec<u8>, list: &[u16]) -> Result<(), AllocError>
    requires { accounts.Good list.now }
    ensures ok { OnOk result (out.new.items ≡ out.old.items ++ accounts.spell list.now) }
    ensures appends { StartsWith out.new.items out.old.items }
{
    put_u8(out, list.len() as u8)?;
    put_each_account(out, list)
}

fn put_each_account(out: &mut Vec<u8>, list: &[u16]) -> Result<(), AllocError>
    requires { (each account (length list.now) []).Good list.now }
    ensures ok { OnOk result (out.new.items ≡ out.old.items ++ (each account (length list.now) []).spell list.now) }
    ensures appends { StartsWith out.new.items out.old.items }
{
    for number in list {
        put_u16(out, *number)?;
    }
    Ok(())
}

#[tactic(auto, using(byte_layout::proofs::Appended::appended), unfolding(crate::specs::Class::objects))]
fn put_objects(out: &mut Vec<u8>, list: &[ObjectDef]) -> Result<(), AllocError>
    requires few { length list.now ≤ 11 }
    requires defined { All (λ o. resources.Good o.resources) list.now }
    ensures ok { OnOk result ((c : Template) → (objects c).Good list.now
        → out.new.items ≡ out.old.items ++ (objects c).spell list.now) }
    ensures appends { StartsWith out.new.items out.old.items }
{
    put_u8(out, list.len() as u8)?;
    put_each_object(out, list)
}

fn put_each_object(out: &mut Vec<u8>, list: &[ObjectDef]) -> Result<(), AllocError>
    requires { All (λ o. resources.Good o.resources) list.now }
    ensures ok { OnOk result ((c : Template) → (each (object c) (length list.now) []).Good list.now
        → out.new.items ≡ out.old.items ++ (each (object c) (length list.now) []).spell list.now) }
    ensures appends { StartsWith out.new.items out.old.items }
{
    for object in list {
        put_object(out, object)?;
    }
    Ok(())
}

#[tactic(auto, using(byte_layout::proofs::Appended::appended), unfolding(crate::specs::Class::object, crate::specs::Class::object_id))]
fn put_object(out: &mut Vec<u8>, definition: &ObjectDef) -> Result<(), AllocError>
    requires { resources.Good definition.now.resources }
    ensures ok { OnOk result ((c : Template) (before : List ObjectDef)
        → out.new.items ≡ out.old.items ++ (object c before).spell definition.now) }
    ensures appends { StartsWith out.new.items out.old.items }
{
    put_u16(out, definition.id)?;
    put_resources(out, definition.resources.as_slice())
}

/// Writes the instances of a class.
fn put_stored_instances(out: &mut Vec<u8>, template: &Template) -> Result<(), AllocError>
    requires { length (instances_in template.now) < 65536 }
    ensures ok { OnOk result ((c : Template) → (instances c).Good (instances_in template.now)
        → out.new.items ≡ out.old.items ++ (instances c).spell (instances_in template.now)) }
    ensures appends { StartsWith out.new.items out.old.items }
{
    let places = template.store().all_instances()?;
    put_instances(out, &places)
}

#[tactic(auto, using(byte_layout::proofs::Appended::appended), unfolding(crate::specs::Class::instances))]
fn put_instances(out: &mut Vec<u8>, list: &[InstancePath]) -> Result<(), AllocError>
    requires { length list.now < 65536 }
    ensures ok { OnOk result ((c : Template) → (instances c).Good list.now
        → out.new.items ≡ out.old.items ++ (instances c).spell list.now) }
    ensures appends { StartsWith out.new.items out.old.items }
{
    put_u16(out, list.len() as u16)?;
    put_each_instance(out, list)
}

fn put_each_instance(out: &mut Vec<u8>, list: &[InstancePath]) -> Result<(), AllocError>
    ensures ok { OnOk result ((c : Template) → (each (instance c) (length list.now) []).Good list.now
        → out.new.items ≡ out.old.items ++ (each (instance c) (length list.now) []).spell list.now) }
    ensures appends { StartsWith out.new.items out.old.items }
{
    for place in list {
        put_place(out, *place)?;
    }
    Ok(())
}

/// Writes the values of a class.
fn put_stored_values(out: &mut Vec<u8>, template: &Template) -> Result<(), AllocError>
    requires few { length (values_in template.now) < 65536 }
    requires good { All (λ e. IsGood e.1) (values_in template.now) }
    ensures ok { OnOk result ((c : Template) → (values c).Good (values_in template.now)
        → out.new.items ≡ out.old.items ++ (values c).spell (values_in template.now)) }
    ensures appends { StartsWith out.new.items out.old.items }
{
    let pairs = template.store().values()?;
    put_values(out, &pairs)
}

#[tactic(auto, using(byte_layout::proofs::Appended::appended), unfolding(crate::specs::Class::values))]
fn put_values(out: &mut Vec<u8>, list: &[(FullPath, &Value)]) -> Result<(), AllocError>
    requires few { length list.now < 65536 }
    requires good { All (λ e. IsGood e.1) (shown_pairs list.now) }
    ensures ok { OnOk result ((c : Template) → (values c).Good (shown_pairs list.now)
        → out.new.items ≡ out.old.items ++ (values c).spell (shown_pairs list.now)) }
    ensures appends { StartsWith out.new.items out.old.items }
{
    put_u16(out, list.len() as u16)?;
    put_each_value(out, list)
}

fn put_each_value(out: &mut Vec<u8>, list: &[(FullPath, &Value)]) -> Result<(), AllocError>
    requires { All (λ e. IsGood e.1) (shown_pairs list.now) }
    ensures ok { OnOk result ((c : Template) → (each (entry c) (length list.now) []).Good (shown_pairs list.now)
        → out.new.items ≡ out.old.items ++ (each (entry c) (length list.now) []).spell (shown_pairs list.now)) }
    ensures appends { StartsWith out.new.items out.old.items }
{
    for (path, value) in list {
        put_entry(out, *path, value)?;
    }
    Ok(())
}

#[tactic(auto, using(byte_layout::proofs::Appended::appended), unfolding(crate::specs::Class::entry, crate::specs::Class::value_path))]
fn put_entry(out: &mut Vec<u8>, path: FullPath, value: &Value) -> Result<(), AllocError>
    requires { IsGood value.now }
    ensures ok { OnOk result ((c : Template) (before : List (FullPath × Value))
        → out.new.items ≡ out.old.items ++ (entry c before).spell (path, value.now)) }
    ensures appends { StartsWith out.new.items out.old.items }
{
    put_path(out, path)?;
    put_value(out, value)
}
