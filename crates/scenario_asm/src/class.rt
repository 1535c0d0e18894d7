//! What a line adds to the open class.

ghost use Rattle.std.specs.Prelude.{◌≡◌, Err};
ghost use Rattle.scenario_words.specs.declared.cause.Cause.{Cause};
ghost use Rattle.scenario_asm.specs.Causes.{Makes};
ghost use Rattle.scenario_asm.specs.ClassLines.{account_added, definition_added, has_object, has_place, instance_added};
ghost use Rattle.scenario_asm.specs.ClassLines.{is_stated, notify_set, object_added, value_added};
ghost use Rattle.lwm2m_values.specs.Value.{kind_of};
ghost use Rattle.device_template.specs.Template.{plain};

use crate::causes::{of_class, of_long};
use device_template::Template;
use lwm2m_values::{Text, Value};
use object_defs::{InstancePath, Path, ResourceDef};
use octets::Bytes;
use scenario_words::{Cause, is_too_long};
use std::alloc::Global;

pub(crate) fn add_account(class: &mut Template, server: u16) -> Result<(), Cause>
    ensures made { Makes result class.new (account_added server class.old) }
    ensures refused { (c : Cause) → account_added server class.old ≡ Err c → result ≡ Err c }
{
    of_class(class.add_account(server))
}

pub(crate) fn set_notify(class: &mut Template, seconds: u8) -> Result<(), Cause>
    ensures made { Makes result class.new (notify_set seconds class.old) }
    ensures refused { (c : Cause) → notify_set seconds class.old ≡ Err c → result ≡ Err c }
{
    let is_stated = class.notify() != 0;
    of_class(class.set_notify(seconds))?;
    if is_stated {
        return Err(Cause::Duplicate);
    }
    Ok(())
}

pub(crate) fn add_object(class: &mut Template, id: u16) -> Result<(), Cause>
    ensures made { Makes result class.new (object_added id class.old) }
    ensures refused { (c : Cause) → object_added id class.old ≡ Err c → result ≡ Err c }
{
    of_class(class.add_object(id))
}

pub(crate) fn add_definition(
    class: &mut Template,
    object: u16,
    definition: ResourceDef,
) -> Result<(), Cause>
    ensures made { Makes result class.new (definition_added object definition class.old) }
    ensures refused { (c : Cause) → definition_added object definition class.old ≡ Err c → result ≡ Err c }
{
    of_class(class.add_resource(object, definition))
}

fn has_object(class: &Template, object: u16) -> bool
    ensures { result ≡ has_object class.now object }
{
    class.catalog().object(object).is_some()
}

pub(crate) fn add_instance(class: &mut Template, place: InstancePath) -> Result<(), Cause>
    ensures made { Makes result class.new (instance_added place class.old) }
    ensures refused { (c : Cause) → instance_added place class.old ≡ Err c → result ≡ Err c }
{
    if !has_object(class, place.object) {
        return Err(Cause::Missing);
    }
    of_class(class.add_instance(place.object, place.instance))
}

fn has_place(class: &Template, object: u16, instance: u16) -> bool
    ensures { result ≡ has_place class.now (record { object = object; instance = instance }) }
{
    has_object(class, object)
        && class
            .store()
            .has_instance(InstancePath { object, instance })
}

/// Whether the instance that the path names was stated.
fn is_stated(class: &Template, path: Path) -> bool
    ensures { result ≡ is_stated class.now path }
{
    match path {
        Path::Object(_) => true,
        Path::Instance(object, instance)
        | Path::Resource(object, instance, _)
        | Path::Part(object, instance, _, _) => has_place(class, object, instance),
    }
}

/// The empty value of the kind of a long one. It takes no memory.
fn emptied(alloc: Global, value: Value) -> Value
    ensures { result ≡ plain (kind_of value) }
{
    match value {
        Value::Text(_) => Value::Text(Text::from_string(String::new(alloc))),
        Value::Whole(_) => Value::Whole(0),
        Value::Flag(_) => Value::Flag(false),
        Value::Opaque(_) => Value::Opaque(Bytes::new(alloc)),
        Value::Moment(_) => Value::Moment(0),
        Value::Link(_, _) => Value::Link(0, 0),
    }
}

/// Adds a value. A value that is too long is refused as an empty one would be; only then for its length. The class of
/// a refused line is of no use any more.
#[tactic(auto, using(crate::proofs::ClassValues::short_made))]
pub(crate) fn add_value(
    alloc: Global,
    class: &mut Template,
    path: Path,
    value: Value,
) -> Result<(), Cause>
    ensures { Makes result class.new (value_added path value class.old) }
{
    if !is_stated(class, path) {
        return Err(Cause::Missing);
    }
    if is_too_long(&value) {
        return of_long(class.add_value(path, emptied(alloc, value)));
    }
    of_class(class.add_value(path, value))
}
