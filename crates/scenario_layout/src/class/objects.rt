ghost use Rattle.std.specs.Prelude.{◌≡◌, ◌++◌, ◌∷◌, [], nat_lt, true, IfOk, OnOk, length};
ghost use Rattle.std.specs.List.{list_all};
ghost use Rattle.byte_layout.specs.Outcome.{Gives};
ghost use Rattle.byte_layout.specs.Layout.{each};
ghost use Rattle.object_defs.specs.Base.{base};
ghost use Rattle.object_defs.specs.Vendor.{is_vendor, new_object};
ghost use Rattle.object_defs.specs.declared.definition.ObjectDef.{ObjectDef};
ghost use Rattle.device_template.specs.Template.{with_catalog};
ghost use Rattle.scenario_layout.specs.Definition.{resource};
ghost use Rattle.scenario_layout.specs.Growing.{items_with_next};
ghost use Rattle.scenario_layout.specs.Class.{object, object_id, object_of_definitions, objects, objects_in};
ghost use Rattle.scenario_layout.specs.Class.{with_objects};

use crate::class::definitions::define;
use crate::class::refusal::refusal;
use crate::definition::resources_at;
use byte_layout::{Break, ReadError, u8_at_most, u16_at};
use device_template::Template;
use object_defs::ObjectDef;
use std::alloc::Global;

/// Adds the objects at the front of the bytes to a class that has none of its own, and gives the bytes after them.
#[tactic(auto, unfolding(crate::specs::Class::objects))]
pub(crate) fn objects_at<'a>(
    alloc: Global,
    template: &mut Template,
    bytes: &'a [u8],
) -> Result<&'a [u8], ReadError>
    requires { template.now.catalog ≡ base }
    ensures read { Gives (λ rest. (objects_in template.new, rest.now)) result ((objects template.old).read bytes.now) }
    ensures made { OnOk result (template.new ≡ with_objects template.old (objects_in template.new)) }
{
    let (count, rest) = u8_at_most(11, bytes)?;
    objects_each(alloc, template, count, rest)
}

fn objects_each<'a>(
    alloc: Global,
    template: &mut Template,
    count: u8,
    bytes: &'a [u8],
) -> Result<&'a [u8], ReadError>
    requires { template.now.catalog ≡ base }
    ensures read { Gives (λ rest. (objects_in template.new, rest.now)) result
        ((each (object template.old) count []).read bytes.now) }
    ensures made { OnOk result (template.new ≡ with_objects template.old (objects_in template.new)) }
{
    let mut rest = bytes;
    for _ in 0..count {
        let after = object_at(alloc, template, rest)?;
        rest = after;
    }
    Ok(rest)
}

/// Adds the object at the front of the bytes.
#[tactic(auto, unfolding(crate::specs::Class::object))]
fn object_at<'a>(
    alloc: Global,
    template: &mut Template,
    bytes: &'a [u8],
) -> Result<&'a [u8], ReadError>
    requires { template.now ≡ with_objects template.now (objects_in template.now) }
    ensures read { Gives (λ rest. (objects_in template.new, rest.now)) result
        (items_with_next (objects_in template.old) ((object template.old (objects_in template.old)).read bytes.now)) }
    ensures made { OnOk result (template.new ≡ with_objects template.old (objects_in template.new)) }
{
    let (id, rest) = object_id_at(template, bytes)?;
    let (definitions, rest) = resources_at(alloc, rest)?;
    define(template, id, &definitions)?;
    Ok(rest)
}

/// Adds an object of the number at the front of the bytes.
#[tactic(auto, unfolding(crate::specs::Class::object_id))]
fn object_id_at<'a>(template: &mut Template, bytes: &'a [u8]) -> Result<(u16, &'a [u8]), ReadError>
    requires { template.now ≡ with_objects template.now (objects_in template.now) }
    ensures read { Gives (λ x. (x.0, x.1.now)) result
        ((object_id template.old (objects_in template.old)).read bytes.now) }
    ensures made { IfOk result (λ x. template.new
        ≡ with_objects template.old (objects_in template.old ++ new_object x.0 ∷ [])) }
    ensures above { IfOk result (λ x. list_all (λ o. nat_lt o.id x.0) template.old.catalog ≡ true) }
    ensures vendor { IfOk result (λ x. is_vendor x.0 ≡ true) }
{
    let (id, rest) = u16_at(bytes)?;
    if !is_above(id, template.catalog().objects()) {
        return Err(ReadError::Fault(Break::BadField(bytes.len())));
    }
    if let Err(fault) = template.add_object(id) {
        return Err(refusal(fault, bytes.len()));
    }
    Ok((id, rest))
}

fn is_above(id: u16, before: &[ObjectDef]) -> bool
    ensures { result ≡ list_all (λ o. nat_lt o.id id) before.now }
{
    before.iter().all(|o| o.id < id)
}
