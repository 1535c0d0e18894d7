ghost use Rattle.std.specs.Prelude.{◌≡◌, [], Some, IfOk, OnOk, None};
ghost use Rattle.std.specs.FinMap as finite;
ghost use Rattle.byte_layout.specs.Outcome.{Gives};
ghost use Rattle.byte_layout.specs.Layout.{each};
ghost use Rattle.object_defs.specs.Path.{instance_cmp};
ghost use Rattle.scenario_layout.specs.Growing.{items_with_next, is_behind, IsLast};
ghost use Rattle.scenario_layout.specs.Class.{instance, instances, instances_in, with_instances};

use crate::class::refusal::refusal;
use crate::path::place_at;
use byte_layout::{Break, ReadError, u16_at};
use device_template::Template;
use object_defs::InstancePath;

/// Adds the instances at the front of the bytes to a class that has none, and gives the bytes after them.
#[tactic(auto, unfolding(crate::specs::Class::instances))]
pub(crate) fn instances_at<'a>(
    template: &mut Template,
    bytes: &'a [u8],
) -> Result<&'a [u8], ReadError>
    requires { template.now.store.instances ≡ finite.empty }
    ensures read { Gives (λ rest. (instances_in template.new, rest.now)) result
        ((instances template.old).read bytes.now) }
    ensures made { OnOk result (template.new ≡ with_instances template.old (instances_in template.new)) }
{
    let (count, rest) = u16_at(bytes)?;
    instances_each(template, count, rest)
}

fn instances_each<'a>(
    template: &mut Template,
    count: u16,
    bytes: &'a [u8],
) -> Result<&'a [u8], ReadError>
    requires { template.now.store.instances ≡ finite.empty }
    ensures read { Gives (λ rest. (instances_in template.new, rest.now)) result
        ((each (instance template.old) count []).read bytes.now) }
    ensures made { OnOk result (template.new ≡ with_instances template.old (instances_in template.new)) }
{
    let mut rest = bytes;
    let mut last = None;
    for _ in 0..count {
        let (place, after) = instance_at(template, last, rest)?;
        last = Some(place);
        rest = after;
    }
    Ok(rest)
}

/// Adds the instance at the front of the bytes, after the last one.
#[tactic(auto, unfolding(crate::specs::Class::instance))]
fn instance_at<'a>(
    template: &mut Template,
    last: Option<InstancePath>,
    bytes: &'a [u8],
) -> Result<(InstancePath, &'a [u8]), ReadError>
    requires { IsLast instance_cmp (λ p. p) (instances_in template.now) last }
    ensures read { Gives (λ x. (instances_in template.new, x.1.now)) result
        (items_with_next (instances_in template.old)
        ((instance template.old (instances_in template.old)).read bytes.now)) }
    ensures made { OnOk result (template.new ≡ with_instances template.old (instances_in template.new)) }
    ensures last { IfOk result (λ x. IsLast instance_cmp (λ p. p) (instances_in template.new) (Some x.0)) }
{
    let (place, rest) = place_at(bytes)?;
    if !is_behind(last, place) {
        return Err(ReadError::Fault(Break::BadField(bytes.len())));
    }
    if let Err(fault) = template.add_instance(place.object, place.instance) {
        return Err(refusal(fault, bytes.len()));
    }
    Ok((place, rest))
}

fn is_behind(last: Option<InstancePath>, place: InstancePath) -> bool
    ensures { result ≡ is_behind instance_cmp last place }
{
    match last {
        None => true,
        Some(last) => last < place,
    }
}
