ghost use Rattle.std.specs.Prelude.{◌≡◌, [], ◌++◌, ◌∷◌, true, None, Some, IfOk, OnOk};
ghost use Rattle.std.specs.FinMap as finite;
ghost use Rattle.std.specs.List.{list_all};
ghost use Rattle.std.specs.Ordering.{is_lt};
ghost use Rattle.byte_layout.specs.Outcome.{Gives};
ghost use Rattle.byte_layout.specs.Layout.{each};
ghost use Rattle.object_defs.specs.Path.{path_cmp};
ghost use Rattle.device_template.specs.Template.{kind_taken, value_fault_at};
ghost use Rattle.device_template.specs.Values.{has_kind};
ghost use Rattle.lwm2m_values.specs.Value.{has_good_length};
ghost use Rattle.lwm2m_values.specs.declared.value.Value.{Value};
ghost use Rattle.scenario_layout.specs.Growing.{items_with_next, is_behind, IsLast};
ghost use Rattle.scenario_layout.specs.Class.{entry, value_path, values, values_in, with_values};

use crate::class::refusal::refusal;
use crate::path::path_at;
use crate::value::value_at;
use byte_layout::{Break, ReadError, u16_at};
use device_template::Template;
use lwm2m_values::ValueKind;
use object_defs::FullPath;
use std::alloc::Global;

/// Adds the values at the front of the bytes to a class that has none, and gives the bytes after them.
#[tactic(auto, unfolding(crate::specs::Class::values))]
pub(crate) fn values_at<'a>(
    alloc: Global,
    template: &mut Template,
    bytes: &'a [u8],
) -> Result<&'a [u8], ReadError>
    requires { template.now.store.values ≡ finite.empty }
    ensures read { Gives (λ rest. (values_in template.new, rest.now)) result ((values template.old).read bytes.now) }
    ensures made { OnOk result (template.new ≡ with_values template.old (values_in template.new)) }
{
    let (count, rest) = u16_at(bytes)?;
    values_each(alloc, template, count, rest)
}

fn values_each<'a>(
    alloc: Global,
    template: &mut Template,
    count: u16,
    bytes: &'a [u8],
) -> Result<&'a [u8], ReadError>
    requires { template.now.store.values ≡ finite.empty }
    ensures read { Gives (λ rest. (values_in template.new, rest.now)) result
        ((each (entry template.old) count []).read bytes.now) }
    ensures made { OnOk result (template.new ≡ with_values template.old (values_in template.new)) }
{
    let mut rest = bytes;
    let mut last = None;
    for _ in 0..count {
        let (path, after) = entry_at(alloc, template, last, rest)?;
        last = Some(path);
        rest = after;
    }
    Ok(rest)
}

/// Adds the value at the front of the bytes, after the last one.
#[tactic(auto, unfolding(crate::specs::Class::entry))]
fn entry_at<'a>(
    alloc: Global,
    template: &mut Template,
    last: Option<FullPath>,
    bytes: &'a [u8],
) -> Result<(FullPath, &'a [u8]), ReadError>
    requires { IsLast path_cmp (λ e. e.0) (values_in template.now) last }
    ensures read { Gives (λ x. (values_in template.new, x.1.now)) result
        (items_with_next (values_in template.old) ((entry template.old (values_in template.old)).read bytes.now)) }
    ensures made { OnOk result (template.new ≡ with_values template.old (values_in template.new)) }
    ensures last { IfOk result (λ x. IsLast path_cmp (λ e. e.0) (values_in template.new) (Some x.0)) }
{
    let (path, kind, rest) = value_path_at(template, last, bytes)?;
    let (value, after) = value_at(alloc, Some(kind), rest)?;
    if let Err(fault) = template.add_value(path.to_path(), value) {
        return Err(refusal(fault, rest.len()));
    }
    Ok((path, after))
}

/// The path at the front of the bytes, after the last one, and the kind of the values that are taken there.
#[tactic(auto, unfolding(crate::specs::Class::value_path))]
fn value_path_at<'a>(
    template: &Template,
    last: Option<FullPath>,
    bytes: &'a [u8],
) -> Result<(FullPath, ValueKind, &'a [u8]), ReadError>
    requires { IsLast path_cmp (λ e. e.0) (values_in template.now) last }
    ensures read { Gives (λ x. (x.0, x.2.now)) result
        ((value_path template.now (values_in template.now)).read bytes.now) }
    ensures behind { IfOk result (λ x. list_all (λ e. is_lt (path_cmp e.0 x.0)) (values_in template.now) ≡ true) }
    ensures kind { IfOk result (λ x. kind_taken template.now x.0 ≡ Some x.1) }
    ensures taken { IfOk result (λ x. (v : Value) → has_kind v x.1 ≡ true → has_good_length v ≡ true
        → value_fault_at template.now x.0 v ≡ None) }
{
    let (path, rest) = path_at(bytes)?;
    if !is_behind(last, path) {
        return Err(ReadError::Fault(Break::BadField(bytes.len())));
    }
    match template.kind_taken(path) {
        None => Err(ReadError::Fault(Break::BadField(bytes.len()))),
        Some(kind) => Ok((path, kind, rest)),
    }
}

fn is_behind(last: Option<FullPath>, path: FullPath) -> bool
    ensures { result ≡ is_behind path_cmp last path }
{
    match last {
        None => true,
        Some(last) => last < path,
    }
}
