ghost use Rattle.std.specs.Prelude.{◌≡◌, ◌≢◌, ◌++◌, nat_lt, IfErr, OnOk};
ghost use Rattle.std.specs.Io.{StartsWith};
ghost use Rattle.std.specs.List.{list_all};
ghost use Rattle.byte_layout.specs.declared.fault.ReadError.TheVariants.{Memory};
ghost use Rattle.byte_layout.specs.Outcome.{Gives};
ghost use Rattle.scenario_layout.specs.Definition.{ops, flags_fit, kind_fits, behind_id, ops_number, flags_of};
ghost use Rattle.scenario_layout.specs.Definition.{resources};

use crate::value::kind_at;
use crate::value_writing::put_kind;
use byte_layout::{
    Break, Items, PutItems, ReadError, items_at, put_items, put_u8, put_u16, u8_at, u8_at_most,
    u16_at,
};
use lwm2m_values::ValueKind;
use object_defs::{Ops, ResourceDef};
use std::alloc::{AllocError, Global};

/// At most 64 definitions of resources, their numbers ascending.
#[tactic(auto, unfolding(crate::specs::Definition::resources))]
pub fn resources_at(alloc: Global, bytes: &[u8]) -> Result<(Vec<ResourceDef>, &[u8]), ReadError>
    ensures { Gives (λ x. (x.0.items, x.1.now)) result (resources.read bytes.now) }
{
    let (count, rest) = u8_at_most(64, bytes)?;
    items_at(&Definitions, alloc, usize::from(count), rest)
}

/// Writes definitions of resources. Where memory runs out, some of their bytes may have been written after those that
/// stood there.
#[tactic(auto, using(byte_layout::proofs::Appended::appended), unfolding(crate::specs::Definition::resources))]
pub fn put_resources(out: &mut Vec<u8>, list: &[ResourceDef]) -> Result<(), AllocError>
    requires { resources.Good list.now }
    ensures ok { OnOk result (out.new.items ≡ out.old.items ++ resources.spell list.now) }
    ensures appends { StartsWith out.new.items out.old.items }
{
    put_u8(out, list.len() as u8)?;
    put_items(&Definitions, out, list)
}

/// Definitions of resources, one after another.
struct Definitions;

impl Items for Definitions {
    ghost use Rattle.scenario_layout.specs.Definition.{resource};

    type Item = ResourceDef;

    ghost part = { λ _ before. resource before };

    #[tactic(auto, unfolding(crate::specs::Definition::resource))]
    fn item_at<'a>(
        &self,
        _alloc: Global,
        before: &[ResourceDef],
        bytes: &'a [u8],
    ) -> Result<(ResourceDef, &'a [u8]), ReadError> {
        let (id, rest) = u16_at(bytes)?;
        if !is_above(id, before) {
            return Err(ReadError::Fault(Break::BadField(bytes.len())));
        }
        definition_at(id, rest)
    }
}

impl PutItems for Definitions {
    #[tactic(auto, using(byte_layout::proofs::Appended::appended), unfolding(crate::specs::Definition::resource, crate::specs::Definition::ops))]
    fn put_item(
        &self,
        out: &mut Vec<u8>,
        _before: &[ResourceDef],
        item: &ResourceDef,
    ) -> Result<(), AllocError> {
        put_u16(out, item.id)?;
        put_u8(out, ops_number(item.ops))?;
        put_u8(out, flags_of(*item))?;
        put_kind(out, item.kind)
    }
}

fn is_above(id: u16, before: &[ResourceDef]) -> bool
    ensures { result ≡ list_all (λ r. nat_lt r.id id) before.now }
{
    before.iter().all(|r| r.id < id)
}

fn ops_number(o: Ops) -> u8
    ensures { result ≡ ops_number o }
{
    match o {
        Ops::R => 1,
        Ops::W => 2,
        Ops::RW => 3,
        Ops::E => 4,
    }
}

fn flags_of(r: ResourceDef) -> u8
    ensures { result ≡ flags_of r.multiple r.mandatory }
{
    u8::from(r.multiple) + 2 * u8::from(r.mandatory)
}

/// What stands after the number of a resource.
fn definition_at(id: u16, bytes: &[u8]) -> Result<(ResourceDef, &[u8]), ReadError>
    ensures read { Gives (λ x. (x.0, x.1.now)) result ((behind_id id).read bytes.now) }
    ensures no_memory { IfErr result (λ e. e ≢ Memory) }
{
    let (ops, rest) = ops_at(bytes)?;
    let (flags, behind) = u8_at(rest)?;
    if !do_flags_fit(ops, flags) {
        return Err(ReadError::Fault(Break::BadField(rest.len())));
    }
    let (kind, after) = kind_at(behind)?;
    if !does_kind_fit(ops, kind) {
        return Err(ReadError::Fault(Break::BadField(behind.len())));
    }
    let definition = ResourceDef {
        id,
        ops,
        multiple: flags == 1 || flags == 3,
        mandatory: flags > 1,
        kind,
    };
    Ok((definition, after))
}

#[tactic(auto, unfolding(crate::specs::Definition::ops))]
fn ops_at(bytes: &[u8]) -> Result<(Ops, &[u8]), ReadError>
    ensures read { Gives (λ x. (x.0, x.1.now)) result (ops.read bytes.now) }
    ensures no_memory { IfErr result (λ e. e ≢ Memory) }
{
    let (number, rest) = u8_at(bytes)?;
    match number {
        1 => Ok((Ops::R, rest)),
        2 => Ok((Ops::W, rest)),
        3 => Ok((Ops::RW, rest)),
        4 => Ok((Ops::E, rest)),
        _ => Err(ReadError::Fault(Break::BadField(bytes.len()))),
    }
}

fn do_flags_fit(o: Ops, flags: u8) -> bool
    ensures { result ≡ flags_fit o flags }
{
    match o {
        Ops::E => flags == 0 || flags == 2,
        _ => flags < 4,
    }
}

fn does_kind_fit(o: Ops, kind: ValueKind) -> bool
    ensures { result ≡ kind_fits o kind }
{
    match o {
        Ops::E => matches!(kind, ValueKind::Text),
        _ => true,
    }
}
