ghost use Rattle.std.specs.Prelude.{◌≡◌, ◌≢◌, ◌++◌, IfErr, OnOk};
ghost use Rattle.std.specs.Io.{StartsWith};
ghost use Rattle.byte_layout.specs.declared.fault.ReadError.TheVariants.{Memory};
ghost use Rattle.byte_layout.specs.Outcome.{Gives};
ghost use Rattle.scenario_layout.specs.Value.{place, part_number, path};

use byte_layout::{Break, ReadError, put_u8, put_u16, u8_at, u16_at};
use object_defs::{FullPath, InstancePath};
use std::alloc::AllocError;

/// An instance's path: two numbers of two bytes.
#[tactic(auto, unfolding(crate::specs::Value::place))]
pub fn place_at(bytes: &[u8]) -> Result<(InstancePath, &[u8]), ReadError>
    ensures read { Gives (λ x. (x.0, x.1.now)) result (place.read bytes.now) }
    ensures no_memory { IfErr result (λ e. e ≢ Memory) }
{
    let (object, rest) = u16_at(bytes)?;
    let (instance, rest) = u16_at(rest)?;
    Ok((InstancePath { object, instance }, rest))
}

/// A value's path: three numbers of two bytes, a byte 0, or 1 and the part's number.
#[tactic(auto, unfolding(crate::specs::Value::path))]
pub fn path_at(bytes: &[u8]) -> Result<(FullPath, &[u8]), ReadError>
    ensures read { Gives (λ x. (x.0, x.1.now)) result (path.read bytes.now) }
    ensures no_memory { IfErr result (λ e. e ≢ Memory) }
{
    let (object, rest) = u16_at(bytes)?;
    let (instance, rest) = u16_at(rest)?;
    let (resource, rest) = u16_at(rest)?;
    let (part, rest) = part_at(rest)?;
    let path = FullPath {
        object,
        instance,
        resource,
        part,
    };
    Ok((path, rest))
}

#[tactic(auto, unfolding(crate::specs::Value::part_number))]
fn part_at(bytes: &[u8]) -> Result<(Option<u16>, &[u8]), ReadError>
    ensures read { Gives (λ x. (x.0, x.1.now)) result (part_number.read bytes.now) }
    ensures no_memory { IfErr result (λ e. e ≢ Memory) }
{
    let (flag, rest) = u8_at(bytes)?;
    match flag {
        0 => Ok((None, rest)),
        1 => {
            let (part, rest) = u16_at(rest)?;
            Ok((Some(part), rest))
        }
        _ => Err(ReadError::Fault(Break::BadField(bytes.len()))),
    }
}

/// Writes an instance's path. Where memory runs out, some of its bytes may have been written after those that stood
/// there.
#[tactic(auto, using(byte_layout::proofs::Appended::appended), unfolding(crate::specs::Value::place))]
pub fn put_place(out: &mut Vec<u8>, at: InstancePath) -> Result<(), AllocError>
    ensures ok { OnOk result (out.new.items ≡ out.old.items ++ place.spell at) }
    ensures appends { StartsWith out.new.items out.old.items }
{
    put_u16(out, at.object)?;
    put_u16(out, at.instance)
}

/// Writes a value's path. Where memory runs out, some of its bytes may have been written after those that stood there.
#[tactic(auto, using(byte_layout::proofs::Appended::appended), unfolding(crate::specs::Value::path))]
pub fn put_path(out: &mut Vec<u8>, p: FullPath) -> Result<(), AllocError>
    ensures ok { OnOk result (out.new.items ≡ out.old.items ++ path.spell p) }
    ensures appends { StartsWith out.new.items out.old.items }
{
    put_u16(out, p.object)?;
    put_u16(out, p.instance)?;
    put_u16(out, p.resource)?;
    put_part(out, p.part)
}

#[tactic(auto, using(byte_layout::proofs::Appended::appended), unfolding(crate::specs::Value::part_number))]
fn put_part(out: &mut Vec<u8>, part: Option<u16>) -> Result<(), AllocError>
    ensures ok { OnOk result (out.new.items ≡ out.old.items ++ part_number.spell part) }
    ensures appends { StartsWith out.new.items out.old.items }
{
    match part {
        None => put_u8(out, 0),
        Some(number) => {
            put_u8(out, 1)?;
            put_u16(out, number)
        }
    }
}
