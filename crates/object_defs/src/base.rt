//! The table of the base objects. Each row is a resource: number, operations, single or multiple,
//! optional or mandatory, kind of value.

ghost use Rattle.std.specs.Prelude.{◌≡◌, IfOk};
ghost use Rattle.object_defs.specs.Base.{base};

use crate::definition::{ObjectDef, Ops, ResourceDef, Resources};
use crate::object_number;
use lwm2m_values::ValueKind;
use std::alloc::{AllocError, Global};

macro_rules! is_multiple {
    (single) => {
        false
    };
    (multiple) => {
        true
    };
}

macro_rules! is_mandatory {
    (optional) => {
        false
    };
    (mandatory) => {
        true
    };
}

macro_rules! resources {
    ($($id:literal $ops:ident $count:ident $need:ident $kind:ident;)*) => {
        [$(ResourceDef {
            id: $id,
            ops: Ops::$ops,
            multiple: is_multiple!($count),
            mandatory: is_mandatory!($need),
            kind: ValueKind::$kind,
        }),*]
    };
}

const SERVER: [ResourceDef; 9] = resources! {
    0 R single mandatory Whole;
    1 RW single mandatory Whole;
    2 RW single optional Whole;
    3 RW single optional Whole;
    4 E single optional Text;
    5 RW single optional Whole;
    6 RW single mandatory Flag;
    7 RW single mandatory Text;
    8 E single mandatory Text;
};

const ACCESS_CONTROL: [ResourceDef; 4] = resources! {
    0 R single mandatory Whole;
    1 R single mandatory Whole;
    2 RW multiple optional Whole;
    3 RW single mandatory Whole;
};

const DEVICE: [ResourceDef; 23] = resources! {
    0 R single optional Text;
    1 R single optional Text;
    2 R single optional Text;
    3 R single optional Text;
    4 E single mandatory Text;
    5 E single optional Text;
    6 R multiple optional Whole;
    7 R multiple optional Whole;
    8 R multiple optional Whole;
    9 R single optional Whole;
    10 R single optional Whole;
    11 R multiple mandatory Whole;
    12 E single optional Text;
    13 RW single optional Moment;
    14 RW single optional Text;
    15 RW single optional Text;
    16 R single mandatory Text;
    17 R single optional Text;
    18 R single optional Text;
    19 R single optional Text;
    20 R single optional Whole;
    21 R single optional Whole;
    22 R multiple optional Link;
};

const FIRMWARE_UPDATE: [ResourceDef; 9] = resources! {
    0 W single mandatory Opaque;
    1 RW single mandatory Text;
    2 E single mandatory Text;
    3 R single mandatory Whole;
    5 R single mandatory Whole;
    6 R single optional Text;
    7 R single optional Text;
    8 R multiple optional Whole;
    9 R single mandatory Whole;
};

fn object(alloc: Global, id: u16, rows: &[ResourceDef]) -> Result<ObjectDef, AllocError>
    ensures { IfOk result (λ o. o ≡ record { id = id; resources = rows.now }) }
{
    Ok(ObjectDef {
        id,
        resources: Resources::from_vec(Vec::from_slice(alloc, rows)?),
    })
}

/// The definitions of the base objects, by ascending number.
pub(crate) fn objects(alloc: Global) -> Result<Vec<ObjectDef>, AllocError>
    ensures { IfOk result (λ v. v.items ≡ base) }
{
    let mut objects = Vec::with_capacity(alloc, 5)?;
    objects.push(object(alloc, object_number::SECURITY, &[])?)?;
    objects.push(object(alloc, object_number::SERVER, &SERVER)?)?;
    objects.push(object(alloc, object_number::ACCESS_CONTROL, &ACCESS_CONTROL)?)?;
    objects.push(object(alloc, object_number::DEVICE, &DEVICE)?)?;
    objects.push(object(alloc, object_number::FIRMWARE_UPDATE, &FIRMWARE_UPDATE)?)?;
    Ok(objects)
}
