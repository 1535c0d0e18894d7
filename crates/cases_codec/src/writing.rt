//! What a Write does to a resource or a part of one (OMA LwM2M 1.1 Core), of a device that holds some values.

use crate::forms::last_bytes;
use crate::payloads::{format, put_payload};
use crate::places::path;
use crate::question::Question;
use crate::stating::{stated, stated_store};
use case_sheet::Sheet;
use lwm2m_payloads::{
    Given, Mode, PayloadFault, part_given, resource_given, set_given, values_tlv,
};
use lwm2m_values::ValueKind;
use object_defs::{Ops, Path, ResourceDef, ResourcePath};
use std::alloc::AllocError;

/// What the device holds.
const HELD: &str = "/1/0/1 whole 86400; /2/0/2/1 whole 7";

/// Lifetime of Server.
const LIFETIME: ResourceDef = ResourceDef {
    id: 1,
    ops: Ops::RW,
    multiple: false,
    mandatory: true,
    kind: ValueKind::Whole,
};

/// ACL of Access Control.
const ACL: ResourceDef = ResourceDef {
    id: 2,
    ops: Ops::RW,
    multiple: true,
    mandatory: false,
    kind: ValueKind::Whole,
};

/// `write /1/0/1 FORMAT PAYLOAD`, `write /2/0/2/PART FORMAT PAYLOAD`: what the resource shows after the Write to it
/// (Replace), or to its part (Partial Update); `none` where the payload gives nothing.
pub fn write(question: &mut Question<'_>, out: &mut Sheet) {
    let path = path(question);
    let format = format(question);
    let payload = last_bytes(question);
    match path {
        Path::Resource(1, 0, 1) => {
            let given = resource_given(out.alloc(), LIFETIME, format, payload.as_slice());
            take(question, out, Mode::Replace, 1, LIFETIME, given);
        }
        Path::Part(2, 0, 2, part) => {
            let given = part_given(out.alloc(), ACL, part, format, payload.as_slice());
            take(question, out, Mode::Update, 2, ACL, given);
        }
        _ => question.refuse("neither Lifetime nor a part of the ACL"),
    }
}

/// Sets what is given to a resource of instance 0 of an object.
fn take(
    question: &mut Question<'_>,
    out: &mut Sheet,
    mode: Mode,
    object: u16,
    definition: ResourceDef,
    given: Result<Result<Given, PayloadFault>, AllocError>,
) {
    let path = ResourcePath {
        object,
        instance: 0,
        resource: definition.id,
    };
    match given {
        Ok(Ok(given)) => set(question, out, mode, path, definition, given),
        Ok(Err(_)) => out.put("none"),
        Err(_) => out.cut(),
    }
}

fn set(
    question: &mut Question<'_>,
    out: &mut Sheet,
    mode: Mode,
    path: ResourcePath,
    definition: ResourceDef,
    given: Given,
) {
    let mut store = stated_store(question, HELD);
    stated(question, set_given(mode, &mut store, path, given));
    let shown = Path::Resource(path.object, path.instance, path.resource);
    put_payload(out, values_tlv(out.alloc(), &store, &[definition], shown));
}
