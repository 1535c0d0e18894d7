//! Rule 11: what of a payload, of queries or of arguments is not valid.

ghost use Rattle.std.specs.Prelude.{◌≡◌, true, false, is_some, IfOk, Ok};
ghost use Rattle.lwm2m_payloads.specs.Scanning.{are_arguments};
ghost use Rattle.device_requests.specs.Create.{newborn};
ghost use Rattle.device_requests.specs.Read.{format_at};
ghost use Rattle.device_requests.specs.Refusals.{is_invalid, lacks_format};
ghost use Rattle.device_requests.specs.Request.{purpose_of, request_of};
ghost use Rattle.device_requests.specs.Write.{new_values};
ghost use Rattle.request_reasons.specs.Unfit.{IsToldOf, IsToldOfCreation, IsUnfit, IsUnfitCreate, IsUnfitExecute};
ghost use Rattle.request_reasons.specs.Unfit.{IsUnfitWrite};

use crate::queries::unfit_annotation;
use crate::unfit::Unfit;
use coap_codec::Message;
use device_requests::{
    Client, CreationFault, Operation, Request, creation_fault, definition_at, payload_fault,
};
use lwm2m_payloads::{Format, PayloadFault, argument_fault, format_for};
use lwm2m_values::tlv_place;
use object_defs::Path;
use std::alloc::{AllocError, Global};

/// What is told of the fault of a payload, read in a format.
fn told_of(payload: &[u8], format: Format, fault: PayloadFault) -> Unfit
    ensures { IsToldOf payload.now format fault result }
{
    match fault {
        PayloadFault::NotTlv => match tlv_place(payload) {
            Some(place) => Unfit::NotTlv { place },
            None => Unfit::Payload { format, fault },
        },
        _ => Unfit::Payload { format, fault },
    }
}

/// What is told of the fault of a Create.
fn told_of_creation(payload: &[u8], fault: CreationFault) -> Unfit
    ensures { IsToldOfCreation payload.now fault result }
{
    match fault {
        CreationFault::Payload(fault) => told_of(payload, Format::Tlv, fault),
        CreationFault::Taken { number } => Unfit::Taken { number },
        CreationFault::NoNumber => Unfit::NoNumber,
    }
}

/// What of the payload of a Write gives nothing, in the format that Content-Format names.
fn unfit_write(
    alloc: Global,
    client: &Client,
    path: Path,
    number: Option<u16>,
    payload: &[u8],
) -> Result<Unfit, AllocError>
    requires format { is_some (format_at client.now.catalog path number) ≡ true }
    requires invalid { is_some (new_values client.now path number payload.now) ≡ false }
    ensures { IfOk result (λ u. IsUnfitWrite client.now path number payload.now u) }
{
    let catalog = client.catalog();
    let Some(format) = format_for(path, definition_at(catalog, path), number) else {
        unreachable!()
    };
    match payload_fault(alloc, catalog, path, payload, format)? {
        Some(fault) => Ok(told_of(payload, format, fault)),
        None => unreachable!(),
    }
}

/// What of a payload does not make an instance.
fn unfit_create(
    alloc: Global,
    client: &Client,
    object: u16,
    payload: &[u8],
) -> Result<Unfit, AllocError>
    requires { is_some (newborn client.now object payload.now) ≡ false }
    ensures { IfOk result (λ u. IsUnfitCreate client.now object payload.now u) }
{
    match creation_fault(alloc, client, object, payload)? {
        Some(fault) => Ok(told_of_creation(payload, fault)),
        None => unreachable!(),
    }
}

/// Where a payload stops being arguments.
fn unfit_execute(payload: &[u8]) -> Unfit
    requires { are_arguments payload.now ≡ false }
    ensures { IsUnfitExecute payload.now result }
{
    match argument_fault(payload) {
        Some(at) => Unfit::NotArguments {
            at,
            byte: payload.get(at).copied(),
        },
        None => unreachable!(),
    }
}

/// What a request gives that is not valid.
pub(crate) fn unfit_of(
    alloc: Global,
    client: &Client,
    server: u16,
    message: &Message,
    request: Request,
) -> Result<Unfit, AllocError>
    requires read { request_of message.now ≡ Ok request }
    requires format { lacks_format client.now.catalog request.path
        (purpose_of message.now request.operation) ≡ false }
    requires invalid { is_invalid client.now server request.path
        (purpose_of message.now request.operation) ≡ true }
    ensures { IfOk result
        (λ u. IsUnfit client.now server request.path (purpose_of message.now request.operation) u) }
{
    let path = request.path;
    let number = request.content_format;
    let payload = message.payload().as_slice();
    match request.operation {
        Operation::WriteReplace | Operation::WritePartial => {
            unfit_write(alloc, client, path, number, payload)
        }
        Operation::WriteAttributes => unfit_annotation(alloc, client, server, path, message),
        Operation::Create => unfit_create(alloc, client, path.object(), payload),
        Operation::Execute => Ok(unfit_execute(payload)),
        Operation::Read | Operation::Discover | Operation::Delete => unreachable!(),
    }
}
