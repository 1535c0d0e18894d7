//! Which rule decides the answer to a request.

ghost use Rattle.std.specs.Prelude.{◌≡◌, ℕ, true, option_map, IfOk, IfSome, Ok, Some, Err};
ghost use Rattle.object_defs.specs.Lines.{first_line};
ghost use Rattle.device_requests.specs.Client.{Client as ClientData};
ghost use Rattle.device_requests.specs.Laws.{request_lines};
ghost use Rattle.device_requests.specs.Refusals.{lacks_right, rules_of};
ghost use Rattle.device_requests.specs.Request.{outcome_of, purpose_of, request_of};
ghost use Rattle.device_requests.specs.Targets.{definition_at};
ghost use Rattle.request_reasons.specs.Reasons.{IsTold, IsWhy, ruling_at, ruling_of, ruling_with};
ghost use Rattle.request_reasons.specs.Rights.{is_read_of_object};

use crate::format::unserved;
use crate::invalid::unfit_of;
use crate::limit::{firmware_state_in, limit_of};
use crate::options::unrecognized;
use crate::reasons::{Reason, Rule};
use crate::right::{denied, denied_all};
use crate::target::missing_at;
use crate::uri_path::path_fault;
use coap_codec::Message;
use device_requests::{Client, Operation, Request, Ruling, definition_at, path_of};
use object_defs::{Catalog, Ops, Path};
use std::alloc::{AllocError, Global};

/// The rule that decides the answer to a request.
fn answered(client: &Client, server: u16, message: &Message) -> Result<Ruling, AllocError>
    ensures { IfOk result (λ ruling. ruling ≡ (outcome_of client.now server message.now).answer.ruling) }
{
    let mut copy = client.copy()?;
    let done = copy.answer(server, message)?;
    Ok(done.answer.ruling)
}

/// Why a message is refused as it is read, by this rule.
fn unread(message: &Message, ruling: Ruling) -> Result<Reason, AllocError>
    requires { request_of message.now ≡ Err ruling }
    ensures told { IfOk result
        (λ r. (client : ClientData) (server : ℕ) → IsTold client server message.now r) }
    ensures ruling { IfOk result (λ r. ruling_of message.now r ≡ ruling) }
{
    let options = message.options().as_slice();
    match ruling {
        Ruling::Options => {
            let (number, fault) = unrecognized(options);
            Ok(Reason::Unrecognized { number, fault })
        }
        Ruling::NoPath => Ok(Reason::NoPath {
            fault: path_fault(options)?,
        }),
        Ruling::Method => match path_of(options) {
            Some(path) => Ok(Reason::NoOperation {
                method: message.code(),
                path,
            }),
            None => unreachable!(),
        },
        _ => unreachable!(),
    }
}

/// Whether a request reads an object, which needs the letter R on one of its instances.
fn is_read_of_object(operation: Operation, path: Path) -> bool
    ensures { result ≡ is_read_of_object operation path }
{
    match (operation, path) {
        (Operation::Read, Path::Object(_)) => true,
        _ => false,
    }
}

/// The right that is lacking.
fn right_rule(client: &Client, server: u16, message: &Message, request: Request) -> Rule
    requires read { request_of message.now ≡ Ok request }
    requires denied { lacks_right client.now server request.path (purpose_of message.now request.operation) ≡ true }
    ensures ruling { ruling_at (purpose_of message.now request.operation) result ≡ Ruling.Right }
    ensures why { IsWhy client.now server request.path request.operation
        (purpose_of message.now request.operation) result }
{
    if is_read_of_object(request.operation, request.path) {
        let (count, instance, grant) = denied_all(client, server, request.path.object());
        return Rule::RightOnAll {
            server,
            count,
            instance,
            grant,
        };
    }
    let (letter, instance, grant) = denied(client, server, message, request);
    Rule::Right {
        server,
        letter,
        instance,
        grant,
    }
}

/// The operations of the resource that a path names.
fn operations_at(catalog: &Catalog, path: Path) -> Option<Ops>
    ensures { result ≡ option_map (λ d. d.ops) (definition_at catalog.now path) }
{
    definition_at(catalog, path).map(|definition| definition.ops)
}

/// The rule that decides a request for an operation, with what it read, or none where that is success.
fn rule_by(
    alloc: Global,
    client: &Client,
    server: u16,
    message: &Message,
    request: Request,
    ruling: Ruling,
) -> Result<Option<Rule>, AllocError>
    requires read { request_of message.now ≡ Ok request }
    requires first { first_line (rules_of client.now server request.path (purpose_of message.now request.operation))
        ≡ Some ruling }
    ensures ruling { IfOk result (λ found. ruling_with (purpose_of message.now request.operation) found ≡ ruling) }
    ensures why { IfOk result (λ found. IfSome found (λ rule.
        IsWhy client.now server request.path request.operation (purpose_of message.now request.operation) rule)) }
{
    match ruling {
        Ruling::Options | Ruling::NoPath | Ruling::Method => unreachable!(),
        Ruling::Security => Ok(Some(Rule::Security)),
        Ruling::Target => Ok(Some(Rule::Target {
            missing: missing_at(client.catalog(), client.store(), request.path),
        })),
        Ruling::Right => Ok(Some(right_rule(client, server, message, request))),
        Ruling::Operation => Ok(Some(Rule::Operation {
            operations: operations_at(client.catalog(), request.path),
        })),
        Ruling::Accept | Ruling::ContentFormat => {
            let (number, served) = unserved(client.catalog(), message, request);
            Ok(Some(Rule::Format { number, served }))
        }
        Ruling::Payload => Ok(Some(Rule::Payload {
            unfit: unfit_of(alloc, client, server, message, request)?,
        })),
        Ruling::State => Ok(Some(Rule::State {
            state: firmware_state_in(client.store()),
        })),
        Ruling::Limit => Ok(Some(Rule::Limit {
            limit: limit_of(alloc, client, server, message, request)?,
        })),
        Ruling::Created | Ruling::Deleted | Ruling::Changed | Ruling::Content => Ok(None),
    }
}

/// Why a request for an operation is answered by this rule.
fn asked(
    alloc: Global,
    client: &Client,
    server: u16,
    message: &Message,
    request: Request,
    ruling: Ruling,
) -> Result<Reason, AllocError>
    requires read { request_of message.now ≡ Ok request }
    requires answer { ruling ≡ (outcome_of client.now server message.now).answer.ruling }
    ensures ruling { IfOk result (λ r. ruling_of message.now r ≡ ruling) }
    ensures told { IfOk result (λ r. IsTold client.now server message.now r) }
{
    let path = request.path;
    let operation = request.operation;
    match rule_by(alloc, client, server, message, request, ruling)? {
        Some(rule) => Ok(Reason::Refused {
            path,
            operation,
            rule,
        }),
        None => Ok(Reason::Done { path, operation }),
    }
}

/// Why a device that manages this answers a request of a server as it does: the first rule that refuses it, or that
/// none does. The rule is that of the answer (`ruling`), and the first of the table of docs/device/requests.md whose
/// condition holds (`first`), and what is named beside it is what the rule read (`told`). Nothing changes by the
/// question.
pub fn reason(
    alloc: Global,
    client: &Client,
    server: u16,
    message: &Message,
) -> Result<Reason, AllocError>
    ensures first { IfOk result
        (λ r. first_line (request_lines client.now server message.now) ≡ Some (ruling_of message.now r)) }
    ensures ruling { IfOk result
        (λ r. ruling_of message.now r ≡ (outcome_of client.now server message.now).answer.ruling) }
    ensures told { IfOk result (λ r. IsTold client.now server message.now r) }
{
    match Request::read(message) {
        Err(ruling) => unread(message, ruling),
        Ok(request) => {
            let ruling = answered(client, server, message)?;
            asked(alloc, client, server, message, request, ruling)
        }
    }
}
