//! A reason in words.

ghost use Rattle.std.specs.Prelude.{◌≡◌, IfOk};
ghost use Rattle.std.specs.String.{string_bytes};
ghost use Rattle.request_reasons.specs.Words.{event_text, limit_text, parts_text, room_text, state_text, state_words};
ghost use Rattle.request_reasons.specs.Words.{on_all_words, reason_text, rule_number, rule_words, target_text};
ghost use Rattle.request_reasons.specs.Words.{target_words, unserved_words};

use crate::format::Served;
use crate::limit::{FirmwareState, Limit};
use crate::payload_words::unfit_words;
use crate::reasons::{Reason, Rule};
use crate::right::{Grant, Letter};
use crate::target::Missing;
use crate::words::{
    format_words, kind_text, method_text, missing_text, operation_name, operations_text,
    option_text, path_fault_text, right_words, served_text,
};
use device_instances::NoRoom;
use device_requests::Operation;
use object_defs::object_number::FIRMWARE_UPDATE;
use object_defs::resource_number::{PACKAGE, PACKAGE_URI};
use object_defs::{Path, path_text};
use std::alloc::{AllocError, Global};

/// The number of a rule.
pub(crate) fn rule_number(rule: &Rule) -> u8
    ensures { result ≡ rule_number rule.now }
{
    match rule {
        Rule::Security => 6,
        Rule::Target { .. } => 7,
        Rule::Right { .. } | Rule::RightOnAll { .. } => 8,
        Rule::Operation { .. } => 9,
        Rule::Format { .. } => 10,
        Rule::Payload { .. } => 11,
        Rule::State { .. } | Rule::Limit { .. } => 12,
    }
}

/// Rule 7.
fn target_words(alloc: Global, path: Path, missing: Missing) -> Result<String, AllocError>
    ensures { IfOk result (λ text. string_bytes text ≡ target_words path missing) }
{
    let place = path_text(alloc, path)?;
    let what = missing_text(alloc, path, missing)?;
    format!(in alloc; "{place} does not exist, {what}")
}

/// Rule 8 of a Read of an object.
fn on_all_words(
    alloc: Global,
    server: u16,
    path: Path,
    count: usize,
    first: Path,
    grant: Grant,
) -> Result<String, AllocError>
    ensures { IfOk result (λ text. string_bytes text ≡ on_all_words server path count first grant) }
{
    let denied = right_words(alloc, server, Letter::R, first, grant)?;
    let place = path_text(alloc, path)?;
    format!(in alloc; "{denied}, as on each instance of {place} ({count} in all)")
}

/// Rule 10.
fn unserved_words(
    alloc: Global,
    path: Path,
    number: u16,
    served: Served,
) -> Result<String, AllocError>
    ensures { IfOk result (λ text. string_bytes text ≡ unserved_words path number served) }
{
    let format = format_words(alloc, number)?;
    let place = path_text(alloc, path)?;
    let others = served_text(served);
    format!(in alloc; "{format} is not served at {place}, {others}")
}

/// What a Write or an Execute at a path is for the firmware.
fn event_text(path: Path) -> &'static str
    ensures { result.now ≡ event_text path }
{
    match path {
        Path::Resource(FIRMWARE_UPDATE, _, PACKAGE) => "a Package",
        Path::Resource(FIRMWARE_UPDATE, _, PACKAGE_URI) => "a Package URI",
        _ => "Update",
    }
}

/// The State of the firmware.
fn state_text(state: FirmwareState) -> &'static str
    ensures { result.now ≡ state_text state }
{
    match state {
        FirmwareState::NoInstance => "there is no instance /5/0",
        FirmwareState::NoState => "/5/0/3 holds no State",
        FirmwareState::Idle => "/5/0/3 is 0 (Idle)",
        FirmwareState::Downloading => "/5/0/3 is 1 (Downloading)",
        FirmwareState::Downloaded => "/5/0/3 is 2 (Downloaded)",
        FirmwareState::Updating => "/5/0/3 is 3 (Updating)",
    }
}

/// Rule 12 of the firmware.
fn state_words(alloc: Global, path: Path, state: FirmwareState) -> Result<String, AllocError>
    ensures { IfOk result (λ text. string_bytes text ≡ state_words path state) }
{
    let state = state_text(state);
    let event = event_text(path);
    format!(in alloc; "{state}, where {event} is not taken")
}

/// A resource that would have too many parts.
fn parts_text(alloc: Global, resource: u16, count: usize) -> Result<String, AllocError>
    ensures { IfOk result (λ text. string_bytes text ≡ parts_text resource count) }
{
    format!(in alloc; "resource {resource} would have {count} parts, over 32")
}

/// A new instance for which there is no room.
fn room_text(alloc: Global, path: Path, lack: NoRoom) -> Result<String, AllocError>
    ensures { IfOk result (λ text. string_bytes text ≡ room_text path lack) }
{
    let object = path.object();
    match lack {
        NoRoom::Instances { count } => {
            format!(in alloc; "object {object} has {count} instances already")
        }
        NoRoom::Parts { resource, count } => parts_text(alloc, resource, count),
        NoRoom::Controls { count } => {
            format!(in alloc; "Access Control has {count} instances already")
        }
    }
}

/// Rule 12 of the limits.
fn limit_text(alloc: Global, path: Path, limit: Limit) -> Result<String, AllocError>
    ensures { IfOk result (λ text. string_bytes text ≡ limit_text path limit) }
{
    match limit {
        Limit::Size => String::from_str(alloc, "the payload would have more than 1,024 bytes"),
        Limit::Parts { excess } => parts_text(alloc, excess.resource, excess.count),
        Limit::Room { lack } => room_text(alloc, path, lack),
    }
}

/// What a rule read.
fn rule_words(
    alloc: Global,
    operation: Operation,
    path: Path,
    rule: &Rule,
) -> Result<String, AllocError>
    ensures { IfOk result (λ text. string_bytes text ≡ rule_words operation path rule.now) }
{
    let object = path.object();
    match rule {
        Rule::Security => String::from_str(alloc, "object 0 is closed to servers"),
        Rule::Target { missing } => target_words(alloc, path, *missing),
        Rule::Right {
            server,
            letter,
            instance,
            grant,
        } => {
            let place = Path::Instance(object, *instance);
            right_words(alloc, *server, *letter, place, *grant)
        }
        Rule::RightOnAll {
            server,
            count,
            instance,
            grant,
        } => {
            let first = Path::Instance(object, *instance);
            on_all_words(alloc, *server, path, *count, first, *grant)
        }
        Rule::Operation { operations } => operations_text(alloc, operation, path, *operations),
        Rule::Format { number, served } => unserved_words(alloc, path, *number, *served),
        Rule::Payload { unfit } => unfit_words(alloc, path, unfit),
        Rule::State { state } => state_words(alloc, path, *state),
        Rule::Limit { limit } => limit_text(alloc, path, *limit),
    }
}

/// A path, and what it names.
fn target_text(alloc: Global, path: Path) -> Result<String, AllocError>
    ensures { IfOk result (λ text. string_bytes text ≡ target_text path) }
{
    let place = path_text(alloc, path)?;
    let kind = kind_text(path);
    format!(in alloc; "{place}, {kind}")
}

/// A reason in words, in one line without its end: the rule by its number, the operation, and what the rule read; of
/// what is not refused the operation and its target, as in `Read of /3/0/9, a resource`.
pub fn reason_text(alloc: Global, reason: &Reason) -> Result<String, AllocError>
    ensures { IfOk result (λ text. string_bytes text ≡ reason_text reason.now) }
{
    match reason {
        Reason::Unrecognized { number, fault } => {
            let why = option_text(alloc, *number, *fault)?;
            format!(in alloc; "rule 3: {why}")
        }
        Reason::NoPath { fault } => {
            let why = path_fault_text(alloc, fault)?;
            format!(in alloc; "rule 4: {why}")
        }
        Reason::NoOperation { method, path } => {
            let method = method_text(alloc, *method, *path)?;
            let target = target_text(alloc, *path)?;
            format!(in alloc; "rule 5: {method} has no operation at {target}")
        }
        Reason::Refused {
            path,
            operation,
            rule,
        } => {
            let number = rule_number(rule);
            let name = operation_name(*operation);
            let why = rule_words(alloc, *operation, *path, rule)?;
            format!(in alloc; "rule {number} of {name}: {why}")
        }
        Reason::Done { path, operation } => {
            let name = operation_name(*operation);
            let target = target_text(alloc, *path)?;
            format!(in alloc; "{name} of {target}")
        }
    }
}
