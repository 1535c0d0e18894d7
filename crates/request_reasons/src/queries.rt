//! Rule 11: which query of a Write-Attributes is not valid, or that gt, lt and st would not agree.

ghost use Rattle.std.specs.Prelude.{◌≡◌, ℕ, List, [], true, false, is_some, int_lt, IfOk, MatchResult, Ok, Err, None};
ghost use Rattle.std.specs.Prelude.{if◌then◌else◌};
ghost use Rattle.std.specs.List.{list_any};
ghost use Rattle.object_defs.specs.declared.path.Path.{Path as PathData};
ghost use Rattle.notifier.specs.Attributes.{Numbers, assigned_number, is_consistent, with_changes};
ghost use Rattle.notifier.specs.Query.{changes_of, is_of, reading_of};
ghost use Rattle.notifier.specs.declared.attribute.Change.{Change as ChangeData};
ghost use Rattle.notifier.specs.declared.attribute.Level.{Level as LevelData};
ghost use Rattle.notifier.specs.declared.attribute.Name.TheVariants as name;
ghost use Rattle.device_requests.specs.Options.{queries_of};
ghost use Rattle.device_requests.specs.WriteAttributes.{attributes_given, level_at};
ghost use Rattle.request_reasons.specs.Unfit.{Disagrees, IsNumberEnd, IsUnfitAnnotation, standing};

use crate::unfit::{Standing, Unfit};
use coap_codec::option_number::URI_QUERY;
use coap_codec::{Message, Opt};
use device_requests::{Client, level_at};
use notifier::{Attributes, Change, Changes, Level, Name, QueryFault, query_fault_at};
use object_defs::Path;
use std::alloc::{AllocError, Global};

/// Where the number of a query stops being one, if that is its fault.
fn number_end(query: &[u8], fault: QueryFault) -> Option<usize>
    ensures { (changes : List ChangeData) (level : LevelData) → reading_of changes level query.now ≡ Err fault
        → IsNumberEnd query.now fault result }
{
    match fault {
        QueryFault::BadNumber => Some(query_fault_at(query)),
        _ => None,
    }
}

/// The changes that queries spell, or the first query that spells none.
fn changes_in(
    alloc: Global,
    level: Level,
    options: &[Opt],
) -> Result<Result<Changes, Unfit>, AllocError>
    ensures { IfOk result (λ read. MatchResult read
        (λ changes. changes_of [] level (queries_of options.now) ≡ Ok changes)
        (λ u. (m : Numbers) (server : ℕ) (path : PathData)
        → IsUnfitAnnotation m server path level (queries_of options.now) u)) }
{
    // For the proof alone: a slice whose length is read is known to have fewer than 2^64 items.
    let _known = options.len();
    let mut changes = Changes::new(alloc);
    let mut place: usize = 0;
    let mut rest = options;
    while let [option, others @ ..] = rest {
        if option.number == URI_QUERY {
            place += 1;
            let query = option.value.as_slice();
            match changes.add_query(query, level) {
                Ok(()) => {}
                Err(fault) => match fault {
                    QueryFault::Memory => return Err(AllocError),
                    _ => {
                        let bytes = option.value.clone()?;
                        let at = number_end(query, fault);
                        return Ok(Err(Unfit::Query {
                            place,
                            bytes,
                            fault,
                            at,
                        }));
                    }
                },
            }
        }
        rest = others;
    }
    Ok(Ok(changes))
}

/// The number that an attribute has after changes.
fn number_after(
    attributes: &Attributes,
    server: u16,
    path: Path,
    changes: &[Change],
    name: Name,
) -> Option<i64>
    ensures { result ≡ assigned_number (with_changes attributes.now server path changes.now) server path name }
{
    let mut number = attributes.assigned(server, path, name);
    for change in changes {
        if change.name == name {
            number = change.number;
        }
    }
    number
}

/// Whether one of the changes gives an attribute its number.
fn is_given(changes: &[Change], name: Name) -> bool
    ensures { result ≡ list_any (is_of name) changes.now }
{
    changes.iter().any(|change| change.name == name)
}

/// The number that an attribute has after changes, and whether one of them gives it.
fn standing(
    attributes: &Attributes,
    server: u16,
    path: Path,
    changes: &[Change],
    name: Name,
) -> Option<Standing>
    ensures { result ≡ standing attributes.now server path changes.now name }
{
    let is_given = is_given(changes, name);
    match number_after(attributes, server, path, changes, name) {
        Some(number) => Some(Standing { number, is_given }),
        None => None,
    }
}

/// The st that takes part where lt is less than gt.
fn step_with(
    attributes: &Attributes,
    server: u16,
    path: Path,
    changes: &[Change],
    gt: Standing,
    lt: Standing,
) -> Option<Standing>
    ensures { result ≡ (if int_lt lt.number gt.number
        then standing attributes.now server path changes.now name.St else None) }
{
    if lt.number < gt.number {
        return standing(attributes, server, path, changes, Name::St);
    }
    None
}

/// The numbers that do not agree after changes.
fn disagreement(
    attributes: &Attributes,
    server: u16,
    path: Path,
    changes: &[Change],
) -> (Standing, Standing, Option<Standing>)
    requires { is_consistent (with_changes attributes.now server path changes.now) server path ≡ false }
    ensures { Disagrees attributes.now server path changes.now result.0 result.1 result.2 }
{
    let Some(gt) = standing(attributes, server, path, changes, Name::Gt) else {
        unreachable!()
    };
    let Some(lt) = standing(attributes, server, path, changes, Name::Lt) else {
        unreachable!()
    };
    (gt, lt, step_with(attributes, server, path, changes, gt, lt))
}

/// What of the queries of a Write-Attributes is not valid: one of them, or that gt, lt and st would not agree.
pub(crate) fn unfit_annotation(
    alloc: Global,
    client: &Client,
    server: u16,
    path: Path,
    message: &Message,
) -> Result<Unfit, AllocError>
    requires { is_some (attributes_given client.now server path (queries_of message.now.options)) ≡ false }
    ensures { IfOk result (λ u. IsUnfitAnnotation client.now.attributes server path
        (level_at client.now.catalog path) (queries_of message.now.options) u) }
{
    let level = level_at(client.catalog(), path);
    let read = changes_in(alloc, level, message.options().as_slice())?;
    match read {
        Err(unfit) => Ok(unfit),
        Ok(changes) => {
            let (gt, lt, st) = disagreement(client.attributes(), server, path, changes.as_slice());
            Ok(Unfit::Inconsistent { gt, lt, st })
        }
    }
}
