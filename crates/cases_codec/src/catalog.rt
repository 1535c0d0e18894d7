//! The definitions of objects and of their resources (OMA LwM2M 1.1 Core).

use crate::forms::text;
use crate::places::put_number_or_none;
use crate::question::Question;
use crate::values::{kind, kind_name};
use case_sheet::Sheet;
use object_defs::{Catalog, CatalogFault, Ops, ResourceDef, decimal_number};

/// Answers a question of this subject; `false` where the subject is none of this module's.
pub fn answer(subject: &str, question: &mut Question<'_>, out: &mut Sheet) -> bool {
    match subject {
        "decimal" => decimal(question, out),
        "catalog" => steps(question, out),
        _ => return false,
    }
    true
}

/// `decimal TEXT`: the number that a segment of a path is, or `none`.
fn decimal(question: &mut Question<'_>, out: &mut Sheet) {
    let text = text(question);
    put_number_or_none(out, decimal_number(text.as_slice()));
}

/// `catalog STEP; STEP; ..`: what a copy of the base catalog answers to each of these in turn.
fn steps(question: &mut Question<'_>, out: &mut Sheet) {
    match Catalog::base(out.alloc()) {
        Ok(base) => take_steps_of_copy(question, out, &base),
        Err(_) => out.cut(),
    }
}

fn take_steps_of_copy(question: &mut Question<'_>, out: &mut Sheet, base: &Catalog) {
    match base.copy() {
        Ok(mut catalog) => take_steps(question, out, &mut catalog),
        Err(_) => out.cut(),
    }
}

fn take_steps(question: &mut Question<'_>, out: &mut Sheet, catalog: &mut Catalog) {
    for step in question.rest().split("; ") {
        question.turn_to(step);
        out.next("; ");
        take_step(question, out, catalog);
    }
}

fn take_step(question: &mut Question<'_>, out: &mut Sheet, catalog: &mut Catalog) {
    match question.word() {
        "vendor" => add_objects(question, out, catalog),
        "def" => add_resources(question, out, catalog),
        "object" => object(question, out, catalog),
        "resource" => resource(question, out, catalog),
        "objects" => objects(question, out, catalog),
        _ => question.refuse("not a step of a catalog"),
    }
}

/// `vendor N` or `vendor N..M`: adds vendors' objects, up to the first that is refused.
fn add_objects(question: &mut Question<'_>, out: &mut Sheet, catalog: &mut Catalog) {
    let (first, last) = range(question);
    for id in first..=last {
        if let Err(fault) = catalog.add_vendor(id) {
            put_fault(out, fault);
            return;
        }
    }
    out.put("ok");
}

/// `def O/R OPS COUNT NEED KIND` or `def O/R..S ..`: adds resources to an object, up to the first that is refused.
fn add_resources(question: &mut Question<'_>, out: &mut Sheet, catalog: &mut Catalog) {
    let (object, ids) = path(question);
    let (first, last) = range_of(question, ids);
    let definition = definition(question, first);
    add_each(out, catalog, object, definition, last);
}

/// The words that are left as the definition of the resource of this number.
fn definition(question: &mut Question<'_>, id: u16) -> ResourceDef {
    let definition = ResourceDef {
        id,
        ops: ops(question),
        multiple: either(question, "single", "multiple"),
        mandatory: either(question, "optional", "mandatory"),
        kind: kind(question),
    };
    question.end();
    definition
}

/// Adds this resource, and the same of each further number up to the last one.
fn add_each(
    out: &mut Sheet,
    catalog: &mut Catalog,
    object: u16,
    mut definition: ResourceDef,
    last: u16,
) {
    for id in definition.id..=last {
        definition.id = id;
        if let Err(fault) = catalog.add_resource(object, definition) {
            put_fault(out, fault);
            return;
        }
    }
    out.put("ok");
}

fn put_fault(out: &mut Sheet, fault: CatalogFault) {
    match fault {
        CatalogFault::IdRange => out.put("id-range"),
        CatalogFault::Duplicate => out.put("duplicate"),
        CatalogFault::TooMany => out.put("too-many"),
        CatalogFault::Memory => out.cut(),
    }
}

/// `object O`: how many resources the object has, or `none` where there is no such object.
fn object(question: &mut Question<'_>, out: &mut Sheet, catalog: &Catalog) {
    match catalog.object(question.last_half()) {
        Some(object) => out.put_number(object.resources.as_slice().len() as u64),
        None => out.put("none"),
    }
}

/// `resource O/R`: the definition of a resource, or `none`.
fn resource(question: &mut Question<'_>, out: &mut Sheet, catalog: &Catalog) {
    let (object, id) = path(question);
    let id = question.half_of(id);
    question.end();
    match catalog.resource(object, id) {
        Some(found) => put_definition(out, found),
        None => out.put("none"),
    }
}

/// Adds the definition of a resource: its number, the operations, what else is so, and the kind.
pub fn put_definition(out: &mut Sheet, definition: &ResourceDef) {
    let is_multiple = definition.multiple;
    let is_mandatory = definition.mandatory;
    out.put_number(u64::from(definition.id));
    out.put_all(&[
        " ",
        ops_name(definition.ops),
        if is_multiple { " multiple" } else { " single" },
        if is_mandatory {
            " mandatory "
        } else {
            " optional "
        },
        kind_name(definition.kind),
    ]);
}

/// `objects`: the numbers of the objects, in the order in which they stand.
fn objects(question: &mut Question<'_>, out: &mut Sheet, catalog: &Catalog) {
    question.end();
    let mut separator = "";
    for object in catalog.objects() {
        out.put(separator);
        out.put_number(u64::from(object.id));
        separator = " ";
    }
}

/// The last word as the first and the last number of `N` or `N..M`.
fn range(question: &mut Question<'_>) -> (u16, u16) {
    let word = question.word();
    question.end();
    range_of(question, word)
}

fn range_of(question: &mut Question<'_>, word: &str) -> (u16, u16) {
    let (first, last) = match word.split_once("..") {
        Some(ends) => ends,
        None => (word, word),
    };
    (question.half_of(first), question.half_of(last))
}

/// The next word as the object of `O/R`, and what stands after the slash.
fn path<'a>(question: &mut Question<'a>) -> (u16, &'a str) {
    match question.word().split_once('/') {
        Some((object, rest)) => (question.half_of(object), rest),
        None => {
            question.refuse("a resource without a slash");
            (0, "")
        }
    }
}

/// Whether the next word is the second of two names, and not the first.
fn either(question: &mut Question<'_>, no: &str, yes: &str) -> bool {
    let word = question.word();
    let is_yes = word == yes;
    if !is_yes && word != no {
        question.refuse("another word was expected");
    }
    is_yes
}

/// The operations that the next word names.
fn ops(question: &mut Question<'_>) -> Ops {
    match question.word() {
        "r" => Ops::R,
        "w" => Ops::W,
        "rw" => Ops::RW,
        "e" => Ops::E,
        _ => {
            question.refuse("not operations");
            Ops::R
        }
    }
}

fn ops_name(ops: Ops) -> &'static str {
    match ops {
        Ops::R => "r",
        Ops::W => "w",
        Ops::RW => "rw",
        Ops::E => "e",
    }
}
