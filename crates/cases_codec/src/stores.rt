//! A store of instances and values (OMA LwM2M 1.1 Core): what operations on it answer.

use crate::managing;
use crate::places::{
    last_path, last_place, last_resource, path, put_full_path, put_numbers, put_path, put_yes_no,
};
use crate::question::Question;
use crate::stating::{fill, put, stated_store};
use crate::values::{put_value, value};
use case_sheet::Sheet;
use device_instances::delete;
use instance_store::{Store, StoreFault};
use lwm2m_values::Value;
use object_defs::{FullPath, InstancePath, Path};
use std::alloc::AllocError;

/// Answers a question of this subject; `false` where the subject is none of this module's.
pub fn answer(subject: &str, question: &mut Question<'_>, out: &mut Sheet) -> bool {
    if subject != "store" {
        return false;
    }
    operations(question, out);
    true
}

/// `store STATEMENT : OPERATIONS`, or without a statement where the store is empty: what each operation answers.
fn operations(question: &mut Question<'_>, out: &mut Sheet) {
    let words = question.rest();
    let (statement, operations) = match words.split_once(" : ") {
        Some(parts) => parts,
        None => ("", words),
    };
    let mut store = stated_store(question, statement);
    let mut kept = Store::new(out.alloc());
    for operation in operations.split(';') {
        question.turn_to(operation.trim());
        take(question, out, &mut store, &mut kept);
    }
}

/// Adds what an operation answers.
fn take(question: &mut Question<'_>, out: &mut Sheet, store: &mut Store, kept: &mut Store) {
    out.next("; ");
    match question.word() {
        "copy" => copy(out, store, kept),
        "restore" => copy(out, kept, store),
        name => operate(question, out, store, name),
    }
}

fn copy(out: &mut Sheet, from: &Store, to: &mut Store) {
    match from.copy() {
        Ok(copy) => {
            *to = copy;
            out.put("ok");
        }
        Err(_) => out.cut(),
    }
}

fn operate(question: &mut Question<'_>, out: &mut Sheet, store: &mut Store, name: &str) {
    match name {
        "add" | "remove" | "delete" => {
            let place = last_place(question);
            put_outcome(out, change_instance(store, name, place));
        }
        "clear" => put_outcome(out, store.clear_resource(last_resource(question))),
        "put" => put_outcome(out, put_value_at(question, store)),
        "fill" => put_outcome(out, fill(question, store)),
        "create" => managing::create_by(question, out, store),
        "rights" | "may-create" | "free" | "number" | "room" => {
            managing::ask(question, out, store, name);
        }
        _ => ask(question, out, store, name),
    }
}

/// `add PLACE`, `remove PLACE`, `delete PLACE`.
fn change_instance(store: &mut Store, name: &str, place: InstancePath) -> Result<(), StoreFault> {
    match name {
        "add" => store.add_instance(place),
        "remove" => store.remove_instance(place),
        _ => delete(store, place),
    }
}

/// `put PATH VALUE`.
fn put_value_at(question: &mut Question<'_>, store: &mut Store) -> Result<(), StoreFault> {
    let path = path(question);
    let value = value(question);
    put(question, store, path, value)
}

/// Adds what a call that changes a store answers.
pub fn put_outcome(out: &mut Sheet, called: Result<(), StoreFault>) {
    match called {
        Ok(()) => out.put("ok"),
        Err(StoreFault::Absent) => out.put("absent"),
        Err(StoreFault::Exists) => out.put("exists"),
        Err(StoreFault::Full) => out.put("full"),
        Err(StoreFault::Memory) => out.cut(),
    }
}

/// The operations that change nothing.
fn ask(question: &mut Question<'_>, out: &mut Sheet, store: &Store, name: &str) {
    match name {
        "get" => put_held(question, out, store),
        "has" => put_yes_no(out, store.has_instance(last_place(question))),
        "count" => put_count(out, store.values_in(last_path(question))),
        "len" => {
            question.end();
            out.put_number(store.len() as u64);
        }
        _ => list(question, out, store, name),
    }
}

/// The operations that list numbers, values or instances.
fn list(question: &mut Question<'_>, out: &mut Sheet, store: &Store, name: &str) {
    match name {
        "instances" => put_numbers(out, store.instances(question.last_half())),
        "resources" => put_list(out, store.resources(last_place(question))),
        "parts" => put_list(out, store.parts(last_resource(question))),
        "values" => put_values(out, store.values_in(last_path(question))),
        "all-values" => put_values(out, store.values()),
        "all-instances" => put_places(out, store.all_instances()),
        _ => question.refuse("not an operation on a store"),
    }
}

/// `get PATH`: adds the value at a path, or `none`.
fn put_held(question: &mut Question<'_>, out: &mut Sheet, store: &Store) {
    let Some(path) = last_path(question).full() else {
        question.refuse("not the path of a value");
        return;
    };
    match store.get(path) {
        Some(value) => put_value(out, value),
        None => out.put("none"),
    }
}

fn put_count(out: &mut Sheet, values: Result<Vec<(FullPath, &Value)>, AllocError>) {
    match values {
        Ok(values) => out.put_number(values.len() as u64),
        Err(_) => out.cut(),
    }
}

fn put_list(out: &mut Sheet, numbers: Result<Vec<u16>, AllocError>) {
    match numbers {
        Ok(numbers) => put_numbers(out, numbers.as_slice()),
        Err(_) => out.cut(),
    }
}

/// Adds values with their paths, commas between them, or `-` for none.
fn put_values(out: &mut Sheet, values: Result<Vec<(FullPath, &Value)>, AllocError>) {
    match values {
        Ok(values) => put_each_value(out, values.as_slice()),
        Err(_) => out.cut(),
    }
}

fn put_each_value(out: &mut Sheet, values: &[(FullPath, &Value)]) {
    if values.is_empty() {
        out.put("-");
    }
    let mut separator = "";
    for (path, value) in values {
        out.put(separator);
        put_full_path(out, *path);
        out.put(" ");
        put_value(out, value);
        separator = ", ";
    }
}

/// Adds instances, commas between them, or `-` for none.
fn put_places(out: &mut Sheet, places: Result<Vec<InstancePath>, AllocError>) {
    match places {
        Ok(places) => put_each_place(out, places.as_slice()),
        Err(_) => out.cut(),
    }
}

fn put_each_place(out: &mut Sheet, places: &[InstancePath]) {
    if places.is_empty() {
        out.put("-");
    }
    let mut separator = "";
    for place in places {
        out.put(separator);
        put_path(out, Path::Instance(place.object, place.instance));
        separator = ",";
    }
}
