//! What a store is stated to hold.

use crate::places::{path, place};
use crate::question::Question;
use crate::values::value;
use instance_store::{Store, StoreFault};
use lwm2m_values::Value;
use object_defs::{InstancePath, Path, ResourcePath};

/// The store that a text states, its parts between semicolons.
pub fn stated_store<'a>(question: &mut Question<'a>, text: &'a str) -> Store {
    let mut store = Store::new(question.alloc());
    if !text.is_empty() {
        state(question, &mut store, text);
    }
    store
}

/// States each part of a text. The words that are left of the question stay.
pub fn state<'a>(question: &mut Question<'a>, store: &mut Store, text: &'a str) {
    let rest = question.rest();
    for part in text.split(';') {
        question.turn_to(part.trim());
        state_part(question, store);
    }
    question.turn_to(rest);
}

/// Refuses a statement that the store refuses.
pub fn stated(question: &mut Question<'_>, called: Result<(), StoreFault>) {
    match called {
        Ok(()) => {}
        Err(StoreFault::Memory) => question.cut(),
        Err(_) => question.refuse("no store holds this"),
    }
}

/// States one thing: an instance, a value and its instance, an instance of object 2, or a number of instances or parts.
fn state_part(question: &mut Question<'_>, store: &mut Store) {
    let words = question.rest();
    match question.word() {
        "control" => state_control(question, store),
        "fill" => {
            let filled = fill(question, store);
            stated(question, filled);
        }
        _ => {
            question.turn_to(words);
            state_value(question, store);
        }
    }
}

/// States an instance, or a value and its instance.
fn state_value(question: &mut Question<'_>, store: &mut Store) {
    let path = path(question);
    ensure(question, store, path);
    if !question.is_over() {
        let value = value(question);
        let outcome = put(question, store, path, value);
        stated(question, outcome);
    }
}

/// Adds the instance of a path where it is not there yet.
fn ensure(question: &mut Question<'_>, store: &mut Store, path: Path) {
    let (object, instance) = match path {
        Path::Object(_) => {
            question.refuse("an object has no value");
            return;
        }
        Path::Instance(object, instance) => (object, instance),
        Path::Resource(object, instance, _) => (object, instance),
        Path::Part(object, instance, _, _) => (object, instance),
    };
    let place = InstancePath { object, instance };
    if !store.has_instance(place) {
        stated(question, store.add_instance(place));
    }
}

/// `control NUMBER PLACE SERVER`: the instance of object 2 Access Control of this number speaks of a place and belongs
/// to a server.
fn state_control(question: &mut Question<'_>, store: &mut Store) {
    let instance = question.half();
    let (place, server) = (place(question), question.last_half());
    ensure(question, store, Path::Instance(2, instance));
    for (resource, number) in [(0, place.object), (1, place.instance), (3, server)] {
        let path = ResourcePath {
            object: 2,
            instance,
            resource,
        };
        stated(question, store.put(path, Value::Whole(i64::from(number))));
    }
}

/// Sets a value at the path of a resource or of a part.
pub fn put(
    question: &mut Question<'_>,
    store: &mut Store,
    path: Path,
    value: Value,
) -> Result<(), StoreFault> {
    let (object, instance, resource, part) = match path {
        Path::Resource(object, instance, resource) => (object, instance, resource, None),
        Path::Part(object, instance, resource, part) => (object, instance, resource, Some(part)),
        _ => {
            question.refuse("not the path of a value");
            return Ok(());
        }
    };
    let path = ResourcePath {
        object,
        instance,
        resource,
    };
    match part {
        None => store.put(path, value),
        Some(part) => store.put_part(path, part, value),
    }
}

/// `fill PATH COUNT`: adds the instances 0, 1 .. of an object, or sets the parts 0, 1 .. of a resource to the Integer
/// 0, this many, up to the first that is refused.
pub fn fill(question: &mut Question<'_>, store: &mut Store) -> Result<(), StoreFault> {
    let (path, count) = (path(question), question.last_half());
    for number in 0..count {
        fill_one(question, store, path, number)?;
    }
    Ok(())
}

fn fill_one(
    question: &mut Question<'_>,
    store: &mut Store,
    path: Path,
    number: u16,
) -> Result<(), StoreFault> {
    match path {
        Path::Object(object) => store.add_instance(InstancePath {
            object,
            instance: number,
        }),
        Path::Resource(object, instance, resource) => {
            let part = Path::Part(object, instance, resource, number);
            put(question, store, part, Value::Whole(0))
        }
        _ => {
            question.refuse("neither an object nor a resource");
            Ok(())
        }
    }
}
