//! Firmware update (OMA LwM2M 1.1 Core, object 5): which events are taken in which State, and what they lead to.

use crate::forms::{last_bytes, put_text};
use crate::places::text_value;
use crate::question::Question;
use crate::stating::{stated, stated_store};
use case_sheet::Sheet;
use device_firmware::{FirmwareEvent, take, takes};
use instance_store::Store;
use lwm2m_values::Value;
use object_defs::ResourcePath;

/// Answers a question of this subject; `false` where the subject is none of this module's.
pub fn answer(subject: &str, question: &mut Question<'_>, out: &mut Sheet) -> bool {
    match subject {
        "firmware" => event_in_state(question, out),
        "package" => package(question, out),
        "package-uri" => package_uri(question, out),
        _ => return false,
    }
    true
}

fn resource(resource: u16) -> ResourcePath {
    ResourcePath {
        object: 5,
        instance: 0,
        resource,
    }
}

/// The device has instance 0 of object 5 in the State of the next word, with Update Result 9 and the Package URI
/// coap://old; or, for the word `none`, no such instance.
fn store_in_state(question: &mut Question<'_>) -> Store {
    let word = question.word();
    if word == "none" {
        return Store::new(question.alloc());
    }
    let mut store = stated_store(question, "/5/0/1 text coap://old; /5/0/5 whole 9");
    let state = Value::Whole(question.integer_of(word));
    stated(question, store.put(resource(3), state));
    store
}

/// The event that words name: `clear`, `package`, `uri` to coap://new, `update`, or `ended CODE`.
fn event(question: &mut Question<'_>) -> FirmwareEvent {
    let name = question.word();
    let code = if name == "ended" { question.byte() } else { 0 };
    question.end();
    match name {
        "clear" => FirmwareEvent::Cleared,
        "package" => FirmwareEvent::Package,
        "uri" => FirmwareEvent::Uri(text_value(question, "coap://new")),
        "update" => FirmwareEvent::Update,
        "ended" => FirmwareEvent::Ended(code),
        _ => {
            question.refuse("not an event");
            FirmwareEvent::Cleared
        }
    }
}

/// `firmware STATE EVENT`: whether the event is taken, and the State, the Update Result and the Package URI after it.
fn event_in_state(question: &mut Question<'_>, out: &mut Sheet) {
    let mut store = store_in_state(question);
    let event = event(question);
    take_event(out, &mut store, event);
}

fn take_event(out: &mut Sheet, store: &mut Store, event: FirmwareEvent) {
    let can_be_taken = takes(store, &event);
    match take(out.alloc(), store, event) {
        Ok(is_taken) if is_taken != can_be_taken => out.put("takes and take differ"),
        Ok(is_taken) => put_state(out, store, is_taken),
        Err(_) => out.cut(),
    }
}

fn put_state(out: &mut Sheet, store: &Store, is_taken: bool) {
    out.put(if is_taken { "taken" } else { "refused" });
    for number in [3, 5, 1] {
        out.put(" ");
        put_held(out, store, number);
    }
}

/// Adds what a resource of the instance holds, or `none`.
fn put_held(out: &mut Sheet, store: &Store, number: u16) {
    match store.get(resource(number).single()) {
        Some(Value::Whole(number)) => out.put_signed(*number),
        Some(Value::Text(text)) => put_text(out, text.as_str()),
        _ => out.put("none"),
    }
}

/// Adds what writing the Package or the Package URI is.
fn put_name(out: &mut Sheet, event: &FirmwareEvent) {
    out.put(match event {
        FirmwareEvent::Cleared => "clear",
        FirmwareEvent::Package => "package",
        FirmwareEvent::Uri(_) => "uri",
        FirmwareEvent::Update => "update",
        FirmwareEvent::Ended(_) => "ended",
    });
}

/// `package HEX`: what writing these bytes as the Package is.
fn package(question: &mut Question<'_>, out: &mut Sheet) {
    let content = last_bytes(question);
    put_name(out, &FirmwareEvent::of_package(content.as_slice()));
}

/// `package-uri TEXT`: what writing this text as the Package URI is.
fn package_uri(question: &mut Question<'_>, out: &mut Sheet) {
    let word = question.word();
    question.end();
    put_name(out, &FirmwareEvent::of_uri(text_value(question, word)));
}
