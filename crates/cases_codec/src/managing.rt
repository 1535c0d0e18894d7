//! What servers may do to the instances of a store, and how instances come and go (OMA LwM2M 1.1 Core, access control,
//! Create and Delete). `stores` calls it for these operations.

use crate::forms::last_bytes;
use crate::places::{last_place, place, put_number_or_none, put_yes_no};
use crate::question::Question;
use crate::stores::put_outcome;
use access_control::{Rights, may_create, rights};
use case_sheet::Sheet;
use device_instances::{create, free_number, lack_of_room, number_for};
use instance_store::Store;
use lwm2m_payloads::{Assignments, Creation, creation_given};
use lwm2m_values::ValueKind;
use object_defs::{InstancePath, Ops, ResourceDef};

/// The resources of the instances that are created: 0 a mandatory Integer, 1 an optional text that can only be written,
/// 2 an optional multiple Integer.
const RESOURCES: [ResourceDef; 3] = [
    ResourceDef {
        id: 0,
        ops: Ops::RW,
        multiple: false,
        mandatory: true,
        kind: ValueKind::Whole,
    },
    ResourceDef {
        id: 1,
        ops: Ops::W,
        multiple: false,
        mandatory: false,
        kind: ValueKind::Text,
    },
    ResourceDef {
        id: 2,
        ops: Ops::RW,
        multiple: true,
        mandatory: false,
        kind: ValueKind::Whole,
    },
];

/// Adds the letters of the rights, in the order R, W, E, D, C, or `-` for none.
fn put_letters(out: &mut Sheet, rights: Rights) {
    let letters = [
        (rights.read, "R"),
        (rights.write, "W"),
        (rights.execute, "E"),
        (rights.delete, "D"),
        (rights.create, "C"),
    ];
    let mut has_none = true;
    for (is_there, letter) in letters {
        if is_there {
            out.put(letter);
            has_none = false;
        }
    }
    if has_none {
        out.put("-");
    }
}

/// Answers an operation that changes nothing.
pub fn ask(question: &mut Question<'_>, out: &mut Sheet, store: &Store, name: &str) {
    match name {
        "free" => put_number_or_none(out, free_number(store, question.last_half())),
        "number" => put_number_or_none(out, new_number(question, store)),
        _ => ask_by_accounts(question, out, store, name),
    }
}

/// `number OBJECT`, or `number OBJECT NUMBER` where a Create names one: the number of a new instance.
fn new_number(question: &mut Question<'_>, store: &Store) -> Option<u16> {
    let object = question.half();
    if question.is_over() {
        return number_for(store, object, None);
    }
    number_for(store, object, Some(question.last_half()))
}

/// Answers one of these, in a device of this many accounts: `rights ACCOUNTS SERVER PLACE` by the letters,
/// `may-create ACCOUNTS SERVER OBJECT` and `room ACCOUNTS PLACE PAYLOAD` by whether it is so.
fn ask_by_accounts(question: &mut Question<'_>, out: &mut Sheet, store: &Store, name: &str) {
    let accounts = usize::from(question.half());
    match name {
        "rights" => {
            let server = question.half();
            let InstancePath { object, instance } = last_place(question);
            put_letters(out, rights(store, accounts, server, object, instance));
        }
        "may-create" => {
            let (server, object) = (question.half(), question.last_half());
            put_yes_no(out, may_create(store, accounts, server, object));
        }
        _ => room(question, out, store, accounts),
    }
}

fn room(question: &mut Question<'_>, out: &mut Sheet, store: &Store, accounts: usize) {
    let place = place(question);
    if let Some(assigned) = assigned(question) {
        let lack = lack_of_room(store, accounts, &RESOURCES, place, &assigned);
        put_yes_no(out, lack.is_none());
    }
}

/// The payload that is the last word: what it gives to a new instance.
fn assigned(question: &mut Question<'_>) -> Option<Assignments> {
    let payload = last_bytes(question);
    match creation_given(question.alloc(), &RESOURCES, payload.as_slice()) {
        Ok(
            Ok(
                Creation {
                    number: _,
                    assigned,
                },
            ),
        ) => Some(assigned),
        Ok(Err(_)) => {
            question.refuse("the payload creates nothing");
            None
        }
        Err(_) => {
            question.cut();
            None
        }
    }
}

/// `create ACCOUNTS SERVER PLACE PAYLOAD`: creates an instance of another object than 2, of which nobody does.
pub fn create_by(question: &mut Question<'_>, out: &mut Sheet, store: &mut Store) {
    let (accounts, server) = (usize::from(question.half()), question.half());
    let place = place(question);
    if place.object == 2 {
        question.refuse("nobody creates instances of object 2");
    } else if let Some(assigned) = assigned(question) {
        put_outcome(
            out,
            create(store, accounts, server, &RESOURCES, place, assigned),
        );
    }
}
