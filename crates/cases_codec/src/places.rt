//! The words for paths and texts, and for what several subjects answer.

use crate::forms::text_of;
use crate::question::Question;
use case_sheet::Sheet;
use lwm2m_values::Text;
use object_defs::{FullPath, InstancePath, Path, ResourcePath, path_text};

/// The next word as a path: one to four numbers, each after a slash.
pub fn path(question: &mut Question<'_>) -> Path {
    match question.word().split_once('/') {
        Some(("", numbers)) => path_of(question, numbers),
        _ => {
            question.refuse("not a path");
            Path::Object(0)
        }
    }
}

/// The path of these numbers.
fn path_of(question: &mut Question<'_>, numbers: &str) -> Path {
    let (object, rest) = front(question, numbers);
    let Some(numbers) = rest else {
        return Path::Object(object);
    };
    let (instance, rest) = front(question, numbers);
    let Some(numbers) = rest else {
        return Path::Instance(object, instance);
    };
    let (resource, rest) = front(question, numbers);
    match rest {
        None => Path::Resource(object, instance, resource),
        Some(number) => Path::Part(object, instance, resource, question.half_of(number)),
    }
}

/// The first of these numbers, and what stands after the slash behind it.
fn front<'a>(question: &mut Question<'_>, numbers: &'a str) -> (u16, Option<&'a str>) {
    match numbers.split_once('/') {
        Some((number, rest)) => (question.half_of(number), Some(rest)),
        None => (question.half_of(numbers), None),
    }
}

/// The last word as a path.
pub fn last_path(question: &mut Question<'_>) -> Path {
    let path = path(question);
    question.end();
    path
}

/// The next word as the path to an instance.
pub fn place(question: &mut Question<'_>) -> InstancePath {
    let (object, instance) = match path(question) {
        Path::Instance(object, instance) => (object, instance),
        _ => {
            question.refuse("not the path of an instance");
            (0, 0)
        }
    };
    InstancePath { object, instance }
}

/// The last word as the path to an instance.
pub fn last_place(question: &mut Question<'_>) -> InstancePath {
    let place = place(question);
    question.end();
    place
}

/// The last word as the path to a resource.
pub fn last_resource(question: &mut Question<'_>) -> ResourcePath {
    let (object, instance, resource) = match last_path(question) {
        Path::Resource(object, instance, resource) => (object, instance, resource),
        _ => {
            question.refuse("not the path of a resource");
            (0, 0, 0)
        }
    };
    ResourcePath {
        object,
        instance,
        resource,
    }
}

/// The Text of a word.
pub fn text_value(question: &mut Question<'_>, word: &str) -> Text {
    match String::from_utf8(text_of(question, word)) {
        Ok(text) => Text::from_string(text),
        Err(_) => {
            question.refuse("not UTF-8");
            Text::from_string(String::new(question.alloc()))
        }
    }
}

/// Adds a path as it is written.
pub fn put_path(out: &mut Sheet, path: Path) {
    match path_text(out.alloc(), path) {
        Ok(text) => out.put(text.as_str()),
        Err(_) => out.cut(),
    }
}

/// Adds the path to one value as it is written.
pub fn put_full_path(out: &mut Sheet, path: FullPath) {
    let (object, instance, resource) = (path.object, path.instance, path.resource);
    put_path(
        out,
        match path.part {
            None => Path::Resource(object, instance, resource),
            Some(part) => Path::Part(object, instance, resource, part),
        },
    );
}

/// Adds `yes` or `no`.
pub fn put_yes_no(out: &mut Sheet, is_so: bool) {
    out.put(if is_so { "yes" } else { "no" });
}

/// Adds a number, or `none`.
pub fn put_number_or_none(out: &mut Sheet, number: Option<u16>) {
    match number {
        Some(number) => out.put_number(u64::from(number)),
        None => out.put("none"),
    }
}

/// Adds numbers with commas between them, or `-` for none.
pub fn put_numbers(out: &mut Sheet, numbers: &[u16]) {
    if numbers.is_empty() {
        out.put("-");
    }
    let mut separator = "";
    for number in numbers {
        out.put(separator);
        out.put_number(u64::from(*number));
        separator = ",";
    }
}
