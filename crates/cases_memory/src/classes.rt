//! `class TEXT STATEMENT`: what a line of scenario text states of a class is added to the first class of a scenario. A
//! class that was refused memory is as before.
use crate::building::of_class;
use crate::given::Given;
use crate::line::Line;
use crate::marks::Marks;
use device_machine::{Template, TemplateFault};
use lwm2m_values::Value;
use object_defs::Path;
use scenario_image::save;
use scenario_statements::{Statement, read_statement};
use std::alloc::{AllocError, Global};

/// The object that a resource is added to.
const OBJECT: u16 = 10250;

pub fn state(given: &Given, marks: &mut Marks, line: &mut Line) {
    let Some(class) = given.scenario.class(0) else {
        return line.add("no class");
    };
    let Ok(Some(statement)) = read_statement(given.alloc, given.words.as_bytes()) else {
        return line.add("no statement");
    };
    match class.copy() {
        Ok(mut changed) => state_of(class, &mut changed, &statement, marks, line),
        Err(_) => line.cut(),
    }
}

/// States it of the copy of a class, once more if memory was refused, and adds the image of the copy.
fn state_of(
    class: &Template,
    changed: &mut Template,
    statement: &Statement,
    marks: &mut Marks,
    line: &mut Line,
) {
    state_once(changed, statement, marks, line);
    if line.is_refused() {
        add_same(class, changed, line);
        state_once(changed, statement, marks, line);
    }
    match of_class(line.alloc(), changed) {
        Ok(scenario) => line.add_image(&scenario),
        Err(_) => line.cut(),
    }
}

/// The image of a scenario of this class alone.
fn image_of(alloc: Global, class: &Template) -> Result<Vec<u8>, AllocError> {
    let scenario = of_class(alloc, class)?;
    save(alloc, &scenario)
}

/// Adds whether two classes have the same image.
fn add_same(class: &Template, changed: &Template, line: &mut Line) {
    let Ok(before) = image_of(line.alloc(), class) else {
        return line.cut();
    };
    match image_of(line.alloc(), changed) {
        Ok(after) => line.add(if before.as_slice() == after.as_slice() {
            "as before, then"
        } else {
            "changed, then"
        }),
        Err(_) => line.cut(),
    }
}

fn state_once(class: &mut Template, statement: &Statement, marks: &mut Marks, line: &mut Line) {
    match statement {
        Statement::Value { path, value } => match value.clone() {
            Ok(value) => value_once(class, *path, value, marks, line),
            Err(_) => line.cut(),
        },
        _ => part_once(class, statement, marks, line),
    }
}

fn value_once(class: &mut Template, path: Path, value: Value, marks: &mut Marks, line: &mut Line) {
    marks.begin();
    let added = class.add_value(path, value);
    marks.end();
    answer(added, line)
}

fn part_once(class: &mut Template, statement: &Statement, marks: &mut Marks, line: &mut Line) {
    marks.begin();
    let added = add_part(class, statement);
    marks.end();
    match added {
        Some(added) => answer(added, line),
        None => line.add("no statement of a class"),
    }
}

/// Adds what a statement states of a class, if it does, but for a value.
fn add_part(class: &mut Template, statement: &Statement) -> Option<Result<(), TemplateFault>> {
    match statement {
        Statement::Notify(seconds) => Some(class.set_notify(*seconds)),
        Statement::Account(server) => Some(class.add_account(*server)),
        Statement::Object(object) => Some(class.add_object(*object)),
        Statement::Def(definition) => Some(class.add_resource(OBJECT, *definition)),
        Statement::Instance(path) => Some(class.add_instance(path.object, path.instance)),
        _ => None,
    }
}

fn answer(added: Result<(), TemplateFault>, line: &mut Line) {
    match added {
        Ok(()) => line.add("added,"),
        Err(TemplateFault::Memory) => line.refuse(),
        Err(TemplateFault::Range) => line.add("range,"),
        Err(TemplateFault::Missing) => line.add("missing,"),
        Err(TemplateFault::Duplicate) => line.add("duplicate,"),
        Err(TemplateFault::Full) => line.add("full,"),
    }
}
