//! `add_class TEXT`, `add_row TEXT`, `add_step TEXT`: a scenario gets the first class of another one, a device of it,
//! and a first step. One that was refused memory is as before. `single TEXT`: a scenario of that class and its first
//! row.
use crate::given::Given;
use crate::line::Line;
use crate::marks::Marks;
use device_machine::Template;
use scenario_image::{Scenario, ScenarioFault, Step, save};
use std::alloc::{AllocError, Global};

/// What a scenario gets.
#[derive(Clone, Copy)]
enum Part<'a> {
    Class(&'a Template),
    Row,
    Step(&'a Step),
}

pub fn add_class(given: &Given, marks: &mut Marks, line: &mut Line) {
    let Some(class) = given.scenario.class(0) else {
        return line.add("no class");
    };
    let mut scenario = Scenario::empty(given.alloc);
    add_part(&mut scenario, Part::Class(class), marks, line);
}

pub fn add_row(given: &Given, marks: &mut Marks, line: &mut Line) {
    let Some(class) = given.scenario.class(0) else {
        return line.add("no class");
    };
    match of_class(given.alloc, class) {
        Ok(mut scenario) => add_part(&mut scenario, Part::Row, marks, line),
        Err(_) => line.cut(),
    }
}

pub fn add_step(given: &Given, marks: &mut Marks, line: &mut Line) {
    let (Some(class), Some((_, steps))) = (given.scenario.class(0), given.scenario.row(0)) else {
        return line.add("no row");
    };
    let Some(step) = steps.first() else {
        return line.add("no step");
    };
    match of_row(given.alloc, class) {
        Ok(mut scenario) => add_part(&mut scenario, Part::Step(step), marks, line),
        Err(_) => line.cut(),
    }
}

/// A scenario of this class alone.
pub fn of_class(alloc: Global, class: &Template) -> Result<Scenario, AllocError> {
    let class = class.copy()?;
    let mut scenario = Scenario::empty(alloc);
    match scenario.add_class(class) {
        Ok(()) => Ok(scenario),
        Err(_) => Err(AllocError),
    }
}

/// A scenario of this class, with a device that has no step.
fn of_row(alloc: Global, class: &Template) -> Result<Scenario, AllocError> {
    let mut scenario = of_class(alloc, class)?;
    match scenario.add_row(0) {
        Ok(()) => Ok(scenario),
        Err(_) => Err(AllocError),
    }
}

/// Adds the part, once more if memory was refused, and says how many classes, rows and steps there are.
fn add_part(scenario: &mut Scenario, part: Part, marks: &mut Marks, line: &mut Line) {
    let Ok(before) = save(line.alloc(), scenario) else {
        return line.cut();
    };
    add_once(scenario, part, marks, line);
    if line.is_refused() {
        add_same(before.as_slice(), scenario, line);
        add_once(scenario, part, marks, line);
    }
    line.add_count("classes", scenario.classes() as u64);
    line.add_count("rows", scenario.rows() as u64);
    line.add_count("steps", scenario.steps() as u64);
}

/// Adds whether a scenario still has this image.
fn add_same(before: &[u8], scenario: &Scenario, line: &mut Line) {
    match save(line.alloc(), scenario) {
        Ok(after) => line.add(if before == after.as_slice() {
            "as before, then"
        } else {
            "changed, then"
        }),
        Err(_) => line.cut(),
    }
}

fn add_once(scenario: &mut Scenario, part: Part, marks: &mut Marks, line: &mut Line) {
    match part {
        Part::Class(class) => match class.copy() {
            Ok(class) => add_class_once(scenario, class, marks, line),
            Err(_) => line.cut(),
        },
        Part::Row => add_row_once(scenario, marks, line),
        Part::Step(step) => match step.clone() {
            Ok(step) => add_step_once(scenario, step, marks, line),
            Err(_) => line.cut(),
        },
    }
}

fn add_class_once(scenario: &mut Scenario, class: Template, marks: &mut Marks, line: &mut Line) {
    marks.begin();
    let added = scenario.add_class(class);
    marks.end();
    answer(added, line)
}

fn add_row_once(scenario: &mut Scenario, marks: &mut Marks, line: &mut Line) {
    marks.begin();
    let added = scenario.add_row(0);
    marks.end();
    answer(added, line)
}

fn add_step_once(scenario: &mut Scenario, step: Step, marks: &mut Marks, line: &mut Line) {
    marks.begin();
    let added = scenario.add_step(step);
    marks.end();
    answer(added, line)
}

fn answer(added: Result<(), ScenarioFault>, line: &mut Line) {
    match added {
        Ok(()) => line.add("added,"),
        Err(ScenarioFault::Memory) => line.refuse(),
        Err(ScenarioFault::Limit) => line.add("limit,"),
        Err(ScenarioFault::Missing) => line.add("missing,"),
        Err(ScenarioFault::Range) => line.add("range,"),
    }
}

pub fn single(given: &Given, marks: &mut Marks, line: &mut Line) {
    let (Some(class), Some((_, steps))) = (given.scenario.class(0), given.scenario.row(0)) else {
        return line.add("no row");
    };
    let Ok(class) = class.copy() else {
        return line.cut();
    };
    let steps = copies(steps, line);
    marks.begin();
    let made = Scenario::single(given.alloc, class, steps);
    marks.end();
    match made {
        Ok(scenario) => line.add_image(&scenario),
        Err(fault) => answer(Err(fault), line),
    }
}

fn copies(steps: &[Step], line: &mut Line) -> Vec<Step> {
    let mut copies = Vec::new(line.alloc());
    for step in steps {
        match step.clone() {
            Ok(copy) => line.need(copies.push(copy).is_ok()),
            Err(_) => line.cut(),
        }
    }
    copies
}
