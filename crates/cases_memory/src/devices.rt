//! `step TEXT K PATH`: step K of the first device, counted from 0. A device that was refused memory is spent: it
//! refuses that step and each later one, and still returns its clock, its observations, its attributes and its values.
use crate::given::Given;
use crate::line::Line;
use crate::marks::Marks;
use device_machine::{Device, Event, StepFault, Template};
use object_defs::Path;
use scenario_image::{Step, take_step};
use scenario_words::{path, spell};
use std::alloc::AllocError;

/// A step of a device.
#[derive(Clone, Copy)]
struct Turn<'a> {
    class: &'a Template,
    /// The steps before it.
    before: &'a [Step],
    event: &'a Event,
    /// The step of this event, and those after it.
    rest: &'a [Step],
}

pub fn step(given: &Given, marks: &mut Marks, line: &mut Line) {
    let (Some(class), Some((_, steps))) = (given.scenario.class(0), given.scenario.row(0)) else {
        return line.add("no row");
    };
    match turn_of(class, steps, given.number(0)) {
        Some(turn) => take_turn(given, &turn, marks, line),
        None => line.add("no event"),
    }
}

/// The turn of the step of this number, if it is an event.
fn turn_of<'a>(class: &'a Template, steps: &'a [Step], number: usize) -> Option<Turn<'a>> {
    let (before, rest) = steps.split_at_checked(number)?;
    let Step::Event(event) = rest.first()? else {
        return None;
    };
    Some(Turn {
        class,
        before,
        event,
        rest,
    })
}

fn take_turn(given: &Given, turn: &Turn, marks: &mut Marks, line: &mut Line) {
    step_first(given, turn, marks, line);
    if line.is_refused() {
        line.add("then");
        step_again(turn, marks, line);
    }
}

/// The step of a device. One that is spent after it is asked for this step and all later ones, and shown.
fn step_first(given: &Given, turn: &Turn, marks: &mut Marks, line: &mut Line) {
    let Ok(mut device) = device_before(turn) else {
        return line.cut();
    };
    step_once(&mut device, turn.event, marks, line);
    if line.is_refused() {
        step_spent(&mut device, turn.rest, line);
        add_shown(&device, given.words, line);
    }
}

/// The same step of another device.
fn step_again(turn: &Turn, marks: &mut Marks, line: &mut Line) {
    match device_before(turn) {
        Ok(mut device) => step_once(&mut device, turn.event, marks, line),
        Err(_) => line.cut(),
    }
}

/// A device of the class that has made the steps before.
fn device_before(turn: &Turn) -> Result<Device, AllocError> {
    let mut device = Device::start(turn.class)?;
    let mut is_before = true;
    for step in turn.before {
        is_before = is_before && take_step(&mut device, step).is_ok();
    }
    if is_before {
        Ok(device)
    } else {
        Err(AllocError)
    }
}

fn step_once(device: &mut Device, event: &Event, marks: &mut Marks, line: &mut Line) {
    marks.begin();
    let outputs = device.step(event);
    marks.end();
    match outputs {
        Ok(outputs) => line.add_outputs(outputs.as_slice()),
        Err(StepFault::Memory) => line.refuse(),
        Err(StepFault::Spent) => line.add("spent"),
    }
}

/// Asks a device for these steps, one after another: adds how many of their events are refused since it is spent, and
/// what comes of the others.
fn step_spent(device: &mut Device, steps: &[Step], line: &mut Line) {
    let mut asked = 0u64;
    let mut refused = 0u64;
    for step in steps {
        if let Step::Event(event) = step {
            asked = asked.saturating_add(1);
            match device.step(event) {
                Ok(outputs) => line.add_outputs(outputs.as_slice()),
                Err(StepFault::Memory) => line.refuse(),
                Err(StepFault::Spent) => refused = refused.saturating_add(1),
            }
        }
    }
    line.add_spent(refused, asked);
}

/// Adds the clock, how many observations there are, and the value at the path that is the second word; where that is
/// `-`, only that they are returned.
fn add_shown(device: &Device, words: &str, line: &mut Line) {
    let clock = device.clock();
    let observations = device.observations().len();
    let _attributes = device.attributes();
    let word = words.split_whitespace().nth(1).unwrap_or("");
    if word == "-" {
        return line.add("shown");
    }
    line.add_count("clock", clock);
    line.add_count("observations", observations as u64);
    match path(word.as_bytes()) {
        Ok((path, _)) => add_value(device, path, line),
        Err(_) => line.add("no path"),
    }
}

fn add_value(device: &Device, path: Path, line: &mut Line) {
    let Some(value) = device.value(&path) else {
        return line.add("no value");
    };
    match spell(line.alloc(), value) {
        Ok(value) => line.add(value.as_str()),
        Err(_) => line.cut(),
    }
}
