//! `open TEXT [N]`, `forward TEXT AT N`, `back TEXT AT N`, `resume TEXT AT`, `add_break TEXT`: a debugger over the
//! serial run of a scenario. One that was refused memory stands where it stood, and has its breakpoint.
use crate::given::Given;
use crate::line::Line;
use crate::marks::Marks;
use crate::traces::entries_of;
use debugger::{BackFault, Break, Debugger, ForwardFault, OpenFault, Stop};
use std::alloc::AllocError;

/// Without entry N of the run, where there is one.
pub fn open(given: &Given, marks: &mut Marks, line: &mut Line) {
    let entries = entries_of(given, given.number(0), line);
    marks.begin();
    let opened = Debugger::open(given.alloc, given.scenario, entries);
    marks.end();
    match opened {
        Ok(debugger) => {
            line.add("opened,");
            add_place(&debugger, line);
        }
        Err(OpenFault::Memory) => line.refuse(),
        Err(OpenFault::NotRun(place)) => line.add_count("not a run from", place as u64),
    }
}

/// Adds the place, how many observations the first device has there, and how many steps the last move made.
fn add_place(debugger: &Debugger, line: &mut Line) {
    line.add_count("at", debugger.at() as u64);
    match debugger.observations(0) {
        Ok(observations) => line.add_count("observations", observations.len() as u64),
        Err(_) => line.add("no device"),
    }
    line.add_count("replayed", debugger.replayed());
}

/// A debugger at the place that is the first word, with a breakpoint at each notification of the first device.
fn debugger_at<'a>(given: &Given<'a>, line: &mut Line) -> Result<Debugger<'a>, AllocError> {
    let entries = entries_of(given, 0, line);
    let Ok(mut debugger) = Debugger::open(given.alloc, given.scenario, entries) else {
        return Err(AllocError);
    };
    let is_there = debugger.forward(given.number(0)).is_ok();
    if is_there && debugger.add_break(Break::Notified { device: 0 }).is_ok() {
        Ok(debugger)
    } else {
        Err(AllocError)
    }
}

/// A move of a debugger.
#[derive(Clone, Copy)]
enum Move {
    Forward(usize),
    Back(usize),
    Resume,
}

pub fn forward(given: &Given, marks: &mut Marks, line: &mut Line) {
    move_and_resume(given, Move::Forward(given.number(1)), marks, line)
}

pub fn back(given: &Given, marks: &mut Marks, line: &mut Line) {
    move_and_resume(given, Move::Back(given.number(1)), marks, line)
}

fn move_and_resume(given: &Given, to: Move, marks: &mut Marks, line: &mut Line) {
    let Ok(mut debugger) = debugger_at(given, line) else {
        return line.cut();
    };
    move_to(&mut debugger, to, marks, line);
    resume_once(&mut debugger, marks, line);
}

pub fn resume(given: &Given, marks: &mut Marks, line: &mut Line) {
    match debugger_at(given, line) {
        Ok(mut debugger) => move_to(&mut debugger, Move::Resume, marks, line),
        Err(_) => line.cut(),
    }
}

/// Moves, once more if memory was refused, and adds the place.
fn move_to(debugger: &mut Debugger, to: Move, marks: &mut Marks, line: &mut Line) {
    move_once(debugger, to, marks, line);
    if line.is_refused() {
        add_place(debugger, line);
        line.add("then");
        move_once(debugger, to, marks, line);
    }
    add_place(debugger, line);
}

fn move_once(debugger: &mut Debugger, to: Move, marks: &mut Marks, line: &mut Line) {
    match to {
        Move::Forward(count) => forward_once(debugger, count, marks, line),
        Move::Back(count) => back_once(debugger, count, marks, line),
        Move::Resume => resume_once(debugger, marks, line),
    }
}

fn forward_once(debugger: &mut Debugger, count: usize, marks: &mut Marks, line: &mut Line) {
    marks.begin();
    let moved = debugger.forward(count);
    marks.end();
    match moved {
        Ok(()) => line.add("moved,"),
        Err(ForwardFault::Memory) => line.refuse(),
        Err(ForwardFault::PastEnd) => line.add("past end,"),
    }
}

fn back_once(debugger: &mut Debugger, count: usize, marks: &mut Marks, line: &mut Line) {
    marks.begin();
    let moved = debugger.back(count);
    marks.end();
    match moved {
        Ok(()) => line.add("moved,"),
        Err(BackFault::Memory) => line.refuse(),
        Err(BackFault::PastStart) => line.add("past start,"),
    }
}

fn resume_once(debugger: &mut Debugger, marks: &mut Marks, line: &mut Line) {
    marks.begin();
    let stop = debugger.resume();
    marks.end();
    match stop {
        Ok(Stop::Break(id)) => line.add_count("break", u64::from(id)),
        Ok(Stop::End) => line.add("end"),
        Err(AllocError) => line.refuse(),
    }
}

/// One more breakpoint, which takes no memory.
pub fn add_break(given: &Given, marks: &mut Marks, line: &mut Line) {
    let Ok(mut debugger) = debugger_at(given, line) else {
        return line.cut();
    };
    marks.begin();
    let added = debugger.add_break(Break::At(1));
    marks.end();
    match added {
        Ok(id) => line.add_count("break", u64::from(id)),
        Err(_) => line.add("full"),
    }
}
