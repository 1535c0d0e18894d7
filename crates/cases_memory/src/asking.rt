//! Which call a case makes.
ghost use Rattle.std.specs.Thread.{IsSync};

use crate::given::Given;
use crate::line::Line;
use crate::marks::Marks;
use crate::{
    building, classes, devices, fleets, gathering, images, jobs, lives, locks, puts, sessions,
    shared, traces, workers,
};
use std::sync::Wait;
use std::thread::Threads;

/// Adds to the line what comes of a call of this name.
pub fn ask<R: Threads + Wait + Sync>(
    rt: &R,
    call: &str,
    given: &Given,
    marks: &mut Marks,
    line: &mut Line,
)
    requires { IsSync R.row }
{
    match call {
        "advance" | "put" | "into_entries" | "fleet" => share(rt, call, given, marks, line),
        "forward" | "back" | "resume" | "add_break" => debug(call, given, marks, line),
        "class" | "add_class" | "add_row" | "add_step" => build(call, given, marks, line),
        "step" | "serve" | "commit" => go_on(call, given, marks, line),
        _ => {
            make(call, given, marks, line);
            if line.is_refused() {
                make(call, given, marks, line);
            }
        }
    }
}

/// The calls about a run that workers make.
fn share<R: Threads + Wait + Sync>(
    rt: &R,
    call: &str,
    given: &Given,
    marks: &mut Marks,
    line: &mut Line,
)
    requires { IsSync R.row }
{
    match call {
        "advance" => jobs::advance(rt, given, marks, line),
        "put" => puts::put(rt, given, marks, line),
        "into_entries" => gathering::gather(rt, given, marks, line),
        _ => workers::fleet(rt, given, marks, line),
    }
}

/// The calls about a debugger that is open.
fn debug(call: &str, given: &Given, marks: &mut Marks, line: &mut Line) {
    match call {
        "forward" => sessions::forward(given, marks, line),
        "back" => sessions::back(given, marks, line),
        "resume" => sessions::resume(given, marks, line),
        _ => sessions::add_break(given, marks, line),
    }
}

/// The calls that add to a class or a scenario.
fn build(call: &str, given: &Given, marks: &mut Marks, line: &mut Line) {
    match call {
        "class" => classes::state(given, marks, line),
        "add_class" => building::add_class(given, marks, line),
        "add_row" => building::add_row(given, marks, line),
        _ => building::add_step(given, marks, line),
    }
}

/// The calls that let a device, or the devices of a fleet, go on.
fn go_on(call: &str, given: &Given, marks: &mut Marks, line: &mut Line) {
    match call {
        "step" => devices::step(given, marks, line),
        "serve" => lives::serve(given, marks, line),
        _ => fleets::commit(given, marks, line),
    }
}

/// The calls that make something new: what was refused memory leaves nothing, and is made again from what is given.
fn make(call: &str, given: &Given, marks: &mut Marks, line: &mut Line) {
    match call {
        "load" => images::load_image(given, marks, line),
        "save" => images::save_scenario(given, marks, line),
        "assemble" => images::assemble_text(given, marks, line),
        "disassemble" => images::print_text(given, marks, line),
        _ => make_of_run(call, given, marks, line),
    }
}

/// The same of the entries of a run.
fn make_of_run(call: &str, given: &Given, marks: &mut Marks, line: &mut Line) {
    match call {
        "check" => traces::check_run(given, marks, line),
        "check_file" => traces::check_trace(given, marks, line),
        "unfinished" => traces::find_unfinished(given, marks, line),
        "write_entries" => traces::write_run(given, marks, line),
        "write_sized" => traces::write_sized(given, marks, line),
        "read_entries" => traces::read_trace(given, marks, line),
        _ => make_other(call, given, marks, line),
    }
}

fn make_other(call: &str, given: &Given, marks: &mut Marks, line: &mut Line) {
    match call {
        "single" => building::single(given, marks, line),
        "trace" => shared::new(given, marks, line),
        "open" => sessions::open(given, marks, line),
        "lock" => locks::new(given, marks, line),
        "lock_first" => locks::with_first(given, marks, line),
        _ => line.add("no such call"),
    }
}
