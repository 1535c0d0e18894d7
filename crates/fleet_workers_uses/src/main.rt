//! Workers over one trace, call by call: what each claim gets where the order of the calls is fixed, and that two
//! workers on threads of their own both make steps. That their runs are right is proved in `fleet_workers`; the program
//! shows what no clause says. With lines on standard input it makes a run instead, for bench/ to measure.
#![tactic(auto)]

mod compared;
mod gates;
mod measured;
mod pages;
mod rows;
mod scenes;
mod shown;
mod turns;

use std::io;
use std::process::ExitCode;

fn main(rt: HostRuntime) -> ExitCode {
    let alloc = rt.alloc();
    let Ok(text) = io::read_to_string(alloc, rt.reader()) else {
        return ExitCode::FAILURE;
    };
    let shown = if text.as_str().is_empty() {
        shown::show(&rt, alloc)
    } else {
        measured::run(&rt, alloc, text.as_str())
    };
    match shown {
        Ok(()) => ExitCode::SUCCESS,
        Err(_) => ExitCode::FAILURE,
    }
}
