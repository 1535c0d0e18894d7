//! `trace TEXT`: the trace of a scenario, as workers begin it.

use crate::gathering::count_of;
use crate::given::Given;
use crate::line::Line;
use crate::marks::Marks;
use shared_trace::Trace;
use std::alloc::AllocError;

pub fn new(given: &Given, marks: &mut Marks, line: &mut Line) {
    marks.begin();
    let made = Trace::new(given.alloc, given.scenario);
    marks.end();
    match made {
        Ok(trace) => line.add_count("a trace, entries", count_of(&trace) as u64),
        Err(AllocError) => line.refuse(),
    }
}
