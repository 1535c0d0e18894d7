//! `lock TEXT`, `lock_first TEXT`: a lock on the trace of a scenario, made with `new` and with `with_first`.
use crate::given::Given;
use crate::line::Line;
use crate::marks::Marks;
use shared_trace::Trace;
use std::alloc::AllocError;
use ticket_lock::{Pass, TicketLock};

pub fn new(given: &Given, marks: &mut Marks, line: &mut Line) {
    let Ok(trace) = Trace::new(given.alloc, given.scenario) else {
        return line.cut();
    };
    marks.begin();
    let made = TicketLock::new(trace, given.alloc);
    marks.end();
    answer(made, line)
}

pub fn with_first(given: &Given, marks: &mut Marks, line: &mut Line) {
    let Ok(trace) = Trace::new(given.alloc, given.scenario) else {
        return line.cut();
    };
    marks.begin();
    let made = TicketLock::with_first(trace, given.alloc, 7);
    marks.end();
    answer(made, line)
}

/// Adds from which number on the lock's pass has the workers.
fn answer(made: Result<(TicketLock<Trace>, Pass<Trace>), AllocError>, line: &mut Line) {
    match made {
        Ok((_, pass)) => line.add_count("a lock, its pass from worker", u64::from(pass.number())),
        Err(AllocError) => line.refuse(),
    }
}
