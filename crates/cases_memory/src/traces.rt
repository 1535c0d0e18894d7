//! `check TEXT [N]`, `unfinished TEXT [N]`, `write_entries TEXT`: the entries of the serial run, without entry N where
//! there is one, counted from 1; `check_file TEXT HEX`, `read_entries - HEX`: a trace file; `write_sized - N`: an entry
//! with a datagram of N bytes.
use crate::given::Given;
use crate::line::Line;
use crate::marks::Marks;
use device_machine::{Output, Outputs};
use fleet_core::{Verdict, check, check_file, run_serial, unfinished};
use octets::Bytes;
use std::alloc::AllocError;
use trace_file::{Entries, Entry, WriteFault, read_entries, write_entries};

/// The entries of the serial run, without the one of this number.
pub fn entries_of(given: &Given, left_out: usize, line: &mut Line) -> Entries {
    let mut entries = Entries::new(given.alloc);
    match run_serial(given.alloc, given.scenario) {
        Ok(run) => add_entries(&mut entries, run.as_slice(), left_out, line),
        Err(_) => line.cut(),
    }
    entries
}

fn add_entries(entries: &mut Entries, run: &[Entry], left_out: usize, line: &mut Line) {
    let mut number: usize = 0;
    for entry in run {
        number = number.saturating_add(1);
        if number != left_out {
            line.need(add_copy(entries, entry).is_ok());
        }
    }
}

fn add_copy(entries: &mut Entries, entry: &Entry) -> Result<(), AllocError> {
    let copy = entry.copy()?;
    entries.push(copy)
}

pub fn check_run(given: &Given, marks: &mut Marks, line: &mut Line) {
    let entries = entries_of(given, given.number(0), line);
    marks.begin();
    let verdict = check(given.alloc, given.scenario, entries.as_slice());
    marks.end();
    match verdict {
        Ok(verdict) => add_verdict(verdict, line),
        Err(AllocError) => line.refuse(),
    }
}

/// The same of the entries of a trace file.
pub fn check_trace(given: &Given, marks: &mut Marks, line: &mut Line) {
    let Ok(bytes) = hex::decode(given.alloc, given.words) else {
        return line.add("no hex");
    };
    marks.begin();
    let verdict = check_file(given.alloc, given.scenario, bytes.as_slice());
    marks.end();
    match verdict {
        Ok(verdict) => add_verdict(verdict, line),
        Err(fault) => line.add_fault(fault),
    }
}

fn add_verdict(verdict: Verdict, line: &mut Line) {
    match verdict {
        Verdict::Run => line.add("run"),
        Verdict::NotRun(place) => line.add_count("not a run at", place as u64),
    }
}

pub fn find_unfinished(given: &Given, marks: &mut Marks, line: &mut Line) {
    let entries = entries_of(given, given.number(0), line);
    marks.begin();
    let devices = unfinished(given.alloc, given.scenario, entries.as_slice());
    marks.end();
    match devices {
        Ok(devices) => {
            for device in devices.as_slice() {
                line.add_count("device", u64::from(*device));
            }
            line.add("no other");
        }
        Err(AllocError) => line.refuse(),
    }
}

pub fn write_run(given: &Given, marks: &mut Marks, line: &mut Line) {
    match run_serial(given.alloc, given.scenario) {
        Ok(entries) => write(&entries, marks, line),
        Err(_) => line.cut(),
    }
}

/// The trace file of one entry, whose one output is a datagram of this many bytes.
pub fn write_sized(given: &Given, marks: &mut Marks, line: &mut Line) {
    let mut bytes = Vec::new(given.alloc);
    for _ in 0..given.number(0) {
        line.need(bytes.push(0).is_ok());
    }
    let mut outputs = Vec::new(given.alloc);
    let output = Output::Send {
        server: 1,
        bytes: Bytes::from_vec(bytes),
    };
    line.need(outputs.push(output).is_ok());
    let mut entries = Entries::new(given.alloc);
    let entry = Entry {
        worker: 0,
        device: 0,
        step: 0,
        outputs: Outputs::from_vec(outputs),
    };
    line.need(entries.push(entry).is_ok());
    write(&entries, marks, line);
}

fn write(entries: &Entries, marks: &mut Marks, line: &mut Line) {
    let alloc = line.alloc();
    marks.begin();
    let written = write_entries(alloc, entries.as_slice());
    marks.end();
    match written {
        Ok(bytes) => line.add_bytes(bytes.as_slice()),
        Err(WriteFault::Memory) => line.refuse(),
        Err(WriteFault::TooLarge) => line.add("too large"),
    }
}

/// Reads a trace file, and writes it again.
pub fn read_trace(given: &Given, marks: &mut Marks, line: &mut Line) {
    let Ok(bytes) = hex::decode(given.alloc, given.words) else {
        return line.add("no hex");
    };
    marks.begin();
    let entries = read_entries(given.alloc, bytes.as_slice());
    marks.end();
    match entries {
        Ok(entries) => write(&entries, marks, line),
        Err(fault) => line.add_fault(fault),
    }
}
