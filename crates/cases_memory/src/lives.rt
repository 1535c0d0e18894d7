//! `serve TEXT`: the first device on a wire and a clock in memory, by which its row comes: each received datagram and
//! each tick is a turn. What was sent before memory was refused is a beginning of what is sent with memory.
use crate::given::Given;
use crate::line::Line;
use crate::marks::Marks;
use device_machine::{Device, Event, Template};
use live_link::{
    LiveEnd, LiveSession, Packet, Receipt, ScriptedClock, ScriptedWire, serve as put_on,
};
use scenario_image::Step;
use std::alloc::AllocError;

pub fn serve(given: &Given, marks: &mut Marks, line: &mut Line) {
    let (Some(class), Some((_, steps))) = (given.scenario.class(0), given.scenario.row(0)) else {
        return line.add("no row");
    };
    let Ok(session) = serve_once(class, steps, marks, line) else {
        return line.cut();
    };
    match session.end {
        LiveEnd::Memory => {
            line.refuse();
            serve_again(&session, class, steps, marks, line);
        }
        _ => add_session(&session, line),
    }
}

/// The device on another wire: whether what was sent by the first one is a beginning, and the session.
fn serve_again(
    begun: &LiveSession,
    class: &Template,
    steps: &[Step],
    marks: &mut Marks,
    line: &mut Line,
) {
    let Ok(whole) = serve_once(class, steps, marks, line) else {
        return line.cut();
    };
    line.add(if begins(begun.sent.as_slice(), whole.sent.as_slice()) {
        "a beginning, then"
    } else {
        "no beginning, then"
    });
    add_session(&whole, line);
}

fn serve_once(
    class: &Template,
    steps: &[Step],
    marks: &mut Marks,
    line: &mut Line,
) -> Result<LiveSession, AllocError> {
    let device = Device::start(class)?;
    let alloc = line.alloc();
    let mut wire = ScriptedWire::new(alloc, receipts_of(steps, line), None);
    let readings = readings_of(steps, line);
    let turns = u32::try_from(readings.len()).unwrap_or(u32::MAX);
    let mut clock = ScriptedClock::new(readings);
    marks.begin();
    let session = put_on(alloc, &mut wire, &mut clock, device, turns);
    marks.end();
    Ok(session)
}

/// What arrives in each turn: nothing in the first, in which the clock starts, and in those of ticks.
fn receipts_of(steps: &[Step], line: &mut Line) -> Vec<Receipt> {
    let mut receipts = Vec::new(line.alloc());
    line.need(receipts.push(Receipt::Nothing).is_ok());
    for step in steps {
        match receipt_of(step) {
            Ok(receipt) => line.need(receipts.push(receipt).is_ok()),
            Err(_) => line.cut(),
        }
    }
    receipts
}

fn receipt_of(step: &Step) -> Result<Receipt, AllocError> {
    match step {
        Step::Event(Event::Recv { server, bytes }) => {
            let bytes = bytes.clone()?;
            Ok(Receipt::Arrived(Packet {
                server: *server,
                bytes,
            }))
        }
        _ => Ok(Receipt::Nothing),
    }
}

/// What the clock shows in each turn.
fn readings_of(steps: &[Step], line: &mut Line) -> Vec<u64> {
    let mut readings = Vec::new(line.alloc());
    let mut second: u64 = 0;
    line.need(readings.push(second).is_ok());
    for step in steps {
        if let Step::Event(Event::Tick(seconds)) = step {
            second = second.saturating_add(u64::from(*seconds));
        }
        line.need(readings.push(second).is_ok());
    }
    readings
}

/// Whether the first datagrams are a beginning of the second ones.
fn begins(first: &[Packet], second: &[Packet]) -> bool {
    for (place, packet) in first.iter().enumerate() {
        match second.get(place) {
            Some(other) if is_same(packet, other) => {}
            _ => return false,
        }
    }
    true
}

fn is_same(packet: &Packet, other: &Packet) -> bool {
    packet.server == other.server && packet.bytes.as_slice() == other.bytes.as_slice()
}

/// Adds how a session ended, how many steps it has, and what was sent.
fn add_session(session: &LiveSession, line: &mut Line) {
    line.add(match session.end {
        LiveEnd::Turns => "turns,",
        LiveEnd::Memory => "memory,",
        LiveEnd::Spent => "spent,",
        LiveEnd::ReceiveFault | LiveEnd::SendFault => "fault,",
    });
    line.add_count("steps", session.steps.len() as u64);
    for packet in session.sent.as_slice() {
        line.add_sent(packet.server, packet.bytes.as_slice());
    }
}
