//! What comes of a session.
use crate::question::Question;
use crate::udp::put_asked;
use case_sheet::Sheet;
use device_machine::{Device, Event, Output, Outputs, StepFault, Template};
use live_link::{LiveEnd, LiveSession, Packet, ScriptedClock, ScriptedWire, serve_class};
use scenario_asm::assemble;
use scenario_image::{Scenario, ScenarioFault, Step, take_steps};
use std::net::Net;
use std::thread::Threads;

/// The class of the DEMO device.
const DEMO: &str = "scenario 1
class
account 1
instance 1 0
instance 3 0
instance 5 0
value /1/0/0 integer 1
value /1/0/1 integer 300
value /1/0/6 boolean 0
value /1/0/7 text \"U\"
value /3/0/0 text \"Bench\"
value /3/0/6/0 integer 1
value /3/0/6/1 integer 5
value /3/0/9 integer 100
value /3/0/11/0 integer 0
value /3/0/16 text \"U\"
value /5/0/9 integer 2
";

/// Adds the device's steps, the datagrams that it sent, and how the session ended; and, where its steps are not the row
/// of a scenario, or that row sends something else, that this is so.
pub fn put_answer<R: Net + Threads>(rt: &R, out: &mut Sheet, question: Question) {
    match assemble(out.alloc(), DEMO) {
        Err(_) => out.put("no device"),
        Ok(demo) => match demo.class(0) {
            None => out.put("no class"),
            Some(class) => put_on(rt, out, question, class),
        },
    }
}

fn put_on<R: Net + Threads>(rt: &R, out: &mut Sheet, mut question: Question, class: &Template) {
    if question.is_cut {
        out.cut();
    }
    match question.asked.take() {
        None => put_in_memory(out, question, class),
        Some(bytes) => put_asked(rt, out, class, bytes),
    }
}

fn put_in_memory(out: &mut Sheet, question: Question, class: &Template) {
    let alloc = out.alloc();
    let mut wire = ScriptedWire::new(alloc, question.receipts, question.failing);
    let mut clock = ScriptedClock::new(question.readings);
    match serve_class(alloc, &mut wire, &mut clock, class, question.turns) {
        Err(_) => out.cut(),
        Ok(session) => put_served(out, session, wire.taken(), class),
    }
}

/// Adds a session: its steps, what was sent, and how it ended.
pub fn put_session(out: &mut Sheet, session: &LiveSession) {
    put_steps(out, session.steps.as_slice());
    put_packets(out, session.sent.as_slice());
    out.next(", ");
    out.put_all(&["end ", name_of(session.end)]);
}

fn put_served(out: &mut Sheet, session: LiveSession, taken: &[Packet], class: &Template) {
    put_session(out, &session);
    let mut sent = Sheet::new(out.alloc());
    put_packets(&mut sent, session.sent.as_slice());
    let mut took = Sheet::new(out.alloc());
    put_packets(&mut took, taken);
    if took.as_str() != sent.as_str() {
        out.put(", but the wire took something else");
    }
    if sent.is_cut() || took.is_cut() {
        out.cut();
    }
    put_replay(out, session.steps, session.end, sent.as_str(), class);
}

fn put_steps(out: &mut Sheet, steps: &[Step]) {
    for step in steps {
        out.next(", ");
        match step {
            Step::Event(Event::Tick(seconds)) => {
                out.put("tick ");
                out.put_number(u64::from(*seconds));
            }
            Step::Event(Event::Recv { server, bytes }) => {
                put_datagram(out, "recv ", *server, bytes.as_slice());
            }
            _ => out.put("another step"),
        }
    }
}

fn put_packets(out: &mut Sheet, packets: &[Packet]) {
    for packet in packets {
        out.next(", ");
        put_datagram(out, "sent ", packet.server, packet.bytes.as_slice());
    }
}

fn put_datagram(out: &mut Sheet, words: &str, server: u16, bytes: &[u8]) {
    out.put(words);
    out.put_number(u64::from(server));
    out.put(" ");
    out.put_hex(bytes);
}

fn name_of(end: LiveEnd) -> &'static str {
    match end {
        LiveEnd::Turns => "turns",
        LiveEnd::ReceiveFault => "receive fault",
        LiveEnd::SendFault => "send fault",
        LiveEnd::Memory => "memory",
        LiveEnd::Spent => "spent",
    }
}

/// Says it where the steps are not the row of a scenario, or that row sends something else than all that was sent.
fn put_replay(out: &mut Sheet, steps: Vec<Step>, end: LiveEnd, sent: &str, class: &Template) {
    match single(out, class, steps) {
        Ok(scenario) => {
            if end != LiveEnd::SendFault && !is_replayed(out, &scenario, class, sent) {
                out.put(", but its row sends something else");
            }
        }
        Err(ScenarioFault::Memory) => out.cut(),
        Err(ScenarioFault::Range) => out.put(", no row: range"),
        Err(ScenarioFault::Missing) => out.put(", no row: missing"),
        Err(ScenarioFault::Limit) => out.put(", no row: limit"),
    }
}

/// The scenario of a class and a row of these steps.
fn single(out: &Sheet, class: &Template, steps: Vec<Step>) -> Result<Scenario, ScenarioFault> {
    match class.copy() {
        Ok(class) => Scenario::single(out.alloc(), class, steps),
        Err(_) => Err(ScenarioFault::Memory),
    }
}

/// Whether a device of the class sends these datagrams at the steps of the scenario's row.
fn is_replayed(out: &mut Sheet, scenario: &Scenario, class: &Template, sent: &str) -> bool {
    let Some((_, steps)) = scenario.row(0) else {
        return false;
    };
    let mut replayed = Sheet::new(out.alloc());
    match Device::start(class) {
        Ok(mut device) => put_replayed(&mut replayed, &mut device, steps),
        Err(_) => replayed.cut(),
    }
    if replayed.is_cut() {
        out.cut();
    }
    replayed.as_str() == sent
}

/// Adds what a device sends at these steps.
fn put_replayed(out: &mut Sheet, device: &mut Device, steps: &[Step]) {
    match take_steps(out.alloc(), device, steps) {
        Ok(all) => put_all_sent(out, all.as_slice()),
        Err(StepFault::Memory) => out.cut(),
        Err(StepFault::Spent) => out.put("spent"),
    }
}

fn put_all_sent(out: &mut Sheet, all: &[Option<Outputs>]) {
    for outputs in all {
        if let Some(outputs) = outputs {
            put_sent(out, outputs.as_slice());
        }
    }
}

fn put_sent(out: &mut Sheet, outputs: &[Output]) {
    for output in outputs {
        if let Output::Send { server, bytes } = output {
            out.next(", ");
            put_datagram(out, "sent ", *server, bytes.as_slice());
        }
    }
}
