//! `live IMAGE DEVICE PORT TURNS [--save FILE] [--show]`: a device on UDP.
ghost use Rattle.std.specs.Prelude.{◌≡◌, ◌⊎◌, None, IfErr, IfOk, OnErr, OnOk, option_map, true};
ghost use Rattle.std.specs.Io.KnownBytes.{Appends};
ghost use Rattle.std.specs.String.{string_bytes};
ghost use Rattle.live_link.specs.Served.{IsServed};
ghost use Rattle.scenario_image.specs.Image.{IsImageIn};
ghost use Rattle.scenario_image.specs.Scenario.{one_row};
ghost use Rattle.command_files.specs.Fault.{IsWritingFault};
ghost use Rattle.command_files.specs.World.{IsAside, OnlyMakes, OnlyPrints, known_by};
ghost use Rattle.command_live.specs.Live.{end_name, line_of, named_line, session_line, HasNoRow, IsClassOf};
ghost use Rattle.command_live.specs.Live.{IsConcluded, IsLiveDone, IsLiveFault, IsSaveFault, IsSaved, IsSavedAt};
ghost use Rattle.command_live.specs.Live.{IsShown, IsUnconcluded, IsUnfit, IsUnheld, IsUnsaved};

use crate::showing::ShownWire;
use command_files::{
    Fault, NewFile, Output, Refusal, Status, World, image_file, load_scenario, make, unwritten,
};
use command_line::Live;
use device_machine::Template;
use live_link::{
    LiveEnd, LiveSession, MachineClock, Seconds, UdpWire, Wire, WireFault, serve_class,
};
use scenario_image::{Scenario, Step};
use std::alloc::{AllocError, Global};
use std::net::Net;
use std::rt::Clock;

/// A device of the row's class makes at most n turns, from its start, at a UDP port and by the machine's clock. Exactly
/// the line of its session is printed, and before it what was shown, if that is asked for; then, if there is a path,
/// the image, in version 2, of the scenario with one device of this class, whose row has the session's steps, is made
/// there.
#[tactic(auto, using(crate::proofs::Sessions::image_refused, crate::proofs::Sessions::device_refused, crate::proofs::Sessions::port_refused, crate::proofs::Sessions::session_cut, crate::proofs::Sessions::session_lost))]
pub fn live<'a, R: Net + Clock, W: World>(
    rt: &R,
    alloc: Global,
    asked: Live<'a>,
    world: &mut W,
) -> Result<Status, Refusal<'a>>
    ensures status { IfOk result (λ status. status ≡ Status.Done) }
    ensures done { OnOk result (IsLiveDone (known_by W.Files world.old) (W.seen world.old) (W.seen world.new)
        asked.entry) }
    ensures kept { OnErr result ((W.seen world.new).made ≡ (W.seen world.old).made) }
    ensures refused { IfErr result (λ r. IsLiveFault (known_by W.Files world.old) W.faults
        (W.seen world.old).streams (W.seen world.new).streams asked.entry r.fault) }
    ensures aside { IsAside (W.seen world.old).streams (W.seen world.new).streams }
{
    let scenario = load_scenario(alloc, asked.image, world)?;
    let class = class_of(&scenario, asked.device)?;
    let wire = bound(rt, alloc, &class, asked.port)?;
    let mut clock = MachineClock::new(rt);
    let session = hold(
        alloc,
        wire,
        &mut clock,
        &class,
        asked.turns,
        asked.show,
        world,
    )?;
    conclude_session(alloc, asked.save, class, session, world)
}

/// A copy of the class of a device's row.
#[tactic(auto, using(crate::proofs::Sessions::class_at_row))]
fn class_of(scenario: &Scenario, device: u16) -> Result<Template, Fault>
    ensures class { IfOk result (IsClassOf scenario.now device) }
    ensures refused { IfErr result (λ fault. (fault ≡ Fault.Memory)
        ⊎ ((fault ≡ Fault.NoDevice) × HasNoRow scenario.now device)) }
{
    // For the proof alone: a scenario whose rows are counted is known to be valid.
    let _known = scenario.rows();
    match scenario.row(device) {
        None => Err(Fault::NoDevice),
        Some((place, _)) => match scenario.class(place) {
            Some(class) => Ok(class.copy()?),
            None => unreachable!(),
        },
    }
}

/// A wire at the port, whose peers are the accounts of the class, in their order.
fn bound<R: Net>(rt: &R, alloc: Global, class: &Template, port: u16) -> Result<UdpWire, Fault>
    ensures refused { IfErr result (λ fault. (fault ≡ Fault.Memory) ⊎ (fault ≡ Fault.Bind)) }
{
    let accounts = class.copy_accounts()?;
    match UdpWire::bind(rt, alloc, port, accounts) {
        Ok(wire) => Ok(wire),
        Err(WireFault::Failed) => Err(Fault::Bind),
        Err(WireFault::Memory) => Err(Fault::Memory),
    }
}

/// The session of a device of this class on the wire. Where it is shown, each datagram is printed as it goes over it.
#[tactic(auto, using(crate::proofs::Sessions::untold, crate::proofs::Sessions::is_shown, crate::proofs::Sessions::not_shown, crate::proofs::Sessions::unheld_memory, crate::proofs::Sessions::unheld_so))]
fn hold<'a, V: Wire + Drop, C: Seconds, W: World>(
    alloc: Global,
    wire: V,
    clock: &mut C,
    class: &Template,
    turns: u32,
    show: bool,
    world: &mut W,
) -> Result<LiveSession, Refusal<'a>>
    ensures served { IfOk result (λ session. IsServed class.now turns session None None None None) }
    ensures shown { IsShown show
        (record { before = (W.seen world.old).streams.output; after = (W.seen world.new).streams.output }) }
    ensures refused { IfErr result (λ r. IsUnheld show r.fault) }
    ensures only { OnlyPrints (W.seen world.old) (W.seen world.new) }
{
    if show {
        return hold_shown(alloc, wire, clock, class, turns, world.output());
    }
    let mut wire = wire;
    Ok(serve_class(alloc, &mut wire, clock, class, turns)?)
}

#[tactic(auto, using(crate::proofs::Sessions::untold, crate::proofs::Sessions::unheld_memory, crate::proofs::Sessions::unheld_written))]
fn hold_shown<'a, W: Wire + Drop, C: Seconds, O: Output>(
    alloc: Global,
    wire: W,
    clock: &mut C,
    class: &Template,
    turns: u32,
    output: &mut O,
) -> Result<LiveSession, Refusal<'a>>
    ensures served { IfOk result (λ session. IsServed class.now turns session None None None None) }
    ensures refused { IfErr result (λ r. IsUnheld true r.fault) }
{
    let mut shown = ShownWire {
        alloc,
        wire,
        output,
        fault: None,
    };
    let session = serve_class(alloc, &mut shown, clock, class, turns)?;
    match shown.fault {
        None => Ok(session),
        Some(fault) => Err(unwritten("standard output", fault)),
    }
}

fn end_name(end: LiveEnd) -> &'static str
    ensures { result.now ≡ end_name end }
{
    match end {
        LiveEnd::Turns => "turns",
        LiveEnd::ReceiveFault => "receive fault",
        LiveEnd::SendFault => "send fault",
        LiveEnd::Memory => "memory",
        LiveEnd::Spent => "spent",
    }
}

/// How a session ended, how many steps its device took, and how many datagrams it sent.
pub fn session_line(
    alloc: Global,
    end: LiveEnd,
    steps: usize,
    sent: usize,
) -> Result<String, AllocError>
    ensures { IfOk result (λ text. string_bytes text ≡ session_line end steps sent) }
{
    named_line(alloc, end_name(end), steps, sent)
}

fn named_line(alloc: Global, name: &str, steps: usize, sent: usize) -> Result<String, AllocError>
    ensures { IfOk result (λ text. string_bytes text ≡ named_line name.now steps sent) }
{
    format!(in alloc; "end {name} steps {steps} sent {sent}\n")
}

/// Prints the line of a session, and then saves its steps, if there is a path.
#[tactic(auto, using(crate::proofs::Sessions::concluded, crate::proofs::Sessions::line_unprinted, crate::proofs::Sessions::steps_unsaved))]
pub fn conclude_session<'a, W: World>(
    alloc: Global,
    save: Option<&'a str>,
    class: Template,
    session: LiveSession,
    world: &mut W,
) -> Result<Status, Refusal<'a>>
    ensures status { IfOk result (λ status. status ≡ Status.Done) }
    ensures concluded { OnOk result (IsConcluded (W.seen world.old) (W.seen world.new)
        (option_map (λ p. p.now) save.entry) class session) }
    ensures kept { OnErr result ((W.seen world.new).made ≡ (W.seen world.old).made) }
    ensures refused { IfErr result (λ r. IsUnconcluded W.refuses W.faults
        (W.seen world.old).streams (W.seen world.new).streams (option_map (λ p. p.now) save.entry) class
        session r.fault) }
    ensures aside { IsAside (W.seen world.old).streams (W.seen world.new).streams }
{
    print_session(alloc, &session, world)?;
    save_session(alloc, save, class, session.steps, world)?;
    Ok(Status::Done)
}

#[tactic(auto, using(command_files::proofs::Delivered::unwritten))]
fn print_session<'a, W: World>(
    alloc: Global,
    session: &LiveSession,
    world: &mut W,
) -> Result<(), Refusal<'a>>
    ensures printed { OnOk result (Appends (W.seen world.old).streams.output (W.seen world.new).streams.output
        (line_of session.now)) }
    ensures refused { IfErr result (λ r. IsWritingFault (W.faults.output_refuses (line_of session.now)) r.fault) }
    ensures only { OnlyPrints (W.seen world.old) (W.seen world.new) }
{
    let text = session_line(alloc, session.end, session.steps.len(), session.sent.len())?;
    match world.print(text.as_str()) {
        Ok(()) => Ok(()),
        Err(fault) => Err(unwritten("standard output", fault)),
    }
}

/// Saves the steps of a device of this class as a scenario, if there is a path.
fn save_session<'a, W: World>(
    alloc: Global,
    save: Option<&'a str>,
    class: Template,
    steps: Vec<Step>,
    world: &mut W,
) -> Result<(), Refusal<'a>>
    ensures saved { OnOk result (IsSaved
        (record { before = (W.seen world.old).made; after = (W.seen world.new).made })
        (option_map (λ p. p.now) save.entry) class steps.items) }
    ensures kept { OnErr result ((W.seen world.new).made ≡ (W.seen world.old).made) }
    ensures refused { IfErr result (λ r. IsUnsaved W.refuses (option_map (λ p. p.now) save.entry) class steps.items
        r.fault) }
    ensures only { OnlyMakes (W.seen world.old) (W.seen world.new) }
{
    match save {
        None => Ok(()),
        Some(path) => save_at(alloc, path, class, steps, world),
    }
}

/// Saves the steps of a device of this class as a scenario.
#[tactic(auto, using(crate::proofs::Sessions::saved_at, crate::proofs::Sessions::not_fit, crate::proofs::Sessions::not_made))]
fn save_at<'a, W: World>(
    alloc: Global,
    path: &'a str,
    class: Template,
    steps: Vec<Step>,
    world: &mut W,
) -> Result<(), Refusal<'a>>
    ensures saved { OnOk result (IsSavedAt
        (record { before = (W.seen world.old).made; after = (W.seen world.new).made }) path.entry.now class
        steps.items) }
    ensures kept { OnErr result ((W.seen world.new).made ≡ (W.seen world.old).made) }
    ensures refused { IfErr result (λ r. IsSaveFault W.refuses path.entry.now class steps.items r.fault) }
    ensures only { OnlyMakes (W.seen world.old) (W.seen world.new) }
{
    let file = session_file(alloc, path, class, steps)?;
    make(&Some(file), world)
}

/// The image of the steps of a device of this class, for the path.
#[tactic(auto, using(crate::proofs::Sessions::unfit_memory, crate::proofs::Sessions::unfit_step))]
fn session_file<'a>(
    alloc: Global,
    path: &'a str,
    class: Template,
    steps: Vec<Step>,
) -> Result<NewFile<'a>, Fault>
    ensures path { IfOk result (λ f. f.path.now ≡ path.entry.now) }
    ensures image { IfOk result (λ f. IsImageIn 2 f.bytes (one_row class steps.items)) }
    ensures refused { IfErr result (IsUnfit class steps.items) }
{
    match Scenario::single(alloc, class, steps) {
        Ok(scenario) => Ok(image_file(alloc, &scenario, path)?),
        Err(fault) => Err(Fault::from(fault)),
    }
}
