//! What is printed of a session at its end, and what is saved of it.
ghost use Rattle.std.specs.Prelude.{◌≡◌, IfErr, IfOk, OnErr, OnOk, option_map};
ghost use Rattle.std.specs.Io.KnownBytes.{Appends};
ghost use Rattle.std.specs.String.{string_bytes};
ghost use Rattle.fleet_link.specs.Saved.{IsSaved};
ghost use Rattle.scenario_image.specs.Image.{IsImageIn};
ghost use Rattle.command_files.specs.Fault.{IsWritingFault};
ghost use Rattle.command_files.specs.World.{IsAside, OnlyMakes, OnlyPrints};
ghost use Rattle.command_fleet.specs.Fleet.{IsConcluded, IsSaveFault, IsSavedAt, IsSavedIf, IsScenarioIf};
ghost use Rattle.command_fleet.specs.Fleet.{IsUnconcluded, IsUnfit, IsUnsaved, counted_line, counts_words, cut_words};
ghost use Rattle.command_fleet.specs.Fleet.{done_line, ended_words};
ghost use Rattle.command_fleet.specs.Fleet.{happened_words, line_of, shortfall_words, status_of, wire_words};

use crate::in_json::done_object;
use crate::shortfall::{Shortfall, shortfall_of};
use crate::telling::print;
use command_files::{Fault, NewFile, Refusal, Status, World, image_file, make};
use command_line::AskedFleet;
use fleet_lines::Account;
use fleet_link::{Counts, Fleet};
use fleet_wire::Happened;
use scenario_image::Scenario;
use std::alloc::{AllocError, Global};

/// How many datagrams went through ports.
fn counts_words(alloc: Global, counts: Counts) -> Result<String, AllocError>
    ensures { IfOk result (λ text. string_bytes text ≡ counts_words counts) }
{
    let received = counts.received;
    let sent = counts.sent;
    let dropped = counts.dropped;
    let lost = counts.lost;
    format!(in alloc; "received {received} sent {sent} dropped {dropped} lost {lost}")
}

/// How often the wire did what.
fn happened_words(alloc: Global, happened: Happened) -> Result<String, AllocError>
    ensures { IfOk result (λ text. string_bytes text ≡ happened_words happened) }
{
    let lost = happened.lost;
    let twice = happened.twice;
    let swapped = happened.swapped;
    let late = happened.late;
    format!(in alloc; " wire lost {lost} twice {twice} swapped {swapped} late {late}")
}

/// The same, if there is one.
fn wire_words(alloc: Global, happened: Option<Happened>) -> Result<String, AllocError>
    ensures { IfOk result (λ text. string_bytes text ≡ wire_words happened) }
{
    match happened {
        None => Ok(String::new(alloc)),
        Some(happened) => happened_words(alloc, happened),
    }
}

/// How many rows of what is saved are cut, if one is.
fn cut_words(alloc: Global, cut: usize) -> Result<String, AllocError>
    ensures { IfOk result (λ text. string_bytes text ≡ cut_words cut) }
{
    if cut == 0 {
        return Ok(String::new(alloc));
    }
    format!(in alloc; " cut {cut}")
}

/// How many devices ended before the session did, if one did.
fn ended_words(alloc: Global, ended: usize) -> Result<String, AllocError>
    ensures { IfOk result (λ text. string_bytes text ≡ ended_words ended) }
{
    if ended == 0 {
        return Ok(String::new(alloc));
    }
    format!(in alloc; " ended {ended}")
}

/// What did not last as long as the session, if anything did not.
fn shortfall_words(alloc: Global, shortfall: Shortfall) -> Result<String, AllocError>
    ensures { IfOk result (λ text. string_bytes text ≡ shortfall_words shortfall) }
{
    let mut words = ended_words(alloc, shortfall.ended)?;
    let cut = cut_words(alloc, shortfall.cut)?;
    words.push_str(cut.as_str())?;
    Ok(words)
}

fn counted_line(
    alloc: Global,
    seconds: u64,
    devices: usize,
    counted: &str,
    wire: &str,
    short: &str,
) -> Result<String, AllocError>
    ensures { IfOk result (λ text. string_bytes text ≡ counted_line seconds devices counted.now wire.now short.now) }
{
    format!(in alloc; "done seconds {seconds} devices {devices} {counted}{wire}{short}\n")
}

/// How long a session was, how many devices it had, how many datagrams went through their ports, how often a wire did
/// what, and what did not last as long.
pub fn done_line(
    alloc: Global,
    seconds: u64,
    devices: usize,
    account: Account,
    shortfall: Shortfall,
) -> Result<String, AllocError>
    ensures { IfOk result (λ text. string_bytes text ≡ done_line seconds devices account shortfall) }
{
    let counted = counts_words(alloc, account.counts)?;
    let wire = wire_words(alloc, account.happened)?;
    let short = shortfall_words(alloc, shortfall)?;
    counted_line(
        alloc,
        seconds,
        devices,
        counted.as_str(),
        wire.as_str(),
        short.as_str(),
    )
}

/// Whether datagrams were dropped or lost, if the status is to tell that.
fn status_of(strict: bool, counts: Counts) -> Status
    ensures { result ≡ status_of strict counts }
{
    if strict && !(counts.dropped == 0 && counts.lost == 0) {
        Status::NotRun
    } else {
        Status::Done
    }
}

/// What is left of a session that was concluded.
#[derive(Drop)]
pub struct Held {
    /// How the program ends by it.
    pub status: Status,
    /// The scenario of the devices' steps, if it was saved.
    pub saved: Option<Scenario>,
}

/// Prints the line of a session, or its object, and then saves the devices' steps, if there is a path.
pub fn conclude_session<'a, W: World>(
    alloc: Global,
    asked: &AskedFleet<'a>,
    part: &Scenario,
    fleet: Fleet,
    account: Account,
    world: &mut W,
) -> Result<Held, Refusal<'a>>
    ensures concluded { IfOk result (IsConcluded (W.seen world.old) (W.seen world.new)
        asked.now part.now
        (record { slots = fleet.slots.items; second = fleet.second; account = account })) }
    ensures kept { OnErr result ((W.seen world.new).made ≡ (W.seen world.old).made) }
    ensures refused { IfErr result (λ r. IsUnconcluded W.refuses W.faults (W.seen world.old).streams
        (W.seen world.new).streams
        asked.now (record { slots = fleet.slots.items; second = fleet.second; account = account }) r.fault) }
    ensures aside { IsAside (W.seen world.old).streams (W.seen world.new).streams }
{
    let shortfall = shortfall_of(asked.save, &fleet);
    print_session(alloc, asked.json, &fleet, account, shortfall, world)?;
    let saved = save_steps(alloc, asked.save, part, fleet, world)?;
    let status = status_of(asked.strict, account.counts);
    Ok(Held { status, saved })
}

/// The line of a session, or its object, after which the devices are these.
fn session_line(
    alloc: Global,
    json: bool,
    fleet: &Fleet,
    account: Account,
    shortfall: Shortfall,
) -> Result<String, AllocError>
    ensures { IfOk result (λ text. string_bytes text ≡ line_of json shortfall
        (record { slots = fleet.now.slots.items; second = fleet.now.second; account = account })) }
{
    if json {
        done_object(
            alloc,
            fleet.second(),
            fleet.devices().len(),
            account,
            shortfall,
        )
    } else {
        done_line(
            alloc,
            fleet.second(),
            fleet.devices().len(),
            account,
            shortfall,
        )
    }
}

fn print_session<'a, W: World>(
    alloc: Global,
    json: bool,
    fleet: &Fleet,
    account: Account,
    shortfall: Shortfall,
    world: &mut W,
) -> Result<(), Refusal<'a>>
    ensures printed { OnOk result (Appends (W.seen world.old).streams.output (W.seen world.new).streams.output
        (line_of json shortfall
        (record { slots = fleet.now.slots.items; second = fleet.now.second; account = account }))) }
    ensures refused { IfErr result (λ r. IsWritingFault
        (W.faults.output_refuses
        (line_of json shortfall
        (record { slots = fleet.now.slots.items; second = fleet.now.second; account = account })))
        r.fault) }
    ensures only { OnlyPrints (W.seen world.old) (W.seen world.new) }
{
    let text = session_line(alloc, json, fleet, account, shortfall)?;
    print(text.as_str(), world)
}

/// Saves the devices' steps as a scenario, if there is a path. Returns this scenario.
fn save_steps<'a, W: World>(
    alloc: Global,
    save: Option<&'a str>,
    part: &Scenario,
    fleet: Fleet,
    world: &mut W,
) -> Result<Option<Scenario>, Refusal<'a>>
    ensures scenario { IfOk result (IsScenarioIf (option_map (λ p. p.now) save.entry) part.now fleet.slots.items) }
    ensures saved { OnOk result (IsSavedIf (W.seen world.old).made (W.seen world.new).made
        (option_map (λ p. p.now) save.entry)
        part.now fleet.slots.items) }
    ensures kept { OnErr result ((W.seen world.new).made ≡ (W.seen world.old).made) }
    ensures refused { IfErr result (λ r. IsUnsaved W.refuses (option_map (λ p. p.now) save.entry) r.fault) }
    ensures only { OnlyMakes (W.seen world.old) (W.seen world.new) }
{
    match save {
        None => Ok(None),
        Some(path) => Ok(Some(save_at(alloc, path, part, fleet, world)?)),
    }
}

/// Saves the devices' steps as a scenario, and returns it.
#[tactic(auto, using(crate::proofs::Sessions::saved_at, crate::proofs::Sessions::not_fit, crate::proofs::Sessions::not_made))]
fn save_at<'a, W: World>(
    alloc: Global,
    path: &'a str,
    part: &Scenario,
    fleet: Fleet,
    world: &mut W,
) -> Result<Scenario, Refusal<'a>>
    ensures scenario { IfOk result (IsSaved part.now fleet.slots.items) }
    ensures saved { OnOk result (IsSavedAt (W.seen world.old).made (W.seen world.new).made path.entry.now part.now
        fleet.slots.items) }
    ensures kept { OnErr result ((W.seen world.new).made ≡ (W.seen world.old).made) }
    ensures refused { IfErr result (λ r. IsSaveFault W.refuses path.entry.now r.fault) }
    ensures only { OnlyMakes (W.seen world.old) (W.seen world.new) }
{
    let (file, scenario) = session_file(alloc, path, part, fleet)?;
    make(&Some(file), world)?;
    Ok(scenario)
}

/// The image of the devices' steps, for the path, and their scenario.
#[tactic(auto, using(crate::proofs::Sessions::unfit_memory, crate::proofs::Sessions::unfit_step))]
fn session_file<'a>(
    alloc: Global,
    path: &'a str,
    part: &Scenario,
    fleet: Fleet,
) -> Result<(NewFile<'a>, Scenario), Fault>
    ensures path { IfOk result (λ r. r.0.path.now ≡ path.entry.now) }
    ensures image { IfOk result (λ r. IsImageIn 2 r.0.bytes r.1) }
    ensures scenario { IfOk result (λ r. IsSaved part.now fleet.slots.items r.1) }
    ensures refused { IfErr result IsUnfit }
{
    match fleet.into_scenario(alloc, part) {
        Ok(scenario) => {
            let file = image_file(alloc, &scenario, path)?;
            Ok((file, scenario))
        }
        Err(fault) => Err(Fault::from(fault)),
    }
}
