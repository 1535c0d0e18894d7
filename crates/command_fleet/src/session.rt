//! `fleet FILE PORT ..`: devices on UDP.
ghost use Rattle.std.specs.Prelude.{ℕ, ◌≡◌, [], None, Some, IfErr, IfOk, length};
ghost use Rattle.fleet_link.specs.Traffic.{no_traffic};
ghost use Rattle.fleet_link.specs.Udp.{ports_over_udp, told_over_udp};
ghost use Rattle.command_files.specs.World.{known_by};
ghost use Rattle.command_fleet.specs.Fleet.{IsFleetDone, IsFleetFault, IsHeldDone, IsHeldFault, IsSessionDone};
ghost use Rattle.command_fleet.specs.Fleet.{IsSessionFault};
ghost use Rattle.command_fleet.specs.Inside.{IsShownFrom};
ghost use Rattle.command_fleet.specs.Wires.{IsPlanned, IsWireBy};

use crate::asking::{Quit, StandardInput};
use crate::concluding::{Held, conclude_session};
use crate::devices::{chosen_devices, part_of};
use crate::listing::list_ports;
use crate::places::{place_of, ports_at, tell_ready};
use crate::placing::{copy_ports, free_ports};
use crate::servers::servers_of;
use crate::serving::serve_part;
use crate::settling::UntilSettled;
use crate::telling::{print_ready, telling_of};
use crate::wires::plan_if;
use command_files::{Fault, Refusal, Why, World};
use command_line::AskedFleet;
use command_sources::load_source;
use expectations::ExpectedCase;
use fleet_lines::{Counted, ShownPorts};
use fleet_link::UdpPorts;
use fleet_wire::{Plan, WiredPorts};
use live_link::{MachineClock, Seconds};
use scenario_image::Scenario;
use std::alloc::Global;
use std::io::Input;
use std::net::{Net, SocketAddr};
use std::rt::Clock;

/// The devices of a scenario that are asked for are served, each from the start of its class, at UDP ports, with a wire
/// on them if words ask for one, and by the machine's clock; their rows are played, once or over and over, if that is
/// asked for. Once their ports are there, a file that lists them is made, if it has a path; then exactly the line that
/// says so goes to standard error, and where the system chose them a line for each is printed. Each second that comes
/// is told as a line on standard error, if that is a terminal. What the wire does with a datagram is printed as a line,
/// and, if that is asked for, so is each datagram that a device receives or sends. The session ends after the seconds
/// that are asked for, if they are, or when standard input asks for it, or once what servers have to send (`goal`) is
/// settled, if there is something. Then exactly the line of the session is printed. If JSON is asked for, exactly
/// objects are printed in the place of these lines: that the ports are there, each of them that the system chose, each
/// second, what goes through the ports, and the end. Then, if there is a path, the image, in version 2, of the scenario
/// whose rows have the devices' steps is made there; and each minute before it one of their steps so far, beside the
/// path. No other file is made, and at a fault just those that came before it. The status tells of datagrams that were
/// dropped or lost, if that is asked for. Nothing is promised about the content of standard input.
#[tactic(auto, using(crate::proofs::Sessions::source_refused, crate::proofs::Sessions::devices_missing, crate::proofs::Sessions::part_refused, crate::proofs::Sessions::place_refused, crate::proofs::Sessions::plan_refused, crate::proofs::Sessions::servers_refused, crate::proofs::Sessions::ports_refused))]
pub fn fleet<'a, R: Net + Clock + Input, W: World>(
    rt: &R,
    alloc: Global,
    asked: AskedFleet<'a>,
    goal: &[ExpectedCase],
    terminal: bool,
    world: &mut W,
) -> Result<Held, Refusal<'a>>
    ensures done { IfOk result (IsFleetDone (known_by W.Files world.old) (W.seen world.old)
        (W.seen world.new) asked.entry terminal) }
    ensures refused { IfErr result (λ r. IsFleetFault (known_by W.Files world.old) W.faults
        (W.seen world.old) (W.seen world.new) asked.entry terminal r.fault) }
    ensures none_read { (W.seen world.new).streams.input ≡ (W.seen world.old).streams.input }
{
    let scenario = load_source(alloc, asked.file, world)?;
    let Some(devices) = chosen_devices(&scenario, asked.devices) else {
        return Err(Refusal {
            fault: Fault::NoDevice,
            about: asked.devices,
            why: Why::Known("the scenario has no such devices"),
        });
    };
    let part = part_of(alloc, &scenario, devices, asked.copies, asked.play)?;
    let plan = plan_if(alloc, &asked.wire)?;
    let place = place_of(asked.bind, asked.port)?;
    let servers = servers_of(alloc, &scenario, asked.servers.as_slice())?;
    let ports = ports_at(rt, alloc, &part, place, servers)?;
    hold_on(
        rt, alloc, &asked, goal, terminal, &part, place, ports, plan, world,
    )
}

/// The session of devices on these ports, which are new, with a wire of this plan on them, if there is one.
fn hold_on<'a, R: Net + Clock + Input, W: World>(
    rt: &R,
    alloc: Global,
    asked: &AskedFleet<'a>,
    goal: &[ExpectedCase],
    terminal: bool,
    part: &Scenario,
    place: SocketAddr,
    ports: UdpPorts,
    plan: Option<Plan>,
    world: &mut W,
) -> Result<Held, Refusal<'a>>
    requires new { (e : ℕ) → told_over_udp ports e ≡ Some no_traffic }
    requires planned { IsPlanned asked.now.wire plan }
    ensures done { IfOk result (IsHeldDone (W.seen world.old) (W.seen world.new)
        asked.now terminal part.now place (ports_over_udp ports)) }
    ensures refused { IfErr result (λ r. IsHeldFault W.refuses W.faults (W.seen world.old) (W.seen world.new)
        asked.now terminal part.now place (ports_over_udp ports) r.fault) }
    ensures none_read { (W.seen world.new).streams.input ≡ (W.seen world.old).streams.input }
{
    let bound = copy_ports(alloc, ports.ports())?;
    let mut clock = MachineClock::new(rt);
    let input = StandardInput::new(rt, alloc, asked.seconds.is_none())?;
    let mut quit = UntilSettled::new(alloc, input);
    match plan {
        None => {
            hold_ports(
                alloc,
                asked,
                terminal,
                part,
                place,
                ports,
                &mut clock,
                &mut quit,
                goal,
                bound.as_slice(),
                world,
            )
        }
        Some(plan) => {
            let wired = WiredPorts::new(alloc, ports, plan, part.rows())?;
            hold_ports(
                alloc,
                asked,
                terminal,
                part,
                place,
                wired,
                &mut clock,
                &mut quit,
                goal,
                bound.as_slice(),
                world,
            )
        }
    }
}

/// The session of devices on these ports, which are new, and are shown if that is asked for.
fn hold_ports<'a, P: Counted + Drop, C: Seconds, Q: Quit, W: World>(
    alloc: Global,
    asked: &AskedFleet<'a>,
    terminal: bool,
    part: &Scenario,
    place: SocketAddr,
    ports: P,
    clock: &mut C,
    quit: &mut Q,
    goal: &[ExpectedCase],
    bound: &[u16],
    world: &mut W,
) -> Result<Held, Refusal<'a>>
    requires new { (e : ℕ) → P.told ports e ≡ Some no_traffic }
    requires wire { IsWireBy asked.now.wire (length part.now.rows) (P.watched ports).wire }
    requires no_notes { (P.watched ports).notes ≡ [] }
    requires none_shown { (P.watched ports).shown ≡ [] }
    requires hidden { (P.watched ports).began ≡ None }
    ensures done { IfOk result (IsSessionDone (W.seen world.old) (W.seen world.new)
        asked.now terminal part.now place bound.now (Q.asked quit.new)) }
    ensures refused { IfErr result (λ r. IsSessionFault W.refuses W.faults (W.seen world.old) (W.seen world.new)
        asked.now terminal part.now place bound.now (Q.asked quit.new) r.fault) }
    ensures none_read { (W.seen world.new).streams.input ≡ (W.seen world.old).streams.input }
{
    if asked.show {
        let mut ports = ShownPorts::new(alloc, ports);
        hold_session(
            alloc, asked, terminal, part, place, &mut ports, clock, quit, goal, bound, world,
        )
    } else {
        let mut ports = ports;
        hold_session(
            alloc, asked, terminal, part, place, &mut ports, clock, quit, goal, bound, world,
        )
    }
}

/// The session of devices on these ports, which are new, by this clock: those to which they are bound are listed, if
/// that is asked for; it is told that they are there, and which of them the system chose; they are served until `quit`
/// asks for the end, and the session is concluded.
fn hold_session<'a, P: Counted, C: Seconds, Q: Quit, W: World>(
    alloc: Global,
    asked: &AskedFleet<'a>,
    terminal: bool,
    part: &Scenario,
    place: SocketAddr,
    ports: &mut P,
    clock: &mut C,
    quit: &mut Q,
    goal: &[ExpectedCase],
    bound: &[u16],
    world: &mut W,
) -> Result<Held, Refusal<'a>>
    requires new { (e : ℕ) → P.told ports.old e ≡ Some no_traffic }
    requires wire { IsWireBy asked.now.wire (length part.now.rows) (P.watched ports.old).wire }
    requires no_notes { (P.watched ports.old).notes ≡ [] }
    requires none_shown { (P.watched ports.old).shown ≡ [] }
    requires began { IsShownFrom asked.now.show (P.watched ports.old).began }
    ensures done { IfOk result (IsSessionDone (W.seen world.old) (W.seen world.new)
        asked.now terminal part.now place bound.now (Q.asked quit.new)) }
    ensures refused { IfErr result (λ r. IsSessionFault W.refuses W.faults (W.seen world.old) (W.seen world.new)
        asked.now terminal part.now place bound.now (Q.asked quit.new) r.fault) }
    ensures none_read { (W.seen world.new).streams.input ≡ (W.seen world.old).streams.input }
{
    let devices = part.rows();
    list_ports(alloc, asked.ports, bound, world)?;
    tell_ready(alloc, devices, place, world)?;
    let free = free_ports(asked.port, bound);
    print_ready(alloc, asked.json, devices, place, free, world)?;
    let telling = telling_of(asked.json, terminal, devices);
    let served = serve_part(alloc, asked, part, telling, ports, clock, quit, goal, world)?;
    conclude_session(alloc, asked, part, served.fleet, served.account, world)
}
