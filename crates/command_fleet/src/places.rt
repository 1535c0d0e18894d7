//! Where the ports of devices are.
ghost use Rattle.std.specs.Prelude.{ℕ, ◌≡◌, ◌⊎◌, Some, IfErr, IfOk, OnOk, length};
ghost use Rattle.std.specs.Io.KnownBytes.{Appends};
ghost use Rattle.std.specs.String.{string_bytes};
ghost use Rattle.fleet_link.specs.Traffic.{no_traffic};
ghost use Rattle.fleet_link.specs.Udp.{fixed_over_udp, ports_over_udp, told_over_udp};
ghost use Rattle.command_files.specs.Fault.{IsWritingFault};
ghost use Rattle.command_files.specs.World.{OnlyNotes};
ghost use Rattle.command_fleet.specs.Fleet.{IsPlace, ready_line};

use crate::telling::note;
use command_files::{Fault, Refusal, Why, World};
use fleet_link::{BindFault, FixedServer, UdpPorts};
use scenario_image::Scenario;
use std::alloc::{AllocError, Global};
use std::net::{IpAddr, Net, SocketAddr};

/// The place at this port of the IP address that a word is.
pub(crate) fn place_of<'a>(word: &'a str, port: u16) -> Result<SocketAddr, Refusal<'a>>
    ensures place { IfOk result (IsPlace word.entry.now port) }
    ensures refused { IfErr result (λ r. r.fault ≡ Fault.Bind) }
{
    match word.parse::<IpAddr>() {
        Ok(ip) => Ok(SocketAddr::new(ip, port)),
        Err(_) => Err(Refusal {
            fault: Fault::Bind,
            about: Some(word),
            why: Why::Known("it is not an IP address"),
        }),
    }
}

/// A socket for each device of a scenario: the first at this place, and each next one at the next port; at port 0 the
/// system chooses. These servers are fixed, and no others.
pub(crate) fn ports_at<'a, R: Net>(
    rt: &R,
    alloc: Global,
    scenario: &Scenario,
    place: SocketAddr,
    servers: Vec<FixedServer>,
) -> Result<UdpPorts, Refusal<'a>>
    ensures new { IfOk result (λ ports. (e : ℕ) → told_over_udp ports e ≡ Some no_traffic) }
    ensures fixed { IfOk result (λ ports. fixed_over_udp ports ≡ servers.items) }
    ensures count { IfOk result (λ ports. length (ports_over_udp ports) ≡ length scenario.now.rows) }
    ensures refused { IfErr result (λ r. (r.fault ≡ Fault.Memory) ⊎ (r.fault ≡ Fault.Bind)) }
{
    match UdpPorts::bind(rt, alloc, scenario, place.ip(), place.port(), servers) {
        Ok(ports) => Ok(ports),
        Err(fault) => Err(refusal_of(alloc, scenario.rows(), fault)),
    }
}

/// Why ports could not be had, for people.
fn refusal_of<'a>(alloc: Global, devices: usize, fault: BindFault) -> Refusal<'a>
    ensures { (result.fault ≡ Fault.Memory) ⊎ (result.fault ≡ Fault.Bind) }
{
    match words_of(alloc, devices, fault) {
        Ok(Some(why)) => Refusal {
            fault: Fault::Bind,
            about: None,
            why: Why::Made(why),
        },
        Ok(None) | Err(_) => Refusal::from(Fault::Memory),
    }
}

/// Which port could not be had, and why; none where no memory was left for one.
fn words_of(alloc: Global, devices: usize, fault: BindFault) -> Result<Option<String>, AllocError> {
    match fault {
        BindFault::Memory => Ok(None),
        BindFault::PastLast => Ok(Some(format!(in alloc;
            "{devices} devices need ports past 65535"
        )?)),
        BindFault::Taken(port) => Ok(Some(format!(in alloc; "port {port} is taken")?)),
        BindFault::TooManyFiles(port) => Ok(Some(too_many_files(alloc, devices, port)?)),
        BindFault::Refused(0) => Ok(Some(String::from_str(alloc, "cannot bind a free port")?)),
        BindFault::Refused(port) => Ok(Some(format!(in alloc; "cannot bind port {port}")?)),
        BindFault::Failed => Ok(Some(String::from_str(
            alloc,
            "the system cannot wait for datagrams",
        )?)),
    }
}

/// That there are too many files for this port, or, at 0, for one that the system chooses.
fn too_many_files(alloc: Global, devices: usize, port: u16) -> Result<String, AllocError> {
    let files = devices.saturating_add(OTHER_FILES);
    if port == 0 {
        return format!(in alloc; "too many files: `ulimit -n {files}` is needed");
    }
    format!(in alloc; "too many files at port {port}: `ulimit -n {files}` is needed")
}

/// How many files the program may have open beside the ports.
const OTHER_FILES: usize = 32;

/// That all ports are there.
pub fn ready_line(alloc: Global, devices: usize, place: SocketAddr) -> Result<String, AllocError>
    ensures { IfOk result (λ text. string_bytes text ≡ ready_line devices place) }
{
    format!(in alloc; "lwbench: ready {devices} at {place}\n")
}

/// Tells a person, or a script, that all ports are there.
pub(crate) fn tell_ready<'a, W: World>(
    alloc: Global,
    devices: usize,
    place: SocketAddr,
    world: &mut W,
) -> Result<(), Refusal<'a>>
    ensures told { OnOk result (Appends (W.seen world.old).streams.errors (W.seen world.new).streams.errors
        (ready_line devices place)) }
    ensures refused { IfErr result (λ r. IsWritingFault (W.faults.errors_refuse (ready_line devices place)) r.fault) }
    ensures only { OnlyNotes (W.seen world.old) (W.seen world.new) }
{
    let text = ready_line(alloc, devices, place)?;
    note(text.as_str(), world)
}
