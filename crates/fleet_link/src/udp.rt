//! Ports over UDP: a socket for each device. These ports tell what they handed out, and what they were given to send;
//! nothing is claimed of what a socket carries.
ghost use Rattle.std.specs.Prelude.{◌≡◌, ◌≢◌, ◌+◌, ◌<◌, ◌≤◌, ◌∷◌, [], ℕ, Some, Err, IfErr, IfOk, false, length, true};
ghost use Rattle.live_link.specs.Wire.{AreRead};
ghost use Rattle.fleet_link.specs.Counting.{counts_after, none_counted, AreCountsOf, IsSentOrLost};
ghost use Rattle.fleet_link.specs.Traffic.{Carries, at_port, no_traffic, sent_all, traffic_of_receipt};
ghost use Rattle.fleet_link.specs.Udp.{asked_over_udp, fixed_over_udp, ports_over_udp, told_over_udp, AreFrom};

use crate::directory::{Directory, FixedServer};
use crate::ports::{Arrival, Ports, PortsFault, Receipt};
use crate::tally::Tally;
use live_link::Packet;
use mio::net::UdpSocket;
use mio::{Events, Interest, Poll, Token};
use octets::Bytes;
use scenario_image::Scenario;
use std::alloc::{AllocError, AllocFailed, Global};
use std::collections::VecDeque;
use std::io;
use std::io::ErrorKind;
use std::net::{IpAddr, Net, SocketAddr};
use std::time::Duration;

/// The most bytes of a datagram that is received.
const MOST_BYTES: usize = 1500;

/// How many ports the system names at once.
const MOST_EVENTS: usize = 1024;

/// The number of the system's error where a process has too many files.
const TOO_MANY_FILES: i32 = 24;

/// Why the ports of a fleet could not be had.
#[derive(Clone, Copy)]
pub enum BindFault {
    /// The last of them would be past 65,535.
    PastLast,
    /// This one is in use.
    Taken(u16),
    /// There are too many files for one more: `ulimit -n` says how many a process may have.
    TooManyFiles(u16),
    /// This one could not be had for another reason.
    Refused(u16),
    /// The system cannot wait for datagrams.
    Failed,
    /// No memory was left.
    Memory,
}

/// How many datagrams were received, sent, dropped (they came from no account, or were too long) and lost (the system
/// refused to send them, or the address of the account is not known).
#[derive(Clone, Copy)]
pub struct Counts {
    pub received: u64,
    pub sent: u64,
    pub dropped: u64,
    pub lost: u64,
}

/// The socket of a device.
#[derive(Drop)]
struct Door {
    socket: UdpSocket,
    directory: Directory,
    /// Whether its place is in the queue, or it failed: then it never comes there again.
    queued: bool,
}

/// The sockets of a fleet.
#[derive(Drop)]
pub struct UdpPorts {
    alloc: Global,
    poll: Poll,
    events: Events,
    doors: Vec<Door>,
    /// At which port each of them is.
    numbers: Vec<u16>,
    servers: Vec<FixedServer>,
    /// The places of those that may have a datagram: the system names each once, until it was read to its end.
    queue: VecDeque<usize>,
    /// Room for one byte more than may be received, so that a longer datagram shows.
    buffer: Vec<u8>,
    tally: Tally,
}

impl From<AllocError> for BindFault {
    ghost use Rattle.std.specs.Prelude.{◌≡◌};
    ghost use Rattle.fleet_link.specs.declared.udp.BindFault.TheVariants.{Memory};

    ghost from_gives = { λ _ e. e ≡ Memory };

    fn from(_e: AllocError) -> BindFault {
        BindFault::Memory
    }
}

impl<T: Drop> From<AllocFailed<T>> for BindFault {
    ghost use Rattle.std.specs.Prelude.{◌≡◌};
    ghost use Rattle.fleet_link.specs.declared.udp.BindFault.TheVariants.{Memory};

    ghost from_gives = { λ _ e. e ≡ Memory };

    fn from(_refused: AllocFailed<T>) -> BindFault {
        BindFault::Memory
    }
}

impl From<AllocError> for PortsFault {
    fn from(_e: AllocError) -> PortsFault {
        PortsFault::Memory
    }
}

impl<T: Drop> From<AllocFailed<T>> for PortsFault {
    fn from(_refused: AllocFailed<T>) -> PortsFault {
        PortsFault::Memory
    }
}

/// Why a port could not be had.
fn refusal(port: u16, error: &io::Error) -> BindFault
    ensures { result ≢ BindFault.PastLast }
{
    if error.raw_os_error() == Some(TOO_MANY_FILES) {
        return BindFault::TooManyFiles(port);
    }
    match error.kind() {
        ErrorKind::OutOfMemory => BindFault::Memory,
        ErrorKind::AddrInUse => BindFault::Taken(port),
        _ => BindFault::Refused(port),
    }
}

/// The accounts of the class of a device.
fn accounts_of(scenario: &Scenario, device: u16) -> &[u16] {
    let Some((class, _)) = scenario.row(device) else {
        return &[];
    };
    match scenario.class(class) {
        None => &[],
        Some(class) => class.accounts(),
    }
}

/// The socket of a device at this address.
fn open_door<R: Net>(
    rt: &R,
    alloc: Global,
    poll: &Poll,
    address: SocketAddr,
    place: usize,
    accounts: &[u16],
    servers: &[FixedServer],
) -> Result<Door, BindFault>
    ensures { IfErr result (λ fault. fault ≢ BindFault.PastLast) }
{
    let directory = Directory::new(alloc, accounts, servers)?;
    let mut socket = match UdpSocket::bind(rt, address) {
        Ok(socket) => socket,
        Err(error) => return Err(refusal(address.port(), &error)),
    };
    match poll
        .registry()
        .register(&mut socket, Token(place), Interest::READABLE)
    {
        Ok(()) => {}
        Err(error) => return Err(refusal(address.port(), &error)),
    }
    Ok(Door {
        socket,
        directory,
        queued: false,
    })
}

/// Whether so many ports, of which this is the first, would go past 65,535.
fn is_past_last(first: u16, devices: usize) -> bool
    ensures past { result ≡ true → (0 < first) × (65536 < first + devices) }
    ensures within { result ≡ false → 0 < first → first + devices ≤ 65536 }
{
    if first == 0 {
        return false;
    }
    devices > usize::from(u16::MAX - first) + 1
}

/// The port that is asked for at this place, where this is the first one; 0 has the system choose.
fn wanted_port(first: u16, place: u16) -> u16
    ensures { 0 < first → first + place < 65536 → result ≡ first + place }
{
    if first == 0 {
        return 0;
    }
    first.saturating_add(place)
}

/// At which port a socket is that was bound at this one: the system knows it where it chose.
fn bound_port(socket: &UdpSocket, wanted: u16) -> Result<u16, BindFault>
    ensures wanted { 0 < wanted → IfOk result (λ port. port ≡ wanted) }
    ensures refused { IfErr result (λ fault. fault ≢ BindFault.PastLast) }
{
    if wanted > 0 {
        return Ok(wanted);
    }
    match socket.local_addr() {
        Ok(address) => Ok(address.port()),
        Err(error) => Err(refusal(wanted, &error)),
    }
}

/// What the system gave when a socket was asked.
enum Given {
    /// A datagram of this length from this address.
    Datagram(usize, SocketAddr),
    /// Nothing, until the system names the socket again.
    Nothing,
    /// The call is to be made again.
    Interrupted,
    Failed,
}

/// Asks a socket for a datagram.
fn ask_socket(socket: &UdpSocket, buffer: &mut [u8]) -> Given {
    match socket.recv_from(buffer) {
        Ok((count, address)) => Given::Datagram(count, address),
        Err(error) => match error.kind() {
            ErrorKind::WouldBlock | ErrorKind::TimedOut => Given::Nothing,
            ErrorKind::Interrupted => Given::Interrupted,
            _ => Given::Failed,
        },
    }
}

/// A socket for each device of a scenario, at this address, and the port of each: the first at this port, the next at
/// the one after it, and so on; at port 0 the system chooses a port for each.
fn open_doors<R: Net>(
    rt: &R,
    alloc: Global,
    poll: &Poll,
    scenario: &Scenario,
    ip: IpAddr,
    port: u16,
    servers: &[FixedServer],
) -> Result<(Vec<Door>, Vec<u16>), BindFault>
    requires within { 0 < port → port + length scenario.now.rows ≤ 65536 }
    ensures doors { IfOk result (λ r. length r.0.items ≡ length scenario.now.rows) }
    ensures ports { IfOk result (λ r. length r.1.items ≡ length scenario.now.rows) }
    ensures from { 0 < port → IfOk result (λ r. AreFrom port r.1.items) }
    ensures refused { IfErr result (λ fault. fault ≢ BindFault.PastLast) }
{
    let devices = scenario.rows();
    let mut doors = Vec::with_capacity(alloc, devices)?;
    let mut numbers = Vec::with_capacity(alloc, devices)?;
    for place in 0..devices {
        let wanted = wanted_port(port, place as u16);
        let address = SocketAddr::new(ip, wanted);
        let accounts = accounts_of(scenario, place as u16);
        let door = open_door(rt, alloc, poll, address, place, accounts, servers)?;
        numbers.push(bound_port(&door.socket, wanted)?)?;
        doors.push(door)?;
    }
    Ok((doors, numbers))
}

/// Room for the names of ports, for a queue of so many devices, and for a datagram.
fn make_room(
    alloc: Global,
    devices: usize,
) -> Result<(Events, VecDeque<usize>, Vec<u8>), AllocError> {
    Ok((
        Events::with_capacity(alloc, MOST_EVENTS)?,
        VecDeque::with_capacity(alloc, devices)?,
        Vec::from_elem(alloc, 0u8, MOST_BYTES + 1)?,
    ))
}

impl UdpPorts {
    /// A socket for each device of a scenario, at this address: the first at this port, the next at the one after it,
    /// and so on; at port 0 the system chooses a port for each. No address of an account is known but those of servers
    /// that are fixed at a port.
    pub fn bind<R: Net>(
        rt: &R,
        alloc: Global,
        scenario: &Scenario,
        ip: IpAddr,
        port: u16,
        servers: Vec<FixedServer>,
    ) -> Result<UdpPorts, BindFault>
        ensures counts { IfOk result (λ ports. ports.tally.counts ≡ none_counted) }
        ensures count { IfOk result (λ ports. length ports.doors.items ≡ length scenario.now.rows) }
        ensures ports { IfOk result (λ ports. length (ports_over_udp ports) ≡ length scenario.now.rows) }
        ensures from { 0 < port → IfOk result (λ ports. AreFrom port (ports_over_udp ports)) }
        ensures past { 0 < port → 65536 < port + length scenario.now.rows → result ≡ Err BindFault.PastLast }
        ensures refused { result ≡ Err BindFault.PastLast → (0 < port) × (65536 < port + length scenario.now.rows) }
        ensures fixed { IfOk result (λ ports. fixed_over_udp ports ≡ servers.items) }
        ensures told { IfOk result (λ ports. (e : ℕ) → told_over_udp ports e ≡ Some no_traffic) }
        ensures asked { IfOk result (λ ports. asked_over_udp ports ≡ Some []) }
    {
        let devices = scenario.rows();
        if is_past_last(port, devices) {
            return Err(BindFault::PastLast);
        }
        let poll = match Poll::new(rt) {
            Ok(poll) => poll,
            Err(_) => return Err(BindFault::Failed),
        };
        let (events, queue, buffer) = make_room(alloc, devices)?;
        let (doors, numbers) = open_doors(
            rt,
            alloc,
            &poll,
            scenario,
            ip,
            port,
            servers.as_slice(),
        )?;
        Ok(UdpPorts {
            alloc,
            poll,
            events,
            doors,
            numbers,
            servers,
            queue,
            buffer,
            tally: Tally::new(),
        })
    }

    /// At which port each device is.
    pub fn ports(&self) -> &[u16]
        ensures { result.now ≡ ports_over_udp self.now }
    {
        self.numbers.as_slice()
    }

    /// How many datagrams went through the ports.
    pub fn counts(&self) -> Counts
        ensures counts { result ≡ self.now.tally.counts }
        ensures counted { AreCountsOf (told_over_udp self.now) result }
    {
        self.tally.counts()
    }

    /// Puts the sockets that the system named into the queue, each once.
    fn queue_named(&mut self) -> Result<(), AllocError>
        ensures tally { self.new.tally ≡ self.old.tally }
        ensures servers { self.new.servers ≡ self.old.servers }
        ensures numbers { self.new.numbers ≡ self.old.numbers }
    {
        for event in self.events.iter() {
            let place = event.token().0;
            if let Some(door) = self.doors.get_mut(place) {
                if !door.queued {
                    door.queued = true;
                    self.queue.push_back(place)?;
                }
            }
        }
        Ok(())
    }

    /// What comes of a datagram that has come to a device.
    fn take_datagram(
        &mut self,
        place: usize,
        count: usize,
        address: SocketAddr,
    ) -> Result<Receipt, AllocError>
        ensures tally { self.new.tally ≡ self.old.tally }
        ensures servers { self.new.servers ≡ self.old.servers }
        ensures numbers { self.new.numbers ≡ self.old.numbers }
    {
        let account = match self.doors.get_mut(place) {
            Some(door) if count <= MOST_BYTES => {
                door.directory.account_of(self.servers.as_slice(), address)
            }
            _ => None,
        };
        match account {
            Some(server) if count <= self.buffer.len() => {
                let bytes = Bytes::from_slice(self.alloc, &self.buffer[..count])?;
                Ok(Receipt::Arrived(Arrival {
                    device: place,
                    packet: Packet { server, bytes },
                }))
            }
            _ => Ok(Receipt::Dropped),
        }
    }

    /// Asks the socket at this place, which was taken from the queue. None: it has nothing.
    fn ask_at(&mut self, place: usize) -> Result<Option<Receipt>, AllocError>
        ensures tally { self.new.tally ≡ self.old.tally }
        ensures servers { self.new.servers ≡ self.old.servers }
        ensures numbers { self.new.numbers ≡ self.old.numbers }
    {
        let Some(door) = self.doors.get_mut(place) else {
            return Ok(None);
        };
        match ask_socket(&door.socket, self.buffer.as_mut_slice()) {
            Given::Nothing => {
                door.queued = false;
                Ok(None)
            }
            Given::Failed => Ok(Some(Receipt::Failed(place))),
            Given::Interrupted => {
                self.queue.push_back(place)?;
                Ok(None)
            }
            Given::Datagram(count, address) => {
                self.queue.push_back(place)?;
                Ok(Some(self.take_datagram(place, count, address)?))
            }
        }
    }

    /// What a socket of the queue has, one after another: so none that has much keeps the others waiting.
    fn next_receipt(&mut self) -> Result<Receipt, PortsFault>
        ensures tally { self.new.tally ≡ self.old.tally }
        ensures servers { self.new.servers ≡ self.old.servers }
        ensures numbers { self.new.numbers ≡ self.old.numbers }
    {
        for _asked in 0..self.queue.len() {
            let Some(place) = self.queue.pop_front() else {
                return Ok(Receipt::Nothing);
            };
            if let Some(receipt) = self.ask_at(place)? {
                return Ok(receipt);
            }
        }
        Ok(Receipt::Nothing)
    }
}

impl Ports for UdpPorts {
    ghost told = { λ ports e. told_over_udp ports e };

    ghost asked = { λ ports. asked_over_udp ports };

    ghost fixed = { λ ports. fixed_over_udp ports };

    /// What a socket of the queue has.
    fn receive(&mut self, second: u64) -> Result<Receipt, PortsFault>
        ensures told { (e : ℕ) → Carries (told_over_udp self.old e) (told_over_udp self.new e)
            (traffic_of_receipt second result e) }
        ensures fixed { fixed_over_udp self.new ≡ fixed_over_udp self.old }
        ensures asked { AreRead (asked_over_udp self.old) (asked_over_udp self.new) (second ∷ []) }
        ensures counts { self.new.tally.counts ≡ counts_after self.old.tally.counts result }
        ensures ports { ports_over_udp self.new ≡ ports_over_udp self.old }
    {
        let given = self.next_receipt();
        self.tally.note_receipt(second, &given);
        given
    }

    /// What cannot be sent is lost: the address of the account is not known, or the system refuses it.
    fn send(&mut self, device: usize, server: u16, bytes: &[u8])
        ensures told { (e : ℕ) → Carries (told_over_udp self.old e) (told_over_udp self.new e)
            (at_port device e (sent_all (record { server = server; bytes = bytes.now } ∷ []))) }
        ensures fixed { fixed_over_udp self.new ≡ fixed_over_udp self.old }
        ensures asked { AreRead (asked_over_udp self.old) (asked_over_udp self.new) [] }
        ensures counts { IsSentOrLost self.old.tally.counts self.new.tally.counts }
        ensures ports { ports_over_udp self.new ≡ ports_over_udp self.old }
    {
        let taken = match self.doors.get(device) {
            None => false,
            Some(door) => match door.directory.address_of(server) {
                None => false,
                Some(address) => door.socket.send_to(bytes, address).is_ok(),
            },
        };
        self.tally.note_sending(device, server, bytes, taken);
    }

    /// It does not wait where a socket is in the queue.
    fn wait(&mut self, millis: u32) -> Result<(), PortsFault>
        ensures told { (e : ℕ) → Carries (told_over_udp self.old e) (told_over_udp self.new e) no_traffic }
        ensures fixed { fixed_over_udp self.new ≡ fixed_over_udp self.old }
        ensures asked { AreRead (asked_over_udp self.old) (asked_over_udp self.new) [] }
        ensures counts { self.new.tally.counts ≡ self.old.tally.counts }
        ensures ports { ports_over_udp self.new ≡ ports_over_udp self.old }
    {
        let millis = if self.queue.is_empty() { millis } else { 0 };
        match self.poll.poll(
            &mut self.events,
            Some(Duration::from_millis(u64::from(millis))),
        ) {
            Ok(()) => {}
            Err(_) => return Err(PortsFault::Failed),
        }
        self.queue_named()?;
        Ok(())
    }
}
