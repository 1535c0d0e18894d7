//! A wire over UDP, on this machine's loopback address. Nothing is claimed of what a socket carries.
ghost use Rattle.std.specs.Prelude.{◌≡◌, [], Err, None, IfNone, IfOk, IfSome, OnErr, OnOk};
ghost use Rattle.live_link.specs.Asked.{ComesOf, HasCome};
ghost use Rattle.live_link.specs.Peers.{AreKept, ArePaired, HasAddress, HasOneMore, IsAddressOf, IsReceiptIf};

use crate::packet::Packet;
use crate::peers::Peers;
use crate::wire::{Wire, WireFault};
use octets::Bytes;
use std::alloc::{AllocError, AllocFailed, Global};
use std::io;
use std::io::ErrorKind;
use std::marker::Model;
use std::net::{Ipv4Addr, Net, SocketAddr, UdpSocket};
use std::time::Duration;

/// The most bytes of a datagram that is received.
const MOST_BYTES: usize = 1500;

/// After this number of datagrams that were dropped, one after another, nothing has arrived.
const MOST_DROPPED: u32 = 1000;

/// What came of asking a socket.
#[derive(Drop)]
enum Came {
    Arrived(Packet),
    Dropped,
    Nothing,
}

impl From<AllocError> for WireFault {
    fn from(_e: AllocError) -> WireFault {
        WireFault::Memory
    }
}

impl<T: Drop> From<AllocFailed<T>> for WireFault {
    fn from(_refused: AllocFailed<T>) -> WireFault {
        WireFault::Memory
    }
}

impl From<io::Error> for WireFault {
    fn from(error: io::Error) -> WireFault {
        if error.kind() == ErrorKind::OutOfMemory {
            return WireFault::Memory;
        }
        WireFault::Failed
    }
}

/// A UDP socket. The first address that sends to it is that of the first account, and so on. Contracts see the
/// accounts, and the addresses that are known.
#[derive(Drop)]
pub struct UdpWire {
    alloc: Global,
    socket: UdpSocket,
    peers: Peers,
    /// Room for one byte more than may be received, so that a longer datagram shows.
    buffer: Vec<u8>,
}

impl Model for UdpWire {
    ghost use Rattle.std.specs.Prelude.{◌≡◌, vec_len};
    ghost use Rattle.live_link.specs.Peers.{KnownPeers};

    ghost Value = { KnownPeers };

    ghost view = { λ w. w.peers };

    ghost invariant = { λ w. vec_len w.buffer ≡ 1501 };
}

/// What comes of a datagram. It is dropped where it is too long, or its sender has no account.
#[tactic(auto, using(crate::proofs::Known::taken, crate::proofs::Known::account_more))]
fn take_datagram(
    alloc: Global,
    peers: &mut Peers,
    address: SocketAddr,
    bytes: &[u8],
) -> Result<Came, AllocError>
    ensures came { IfOk result (ComesOf peers.old peers.new address bytes.now) }
    ensures failed { OnErr result (HasOneMore peers.old peers.new) }
{
    if bytes.len() > MOST_BYTES {
        return Ok(Came::Dropped);
    }
    match peers.account_of(address)? {
        None => Ok(Came::Dropped),
        Some(server) => Ok(Came::Arrived(Packet {
            server,
            bytes: Bytes::from_slice(alloc, bytes)?,
        })),
    }
}

impl UdpWire {
    /// A socket at this port of the loopback address; at a free one where it is 0. It waits for a datagram at most
    /// 100 ms. No address is known yet.
    pub fn bind<R: Net>(
        rt: &R,
        alloc: Global,
        port: u16,
        accounts: Vec<u16>,
    ) -> Result<UdpWire, WireFault>
        ensures { IfOk result (λ wire. wire ≡ record { accounts = accounts.items; addresses = [] }) }
    {
        let socket = UdpSocket::bind(rt, SocketAddr::from((Ipv4Addr::LOCALHOST, port)))?;
        socket.set_read_timeout(Some(Duration::from_millis(100)))?;
        let buffer = Vec::from_elem(alloc, 0u8, MOST_BYTES + 1)?;
        Ok(UdpWire {
            alloc,
            socket,
            peers: Peers::new(alloc, accounts),
            buffer,
        })
    }

    /// The port of its socket, which the system says.
    pub fn port(&self) -> Result<u16, WireFault> {
        Ok(self.socket.local_addr()?.port())
    }

    /// Asks the socket once.
    #[tactic(auto, using(crate::proofs::Known::has_come))]
    fn ask(&mut self) -> Result<Came, WireFault>
        ensures came { IfOk result (HasCome self.old self.new) }
        ensures failed { OnErr result (HasOneMore self.old self.new) }
    {
        match self.socket.recv_from(self.buffer.as_mut_slice()) {
            Ok((count, address)) => {
                let bytes = &self.buffer[..count];
                Ok(take_datagram(self.alloc, &mut self.peers, address, bytes)?)
            }
            Err(error) => match error.kind() {
                ErrorKind::WouldBlock | ErrorKind::TimedOut | ErrorKind::Interrupted => {
                    Ok(Came::Nothing)
                }
                _ => Err(WireFault::from(error)),
            },
        }
    }

    /// What has arrived after one that was dropped, and was not dropped itself.
    fn ask_after_dropped(&mut self) -> Result<Option<Packet>, WireFault>
        ensures received { IfOk result (IsReceiptIf self.old self.new) }
        ensures failed { OnErr result (HasOneMore self.old self.new) }
    {
        for _ in 0..MOST_DROPPED {
            match self.ask()? {
                Came::Arrived(packet) => return Ok(Some(packet)),
                Came::Nothing => return Ok(None),
                Came::Dropped => {}
            }
        }
        Ok(None)
    }

    /// The address of an account, where one is known. No wire has an address twice, or more addresses than accounts.
    pub fn address_of(&self, account: u16) -> Option<SocketAddr>
        ensures known { IfSome result (IsAddressOf self.now account) }
        ensures unknown { IfNone result (¬ (HasAddress self.now account)) }
        ensures paired { ArePaired self.now }
    {
        self.peers.address_of(account)
    }
}

impl Wire for UdpWire {
    ghost told = { λ _. None };

    /// What has arrived; a datagram that is dropped is none. It waits once, and not again after one that was dropped.
    #[tactic(auto, using(crate::proofs::Known::more_kept, crate::proofs::Known::arrived_more, crate::proofs::Known::again_received, crate::proofs::Known::again_failed, crate::proofs::Known::again_more))]
    fn receive(&mut self) -> Result<Option<Packet>, WireFault>
        ensures received { IfOk result (IsReceiptIf self.old self.new) }
        ensures failed { OnErr result (HasOneMore self.old self.new) }
        ensures kept { AreKept self.old self.new }
    {
        match self.ask()? {
            Came::Arrived(packet) => Ok(Some(packet)),
            Came::Nothing => Ok(None),
            Came::Dropped => {
                self.socket.set_nonblocking(true)?;
                let after = self.ask_after_dropped();
                self.socket.set_nonblocking(false)?;
                after
            }
        }
    }

    /// It fails where no address of the account is known: nothing can be sent.
    fn send(&mut self, server: u16, bytes: &[u8]) -> Result<(), WireFault>
        ensures unknown { ¬ (HasAddress self.old server) → result ≡ Err WireFault.Failed }
        ensures known { OnOk result (HasAddress self.old server) }
        ensures same { self.new ≡ self.old }
    {
        match self.address_of(server) {
            None => Err(WireFault::Failed),
            Some(address) => {
                self.socket.send_to(bytes, address)?;
                Ok(())
            }
        }
    }
}
