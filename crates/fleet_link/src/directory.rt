//! Which address is which account's, at the port of a device.
use std::alloc::{AllocError, Global};
use std::net::{IpAddr, SocketAddr};

/// A server whose address is fixed, for all devices.
#[derive(Clone, Copy)]
pub struct FixedServer {
    /// Its account, a Short Server ID.
    pub account: u16,
    pub ip: IpAddr,
    /// None: it sends from any port, and what is sent to it goes to the one that it sent from last.
    pub port: Option<u16>,
}

/// An account of a device, and its address, where one is known.
#[derive(Clone, Copy)]
struct Peer {
    account: u16,
    address: Option<SocketAddr>,
}

/// The accounts of a device in order, and their addresses.
#[derive(Drop)]
pub(crate) struct Directory {
    peers: Vec<Peer>,
}

/// Whether a server is fixed at the address.
fn is_at(server: &FixedServer, address: SocketAddr) -> bool {
    if server.ip != address.ip() {
        return false;
    }
    match server.port {
        None => true,
        Some(port) => port == address.port(),
    }
}

/// The account of the first server that is fixed at the address.
fn fixed_at(servers: &[FixedServer], address: SocketAddr) -> Option<u16> {
    for server in servers {
        if is_at(server, address) {
            return Some(server.account);
        }
    }
    None
}

/// The address at which an account is fixed: none where it is not, or at any port of its own.
fn address_fixed(servers: &[FixedServer], account: u16) -> Option<SocketAddr> {
    for server in servers {
        if server.account == account {
            return match server.port {
                None => None,
                Some(port) => Some(SocketAddr::new(server.ip, port)),
            };
        }
    }
    None
}

/// Whether a server is fixed that is this account.
fn is_fixed(servers: &[FixedServer], account: u16) -> bool {
    for server in servers {
        if server.account == account {
            return true;
        }
    }
    false
}

impl Directory {
    /// The accounts of a device. The addresses that are known are those of servers that are fixed at a port.
    pub(crate) fn new(
        alloc: Global,
        accounts: &[u16],
        servers: &[FixedServer],
    ) -> Result<Directory, AllocError> {
        let mut peers = Vec::with_capacity(alloc, accounts.len())?;
        for account in accounts {
            peers.push(Peer {
                account: *account,
                address: address_fixed(servers, *account),
            })?;
        }
        Ok(Directory { peers })
    }

    /// The place of an account.
    fn place_of_account(&self, account: u16) -> Option<usize> {
        self.peers.iter().position(|peer| peer.account == account)
    }

    /// The place at which the address is known.
    fn place_of_address(&self, address: SocketAddr) -> Option<usize> {
        self.peers
            .iter()
            .position(|peer| peer.address == Some(address))
    }

    /// The first place whose account is not fixed and has no address.
    fn first_vacant(&self, servers: &[FixedServer]) -> Option<usize> {
        let mut place = 0usize;
        for peer in &self.peers {
            if peer.address.is_none() && !is_fixed(servers, peer.account) {
                return Some(place);
            }
            place = place.saturating_add(1);
        }
        None
    }

    /// The place of the account of an address: that of the server that is fixed at it; else the one at which the
    /// address is known; else the first vacant one.
    fn place_of(&self, servers: &[FixedServer], address: SocketAddr) -> Option<usize> {
        if let Some(account) = fixed_at(servers, address) {
            return self.place_of_account(account);
        }
        if let Some(place) = self.place_of_address(address) {
            return Some(place);
        }
        self.first_vacant(servers)
    }

    /// The account of an address from which a datagram came. The address becomes that of the account, if it has one.
    pub(crate) fn account_of(
        &mut self,
        servers: &[FixedServer],
        address: SocketAddr,
    ) -> Option<u16> {
        let place = self.place_of(servers, address)?;
        let peer = self.peers.get_mut(place)?;
        peer.address = Some(address);
        Some(peer.account)
    }

    /// The address of an account: the one from which it sent last, and before that the one at which it is fixed.
    pub(crate) fn address_of(&self, account: u16) -> Option<SocketAddr> {
        let place = self.place_of_account(account)?;
        let peer = self.peers.get(place)?;
        peer.address
    }
}
