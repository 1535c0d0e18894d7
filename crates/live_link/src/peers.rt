//! Which address is which account's.
ghost use Rattle.std.specs.Prelude.{◌≡◌, [], IfNone, IfOk, IfSome, OnErr};
ghost use Rattle.live_link.specs.Peers.{ArePaired, HasAddress, IsAccountIf, IsAddressOf, IsFirstPlace, IsNowhere};

use std::alloc::{AllocError, Global};
use std::marker::Model;
use std::net::SocketAddr;

/// The accounts of a wire, in order, and the addresses that have sent to it: the first is that of the first account,
/// and so on.
#[derive(Drop)]
pub(crate) struct Peers {
    accounts: Vec<u16>,
    addresses: Vec<SocketAddr>,
}

impl Model for Peers {
    ghost use Rattle.live_link.specs.Peers.{KnownPeers, ArePaired};

    ghost Value = { KnownPeers };

    ghost view = { λ p. record { accounts = p.accounts.items; addresses = p.addresses.items } };

    ghost invariant = { λ p. ArePaired (record { accounts = p.accounts.items; addresses = p.addresses.items }) };
}

fn place_of_account(accounts: &[u16], account: u16) -> Option<usize>
    ensures found { IfSome result (IsFirstPlace accounts.now account) }
    ensures absent { IfNone result (IsNowhere accounts.now account) }
{
    accounts.iter().position(|other| *other == account)
}

fn place_of_address(addresses: &[SocketAddr], address: SocketAddr) -> Option<usize>
    ensures found { IfSome result (IsFirstPlace addresses.now address) }
    ensures absent { IfNone result (IsNowhere addresses.now address) }
{
    addresses.iter().position(|other| *other == address)
}

impl Peers {
    /// Accounts of which no address is known yet.
    pub(crate) fn new(alloc: Global, accounts: Vec<u16>) -> Peers
        ensures { result ≡ record { accounts = accounts.items; addresses = [] } }
    {
        Peers {
            accounts,
            addresses: Vec::new(alloc),
        }
    }

    /// The account of an address; a new address gets the next one, while there is one.
    #[tactic(auto, using(crate::proofs::Known::has_account, crate::proofs::Known::known_account, crate::proofs::Known::turned_away, crate::proofs::Known::new_account, crate::proofs::Known::paired_push))]
    pub(crate) fn account_of(&mut self, address: SocketAddr) -> Result<Option<u16>, AllocError>
        ensures account { IfOk result (IsAccountIf self.old self.new address) }
        ensures unchanged { OnErr result (self.new ≡ self.old) }
    {
        if let Some(place) = place_of_address(self.addresses.as_slice(), address) {
            return Ok(Some(self.accounts[place]));
        }
        let place = self.addresses.len();
        if place >= self.accounts.len() {
            return Ok(None);
        }
        self.addresses.push(address)?;
        Ok(Some(self.accounts[place]))
    }

    /// The address of an account, where one is known.
    #[tactic(auto, using(crate::proofs::Known::address_known, crate::proofs::Known::address_unknown, crate::proofs::Known::are_paired))]
    pub(crate) fn address_of(&self, account: u16) -> Option<SocketAddr>
        ensures known { IfSome result (IsAddressOf self.now account) }
        ensures unknown { IfNone result (¬ (HasAddress self.now account)) }
        ensures paired { ArePaired self.now }
    {
        let place = place_of_account(self.accounts.as_slice(), account)?;
        self.addresses.get(place).copied()
    }
}
