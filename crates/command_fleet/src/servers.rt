//! Servers whose addresses are fixed.
ghost use Rattle.std.specs.Prelude.{ℕ, ◌≡◌, ◌≤◌, ◌==◌, ◌++◌, ◌∷◌, [], Some, IfErr, IfNone, IfOk, IfSome, OnOk, map};
ghost use Rattle.std.specs.Prelude.{option_map, slice_get};
ghost use Rattle.std.specs.List.{list_any};
ghost use Rattle.std.specs.Net.Socket.{IsPlainSocket, socket_ip};
ghost use Rattle.std.specs.declared.net.ip_addr.IpAddr.{IpAddr as Ip};
ghost use Rattle.fleet_link.specs.declared.directory.FixedServer.{FixedServer as Server};
ghost use Rattle.scenario_image.specs.Scenario.{Row};
ghost use Rattle.command_fleet.specs.Servers.{AreServers, IsNewServer, IsServer, IsServerPlace, IsServersFault};
ghost use Rattle.command_fleet.specs.Servers.{has_account, is_fixed, row_has};

use command_files::{Fault, Refusal, Why, read_number};
use fleet_link::FixedServer;
use scenario_image::Scenario;
use std::alloc::{AllocError, Global};
use std::net::{IpAddr, SocketAddr};

/// The port of a place that has an IP address, without a scope, and a port from 1 on.
fn port_of(place: SocketAddr) -> Option<u16>
    ensures port { IfSome result (λ port. IsPlainSocket place port) }
    ensures some { IfSome result (λ port. 1 ≤ port) }
    ensures none { IfNone result ((port : ℕ) → IsPlainSocket place port → 1 ≤ port → ⊥) }
{
    if place.port() == 0 {
        return None;
    }
    match place {
        SocketAddr::V4(_) => Some(place.port()),
        SocketAddr::V6(v6) if v6.scope_id() == 0 && v6.flowinfo() == 0 => Some(place.port()),
        SocketAddr::V6(_) => None,
    }
}

/// The IP address and the port of `ADDRESS:PORT`.
fn socket_in(text: &str) -> Option<(IpAddr, u16)>
    ensures some { IfSome result (λ p. IsServerPlace text.now p.0 (Some p.1)) }
    ensures none { IfNone result ((ip : Ip) (port : ℕ) → IsServerPlace text.now ip (Some port) → ⊥) }
{
    match text.parse::<SocketAddr>() {
        Ok(place) => Some((place.ip(), port_of(place)?)),
        Err(_) => None,
    }
}

/// The account, and the place of its server.
#[tactic(auto, using(crate::proofs::Fixed::no_place))]
fn server_at(account: u16, place: &str) -> Option<FixedServer>
    ensures account { IfSome result (λ server. server.account ≡ account) }
    ensures place { IfSome result (λ server. IsServerPlace place.now server.ip server.port) }
    ensures none { IfNone result ((server : Server) → IsServerPlace place.now server.ip server.port → ⊥) }
{
    match place.parse::<IpAddr>() {
        Ok(ip) => Some(FixedServer {
            account,
            ip,
            port: None,
        }),
        Err(_) => {
            let (ip, port) = socket_in(place)?;
            Some(FixedServer {
                account,
                ip,
                port: Some(port),
            })
        }
    }
}

/// The server of `S=ADDRESS` or `S=ADDRESS:PORT`.
fn server_of(word: &str) -> Option<FixedServer>
    ensures server { IfSome result (IsServer word.now) }
    ensures none { IfNone result ((server : Server) → IsServer word.now server → ⊥) }
{
    let (account, place) = word.split_once('=')?;
    server_at(read_number(account)?, place)
}

/// Whether the class of a device has this account.
fn device_has(scenario: &Scenario, device: u16, account: u16) -> bool
    ensures { (row : Row) → slice_get scenario.now.rows device ≡ Some row → result ≡ row_has scenario.now account row }
{
    let Some((class, _)) = scenario.row(device) else {
        return false;
    };
    match scenario.class(class) {
        None => false,
        Some(class) => class.accounts().contains(&account),
    }
}

/// Whether a device of the scenario has this account.
fn has_account(scenario: &Scenario, account: u16) -> bool
    ensures { result ≡ has_account scenario.now account }
{
    for device in 0..scenario.rows() {
        if device_has(scenario, device as u16, account) {
            return true;
        }
    }
    false
}

/// Whether one of these servers is it.
fn is_fixed(servers: &[FixedServer], account: u16) -> bool
    ensures { result ≡ is_fixed servers.now account }
{
    servers.iter().any(|server| server.account == account)
}

/// A word that is to blame, and why.
fn blamed<'a>(word: &'a str, why: &'static str) -> Refusal<'a>
    ensures fault { result.fault ≡ Fault.Bind }
    ensures about { option_map (λ w. w.now) result.about ≡ Some word.entry.now }
{
    Refusal {
        fault: Fault::Bind,
        about: Some(word),
        why: Why::Known(why),
    }
}

/// The server of a word, after these.
#[tactic(auto, using(crate::proofs::Fixed::unknown, crate::proofs::Fixed::repeated))]
fn next_server<'a>(
    scenario: &Scenario,
    before: &[FixedServer],
    word: &'a str,
) -> Result<FixedServer, Refusal<'a>>
    ensures server { IfOk result (IsNewServer scenario.now before.now word.entry.now) }
    ensures wrong { IfErr result (λ _. (server : Server) → IsNewServer scenario.now before.now word.entry.now server
        → ⊥) }
    ensures fault { IfErr result (λ r. r.fault ≡ Fault.Bind) }
    ensures about { IfErr result (λ r. option_map (λ w. w.now) r.about ≡ Some word.entry.now) }
{
    let Some(server) = server_of(word) else {
        return Err(blamed(word, "it is not S=ADDRESS or S=ADDRESS:PORT"));
    };
    if !has_account(scenario, server.account) {
        return Err(blamed(
            word,
            "no device of the scenario has an account of this server",
        ));
    }
    if is_fixed(before, server.account) {
        return Err(blamed(word, "this server is given twice"));
    }
    Ok(server)
}

fn add(servers: &mut Vec<FixedServer>, server: FixedServer) -> Result<(), AllocError>
    ensures { OnOk result (servers.new.items ≡ servers.old.items ++ server ∷ []) }
{
    servers.push(server)?;
    Ok(())
}

/// The servers that words fix, each of an account that a device of the scenario has, and none twice.
#[tactic(auto, using(crate::proofs::Fixed::none_yet, crate::proofs::Fixed::all_servers))]
pub(crate) fn servers_of<'a>(
    alloc: Global,
    scenario: &Scenario,
    words: &[&'a str],
) -> Result<Vec<FixedServer>, Refusal<'a>>
    ensures servers { IfOk result (λ v. AreServers scenario.now (map (λ w. w.now) words.now) v.items) }
    ensures refused { IfErr result (λ r. IsServersFault scenario.now (map (λ w. w.now) words.now)
        (option_map (λ w. w.now) r.about) r.fault) }
{
    let mut servers = Vec::new(alloc);
    for word in words {
        let server = next_server(scenario, servers.as_slice(), *word)?;
        add(&mut servers, server)?;
    }
    Ok(servers)
}
