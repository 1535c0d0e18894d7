//! A session over UDP, on this machine's loopback address.
use crate::answer::put_session;
use case_sheet::Sheet;
use device_machine::Template;
use live_link::{LiveSession, ScriptedClock, UdpWire, serve_class};
use std::alloc::Global;
use std::net::{Ipv4Addr, Net, SocketAddr, UdpSocket};
use std::thread;
use std::thread::Threads;
use std::time::Duration;

/// So many sessions of two turns are tried until the device has heard something: for 10 s.
const MOST_SESSIONS: u32 = 50;

/// For how many seconds a client waits for a reply.
const PATIENCE: u64 = 10;

/// More bytes than a reply has.
const MOST_REPLY: usize = 2048;

/// Puts a device of the class at a free port, with account 1, and lets a client in a thread of its own send it a
/// datagram. Adds what the device did, what it sent, and what the client got.
pub fn put_asked<R: Net + Threads>(rt: &R, out: &mut Sheet, class: &Template, bytes: Vec<u8>) {
    let alloc = out.alloc();
    let Some((mut wire, port)) = bound(rt, alloc) else {
        return out.put("no port");
    };
    let Some(client) = client_of(rt, port) else {
        return out.put("no client");
    };
    match thread::spawn(rt, move || ask(alloc, &client, bytes.as_slice())) {
        Err(_) => out.put("no thread"),
        Ok(thread) => {
            put_first(out, &mut wire, class);
            put_got(out, thread.join(rt));
        }
    }
}

/// A wire at a free port, whose first peer is account 1; and the port.
fn bound<R: Net>(rt: &R, alloc: Global) -> Option<(UdpWire, u16)> {
    let mut accounts = Vec::new(alloc);
    accounts.push(1).ok()?;
    let wire = UdpWire::bind(rt, alloc, 0, accounts).ok()?;
    let port = wire.port().ok()?;
    Some((wire, port))
}

fn client_of<R: Net>(rt: &R, port: u16) -> Option<UdpSocket> {
    let client = UdpSocket::bind(rt, SocketAddr::from((Ipv4Addr::LOCALHOST, 0))).ok()?;
    client
        .connect(SocketAddr::from((Ipv4Addr::LOCALHOST, port)))
        .ok()?;
    client
        .set_read_timeout(Some(Duration::from_secs(PATIENCE)))
        .ok()?;
    Some(client)
}

/// Sends a datagram, and waits for a reply.
fn ask(alloc: Global, client: &UdpSocket, bytes: &[u8]) -> Option<Vec<u8>> {
    let mut reply = Vec::from_elem(alloc, 0u8, MOST_REPLY).ok()?;
    client.send(bytes).ok()?;
    let count = client.recv(reply.as_mut_slice()).ok()?;
    reply.truncate(count);
    Some(reply)
}

/// Adds the first session in which the device heard something.
fn put_first(out: &mut Sheet, wire: &mut UdpWire, class: &Template) {
    for _ in 0..MOST_SESSIONS {
        match session_on(out.alloc(), wire, class) {
            None => return out.cut(),
            Some(session) => {
                if !session.steps.is_empty() {
                    return put_session(out, &session);
                }
            }
        }
    }
    out.put("nothing was heard");
}

/// A session of two turns, of a clock that shows 0.
fn session_on(alloc: Global, wire: &mut UdpWire, class: &Template) -> Option<LiveSession> {
    let mut clock = ScriptedClock::new(Vec::new(alloc));
    serve_class(alloc, wire, &mut clock, class, 2).ok()
}

/// Adds what the client got.
fn put_got(out: &mut Sheet, reply: Option<Vec<u8>>) {
    out.next(", ");
    out.put("got ");
    match reply {
        None => out.put("nothing"),
        Some(bytes) => out.put_hex(bytes.as_slice()),
    }
}
