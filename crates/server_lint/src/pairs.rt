//! What a datagram is to an earlier one.
ghost use Rattle.std.specs.Prelude.{◌≡◌, ◌==◌};
ghost use Rattle.std.specs.Cmp.Lexicographic.{pointwise};
ghost use Rattle.server_lint.specs.History.{message_of, seconds_since};
ghost use Rattle.server_lint.specs.Pairs.{answers, has_id_answered, has_live_id, has_same_bytes, id_lifetime};
ghost use Rattle.server_lint.specs.Pairs.{is_again_within, is_repeat, is_same_sender, lifetime_of, may_answer};
ghost use Rattle.server_lint.specs.Pairs.{replies, replies_by_id, resets, reuses_id};

use crate::sender::Sender;
use crate::single::{has_own_id, is_from_server, is_reset};
use crate::transmission::Transmission;
use coap_codec::Kind;

/// For how many seconds a message ID is not used again.
fn id_lifetime(kind: Kind) -> u32
    ensures { result ≡ id_lifetime kind }
{
    match kind {
        Kind::Con => 247,
        Kind::Non => 145,
        Kind::Ack | Kind::Rst => 0,
    }
}

fn is_same_sender(a: Sender, b: Sender) -> bool
    ensures { result ≡ is_same_sender a b }
{
    match (a, b) {
        (Sender::Server, Sender::Server) | (Sender::Device, Sender::Device) => true,
        _ => false,
    }
}

fn has_same_bytes(earlier: &Transmission, t: &Transmission) -> bool
    ensures { result ≡ has_same_bytes earlier.now t.now }
{
    earlier.bytes() == t.bytes()
}

/// How many seconds after an earlier one it went.
pub(crate) fn seconds_since(earlier: &Transmission, t: &Transmission) -> u32
    ensures { result ≡ seconds_since earlier.now t.now }
{
    t.second().saturating_sub(earlier.second())
}

/// Whether it is the earlier one again, fewer than so many seconds after it.
pub(crate) fn is_again_within(seconds: u32, earlier: &Transmission, t: &Transmission) -> bool
    ensures { result ≡ is_again_within seconds earlier.now t.now }
{
    seconds_since(earlier, t) < seconds
        && (is_same_sender(earlier.sender(), t.sender())
            && (earlier.server() == t.server() && has_same_bytes(earlier, t)))
}

/// Whether it has the message ID of the earlier one, whose lifetime has not elapsed.
fn has_live_id(earlier: &Transmission, t: &Transmission) -> bool
    ensures { result ≡ has_live_id (seconds_since earlier.now t.now) (message_of earlier.now) (message_of t.now) }
{
    let Some(before) = earlier.message() else {
        return false;
    };
    let Some(message) = t.message() else {
        return false;
    };
    has_own_id(message.kind())
        && (before.mid() == message.mid() && seconds_since(earlier, t) < id_lifetime(before.kind()))
}

/// Whether the server used its message ID in the earlier one, for other bytes.
pub(crate) fn reuses_id(earlier: &Transmission, t: &Transmission) -> bool
    ensures { result ≡ reuses_id earlier.now t.now }
{
    is_from_server(earlier)
        && (is_from_server(t)
            && (earlier.server() == t.server()
                && (has_live_id(earlier, t) && !has_same_bytes(earlier, t))))
}

/// Whether a message of the second type may answer one of the first.
fn may_answer(earlier: Kind, kind: Kind) -> bool
    ensures { result ≡ may_answer earlier kind }
{
    match (earlier, kind) {
        (Kind::Con, Kind::Ack) | (Kind::Con, Kind::Rst) | (Kind::Non, Kind::Rst) => true,
        _ => false,
    }
}

/// Whether it answers the earlier one by its message ID, whose lifetime has not elapsed.
fn has_id_answered(earlier: &Transmission, t: &Transmission) -> bool
    ensures { result ≡ has_id_answered (seconds_since earlier.now t.now) (message_of earlier.now) (message_of t.now) }
{
    let Some(before) = earlier.message() else {
        return false;
    };
    let Some(message) = t.message() else {
        return false;
    };
    may_answer(before.kind(), message.kind())
        && (before.mid() == message.mid() && seconds_since(earlier, t) < id_lifetime(before.kind()))
}

/// Whether a server acknowledges or resets in it what the device sent in the earlier one.
pub(crate) fn answers(earlier: &Transmission, t: &Transmission) -> bool
    ensures { result ≡ answers earlier.now t.now }
{
    !is_from_server(earlier)
        && (is_from_server(t) && (earlier.server() == t.server() && has_id_answered(earlier, t)))
}

/// For how many seconds its message ID is not used again.
fn lifetime_of(t: &Transmission) -> u32
    ensures { result ≡ lifetime_of (message_of t.now) }
{
    match t.message() {
        None => 0,
        Some(message) => id_lifetime(message.kind()),
    }
}

/// Whether it is the earlier one again, whose lifetime has not elapsed.
pub(crate) fn is_repeat(earlier: &Transmission, t: &Transmission) -> bool
    ensures { result ≡ is_repeat earlier.now t.now }
{
    is_again_within(lifetime_of(t), earlier, t)
}

/// Whether it is an acknowledgement or a reset with the message ID of the earlier one.
fn replies_by_id(earlier: &Transmission, t: &Transmission) -> bool
    ensures { result ≡ replies_by_id (message_of earlier.now) (message_of t.now) }
{
    let Some(before) = earlier.message() else {
        return false;
    };
    let Some(message) = t.message() else {
        return false;
    };
    !has_own_id(message.kind()) && before.mid() == message.mid()
}

/// Whether the device acknowledges or resets in it what the server sent in the earlier one.
pub(crate) fn replies(earlier: &Transmission, t: &Transmission) -> bool
    ensures { result ≡ replies earlier.now t.now }
{
    !is_from_server(t) && (earlier.server() == t.server() && replies_by_id(earlier, t))
}

/// Whether a server resets in it what the device sent in the earlier one.
pub(crate) fn resets(earlier: &Transmission, t: &Transmission) -> bool
    ensures { result ≡ resets earlier.now t.now }
{
    is_reset(t) && answers(earlier, t)
}
