//! The observations of a device as a map: the key of each is its name.

ghost use Rattle.std.specs.Prelude.{◌≡◌, ◌≢◌, ◌+◌, ◌<◌, ◌≤◌, ◌++◌, ◌∷◌, [], false, true, length, not, filter, map};
ghost use Rattle.std.specs.Prelude.{position, remove, slice_get, count_by, Err, None, Some, IfOk, OnOk, OnErr};
ghost use Rattle.std.specs.Prelude.{if◌then◌else◌};
ghost use Rattle.std.specs.Option.{option_copied, option_map};
ghost use Rattle.std.specs.Int.Digits.{AllBelowBase};
ghost use Rattle.std.specs.List.{AllByRecursion, list_any};
ghost use Rattle.indexmap.specs.IndexMap.{values, index_map_len, set_value_at};
ghost use Rattle.notifier.specs.Observed.{is_named, has_name, next_number, number_for, with_registered, was_sent};
ghost use Rattle.notifier.specs.Observed.{with_sent, as_closed, is_awaited, open_bytes, HasToken, HasNumber, IsKeyed};
ghost use Rattle.notifier.specs.Inside.{name_key, token_number};
ghost use Rattle.notifier.specs.declared.observation.Observation.{Observation};

use crate::fault::ObserveFault;
use crate::observation::{Observation, Report, Timer, next_number};
use indexmap::IndexMap;
use std::alloc::AllocError;

/// The most bytes of a token (RFC 7252 section 3).
const LONGEST_TOKEN: usize = 8;

/// The name of an observation, its server and its token, without memory of its own.
#[derive(Clone, PartialEq, Eq, Hash, Drop)]
pub(crate) struct Key {
    server: u16,
    /// How many bytes the token has.
    len: u8,
    /// The bytes of the token as one number, the highest first.
    token: u64,
}

/// The bytes of a token, 8 at most, as one number, the highest first.
fn token_number(token: &[u8]) -> u64
    requires { length token.now ≤ 8 }
    ensures { result ≡ token_number token.now }
{
    let mut number: u64 = 0;
    for byte in token {
        number = number * 256 + u64::from(*byte);
    }
    number
}

/// The key of this server and this token, of 8 bytes at most.
fn name_key(server: u16, token: &[u8]) -> Key
    requires { length token.now ≤ 8 }
    ensures key { result ≡ name_key server token.now }
    ensures bytes { AllBelowBase 256 token.now }
{
    let number = token_number(token);
    Key {
        server,
        len: token.len() as u8,
        token: number,
    }
}

/// Whether the last message of an observation was a NON to this server with this message ID, or is such
/// a CON that is still open.
fn was_sent(observation: &Observation, server: u16, mid: u16) -> bool
    ensures { result ≡ was_sent server mid observation.now }
{
    let rejects = observation.non || observation.timer.is_some();
    server == observation.server && rejects && observation.mid == mid
}

/// Whether the last message of an observation is a CON to this server with this message ID that is
/// still open.
fn is_awaited(observation: &Observation, server: u16, mid: u16) -> bool
    ensures { result ≡ is_awaited server mid observation.now }
{
    server == observation.server && observation.timer.is_some() && observation.mid == mid
}

/// The place of the observation of this name. A token that is longer than any is not looked up.
pub(crate) fn place_of(
    entries: &IndexMap<Key, Observation>,
    server: u16,
    token: &[u8],
) -> Option<usize>
    requires { AllByRecursion IsKeyed entries.now.entries }
    ensures { result ≡ position (is_named server token.now) (values entries.now) }
{
    if token.len() > LONGEST_TOKEN {
        return None;
    }
    let key = name_key(server, token);
    entries.get_index_of(&key)
}

/// The place of the first observation whose last message a Reset of this server with this message ID rejects.
pub(crate) fn place_sent(
    entries: &IndexMap<Key, Observation>,
    server: u16,
    mid: u16,
) -> Option<usize>
    ensures { result ≡ position (was_sent server mid) (values entries.now) }
{
    entries.values().position(|o| was_sent(o, server, mid))
}

/// Adds an observation of a new name at the end.
pub(crate) fn add(
    entries: &mut IndexMap<Key, Observation>,
    observation: Observation,
) -> Result<(), ObserveFault>
    requires keyed { AllByRecursion IsKeyed entries.old.entries }
    requires absent { has_name (values entries.old) observation.server observation.token ≡ false }
    requires short { HasToken observation }
    requires number { HasNumber observation }
    ensures ok { OnOk result (values entries.new ≡ values entries.old ++ observation ∷ []) }
    ensures keyed { AllByRecursion IsKeyed entries.new.entries }
    ensures len { length entries.new.entries ≤ length entries.old.entries + 1 }
    ensures never_full { result ≢ Err ObserveFault.Full }
    ensures err { OnErr result (values entries.new ≡ values entries.old) }
{
    let key = name_key(observation.server, observation.token.as_slice());
    entries.insert(key, observation)?;
    Ok(())
}

/// Puts an observation in the place of another of its name, with the next number.
pub(crate) fn renew(
    entries: &mut IndexMap<Key, Observation>,
    place: usize,
    observation: Observation,
) -> u32
    requires keyed { AllByRecursion IsKeyed entries.old.entries }
    requires held { position (is_named observation.server observation.token) (values entries.old) ≡ Some place }
    ensures number { result ≡ number_for (values entries.old) observation.server observation.token }
    ensures values { values entries.new ≡ with_registered (values entries.old) observation }
    ensures keyed { AllByRecursion IsKeyed entries.new.entries }
    ensures len { length entries.new.entries ≡ length entries.old.entries }
{
    let number = next_number(entries[place].number);
    entries[place] = Observation {
        number,
        ..observation
    };
    number
}

/// Notes a notification of the observation at a place.
pub(crate) fn notify(
    entries: &mut IndexMap<Key, Observation>,
    place: usize,
    now: u64,
    mid: u16,
    report: Report,
    timer: Option<Timer>,
) -> u32
    requires keyed { AllByRecursion IsKeyed entries.old.entries }
    requires within { place < index_map_len entries.old }
    ensures number { option_map (λ o. next_number o.number) (slice_get (values entries.old) place) ≡ Some result }
    ensures values { values entries.new ≡ with_sent (values entries.old) place now mid report timer }
    ensures keyed { AllByRecursion IsKeyed entries.new.entries }
    ensures len { length entries.new.entries ≡ length entries.old.entries }
{
    let observation = &mut entries[place];
    let number = next_number(observation.number);
    observation.report = report;
    observation.second = now;
    observation.number = number;
    observation.non = timer.is_none();
    observation.mid = mid;
    observation.timer = timer;
    number
}

/// Closes the observations whose open notification an acknowledgement of this server with this message ID
/// answers.
pub(crate) fn close_awaited(entries: &mut IndexMap<Key, Observation>, server: u16, mid: u16)
    ensures { entries.new.entries
        ≡ map (λ e. (e.0, if is_awaited server mid e.1 then as_closed e.1 else e.1)) entries.old.entries }
{
    entries.retain(
        |_key: &Key, o: &mut Observation| -> bool
            ensures { (result ≡ true)
                × (o.new ≡ (if is_awaited server mid o.old then as_closed o.old else o.old)) }
        {
            if is_awaited(o, server, mid) {
                o.timer = None;
            }
            true
        },
    );
}

/// Whether an acknowledgement of this server with this message ID answers an open notification.
pub(crate) fn awaits(entries: &IndexMap<Key, Observation>, server: u16, mid: u16) -> bool
    ensures { result ≡ list_any (is_awaited server mid) (values entries.now) }
{
    entries.values().any(|o| is_awaited(o, server, mid))
}

/// Of how many observations the last message is one that a Reset of this server with this message ID
/// rejects.
pub(crate) fn count_sent(entries: &IndexMap<Key, Observation>, server: u16, mid: u16) -> usize
    ensures { result ≡ count_by (was_sent server mid) (values entries.now) }
{
    entries
        .values()
        .filter(|o| was_sent(o, server, mid))
        .count()
}

/// Removes the observation at a place.
pub(crate) fn remove_at(entries: &mut IndexMap<Key, Observation>, place: usize)
    requires keyed { AllByRecursion IsKeyed entries.old.entries }
    requires within { place < index_map_len entries.old }
    ensures values { values entries.new ≡ remove (values entries.old) place }
    ensures keyed { AllByRecursion IsKeyed entries.new.entries }
    ensures len { length entries.new.entries + 1 ≡ length entries.old.entries }
{
    entries.shift_remove_index(place);
}

/// The observation at a place.
pub(crate) fn observation_at(
    entries: &IndexMap<Key, Observation>,
    place: usize,
) -> Option<&Observation>
    ensures { option_copied result ≡ slice_get (values entries.now) place }
{
    let (_, observation) = entries.get_index(place)?;
    Some(observation)
}

/// The bytes of the notification of the observation at a place, if that is open.
pub(crate) fn open_bytes(entries: &IndexMap<Key, Observation>, place: usize) -> Option<&[u8]>
    ensures { option_copied result ≡ open_bytes (values entries.now) place }
{
    let observation = observation_at(entries, place)?;
    let timer = observation.timer.as_ref()?;
    Some(timer.bytes.as_slice())
}

/// A clone of a map whose keys are the names.
pub(crate) fn clone_of(
    entries: &IndexMap<Key, Observation>,
) -> Result<IndexMap<Key, Observation>, AllocError>
    requires { AllByRecursion IsKeyed entries.now.entries }
    ensures values { IfOk result (λ m. values m ≡ values entries.now) }
    ensures keyed { IfOk result (λ m. AllByRecursion IsKeyed m.entries) }
    ensures len { IfOk result (λ m. length m.entries ≡ length entries.now.entries) }
{
    entries.clone()
}
