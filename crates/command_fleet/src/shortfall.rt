//! What did not last as long as a session.
ghost use Rattle.std.specs.Prelude.{◌≡◌, ◌≤◌, option_map, if◌then◌else◌};
ghost use Rattle.command_fleet.specs.Fleet.{cut_of, ended_of, has_ended, shortfall_of};

use fleet_link::{Fleet, Slot};

/// What did not last as long as a session.
#[derive(Clone, Copy)]
pub struct Shortfall {
    /// How many devices ended before: the port of one failed, or its clock was at its end.
    pub ended: usize,
    /// How many rows of what is saved are cut; none where nothing is.
    pub cut: usize,
}

/// 1 where the device ended.
fn end_of(slot: &Slot) -> usize
    ensures one { result ≡ (if has_ended slot.now then 1 else 0) }
    ensures few { result ≤ 1 }
{
    if slot.end().is_some() { 1 } else { 0 }
}

/// How many of these devices ended.
fn ended_of(devices: &[Slot]) -> usize
    ensures { result ≡ ended_of devices.now }
{
    let mut ended = 0usize;
    for place in 0..devices.len() {
        ended += end_of(&devices[place]);
    }
    ended
}

/// How many rows of what is saved end before the session did.
fn cut_of(save: Option<&str>, fleet: &Fleet) -> usize
    ensures { result ≡ cut_of (option_map (λ p. p.now) save.entry) fleet.now.slots.items }
{
    match save {
        None => 0,
        Some(_) => fleet.cut_rows(),
    }
}

/// What did not last as long as the session of these devices.
pub(crate) fn shortfall_of(save: Option<&str>, fleet: &Fleet) -> Shortfall
    ensures { result ≡ shortfall_of (option_map (λ p. p.now) save.entry) fleet.now.slots.items }
{
    Shortfall {
        ended: ended_of(fleet.devices()),
        cut: cut_of(save, fleet),
    }
}
