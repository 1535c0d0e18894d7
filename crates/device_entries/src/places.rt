ghost use Rattle.std.specs.Prelude.{◌≡◌, ◌<◌, ◌≤◌, ◌↔◌, [], ◌∷◌, ◌++◌, length, map, replicate, take, IsTrue, IfOk, OnOk};
ghost use Rattle.fleet_core.specs.Run.{made_by, IsRun};
ghost use Rattle.device_entries.specs.Places.{HasPlaces, ArePlaced};

use scenario_image::Scenario;
use std::alloc::{AllocError, Global};
use trace_file::Entry;

/// The indexes of a device's entries in a run, in their order.
#[derive(Drop)]
pub struct Places {
    /// The indexes.
    pub indexes: Vec<usize>,
}

/// Empty lists for this many rows.
fn no_places(alloc: Global, rows: usize) -> Result<Vec<Places>, AllocError>
    ensures { IfOk result (λ v. map (λ x. x.indexes.items) v.items ≡ replicate rows []) }
{
    let mut places = Vec::with_capacity(alloc, rows)?;
    for _row in 0..rows {
        places.push(Places {
            indexes: Vec::new(alloc),
        })?;
    }
    Ok(places)
}

/// Adds an index to a device's.
fn add_place(own: &mut Places, index: usize) -> Result<(), AllocError>
    ensures { OnOk result (own.new.indexes.items ≡ own.old.indexes.items ++ index ∷ []) }
{
    own.indexes.push(index)?;
    Ok(())
}

/// The places of each row's device in the run, found in one pass over it.
pub fn all_places(
    alloc: Global,
    scenario: &Scenario,
    entries: &[Entry],
) -> Result<Vec<Places>, AllocError>
    requires { IsRun scenario.now entries.now }
    ensures count { IfOk result (λ v. length v.items ≡ length scenario.now.rows) }
    ensures placed { IfOk result (λ v. ArePlaced entries.now (length entries.now) v.items) }
{
    let rows = scenario.rows();
    let mut places = no_places(alloc, rows)?;
    for (index, entry) in entries.iter().enumerate() {
        let own = &mut places[usize::from(entry.device)];
        add_place(own, index)?;
    }
    Ok(places)
}

/// How many entries a device has before a place of the run. The indexes are those of its entries; the entries and the
/// device are for the contract alone.
pub fn count_before(_entries: &[Entry], _device: u16, indexes: &[usize], to: usize) -> usize
    requires places { HasPlaces _entries.now (length _entries.now) _device indexes.now }
    requires to { to ≤ length _entries.now }
    ensures { result ≡ made_by _device (take to _entries.now) }
{
    indexes.partition_point(|index| *index < to)
}

/// Whether one of the first entries of a device, which are this many, is at a place of the run or after it. The indexes
/// are those of its entries; the entries and the device are for the contract alone.
pub fn has_earlier(
    _entries: &[Entry],
    _device: u16,
    indexes: &[usize],
    step: u32,
    from: usize,
) -> bool
    requires places { HasPlaces _entries.now (length _entries.now) _device indexes.now }
    requires step { step ≤ length indexes.now }
    ensures { IsTrue result ↔ (made_by _device (take from _entries.now) < step) }
{
    0 < step && from <= indexes[step as usize - 1]
}
