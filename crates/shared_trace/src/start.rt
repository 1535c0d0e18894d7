//! The stations of a scenario at its start.

ghost use Rattle.std.specs.Prelude.{◌≡◌, ◌<◌, [], true, length, IfOk};
ghost use Rattle.shared_trace.specs.Kept.{IsStation, AreParked, table_length};
ghost use Rattle.device_stations.specs.Stations.{is_parked};

use device_stations::{Place, Station};
use fleet_core::{Held, next_of, step_of};
use scenario_image::Scenario;
use std::alloc::{AllocError, Global};

/// The station of a device that is at the start of its row.
fn start_station(
    alloc: Global,
    scenario: &Scenario,
    device: u16,
    places: usize,
) -> Result<Station, AllocError>
    requires row { device < length scenario.now.rows }
    requires places { places ≡ table_length scenario.now }
    ensures station { IfOk result (λ x. IsStation scenario.now [] device x) }
    ensures parked { IfOk result (λ x. is_parked x.place ≡ true) }
{
    let known = vec![in alloc; 0u32; places]?;
    let next = next_of(step_of(scenario, device, 0));
    Ok(Station {
        place: Place::Parked(Held::new(scenario, device)),
        made: 0,
        next,
        known,
    })
}

/// A station for each row, whose device is parked at the start. No device is started yet. A table has `places` places.
pub(crate) fn start_stations(
    alloc: Global,
    scenario: &Scenario,
    places: usize,
) -> Result<Vec<Station>, AllocError>
    requires { places ≡ table_length scenario.now }
    ensures count { IfOk result (λ v. length v.items ≡ length scenario.now.rows) }
    ensures parked { IfOk result (λ v. AreParked scenario.now v.items) }
{
    let rows = scenario.rows();
    let mut stations = Vec::with_capacity(alloc, rows)?;
    for device in 0..rows {
        stations.push(start_station(alloc, scenario, device as u16, places)?)?;
    }
    Ok(stations)
}
