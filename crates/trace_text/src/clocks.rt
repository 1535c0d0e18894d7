//! The seconds of a scenario's devices.

ghost use Rattle.std.specs.Prelude.{◌≡◌, IfOk};
ghost use Rattle.trace_text.specs.Seconds.{second_at};

use crate::clock::{Clock, START, clock_before, row_steps};
use scenario_image::Scenario;
use std::alloc::{AllocError, Global};
use std::marker::Model;

/// The seconds of a scenario's devices. The latest one of each device is kept, so that each step of a row is looked at
/// once where they are asked for in the order of a run. Contracts see the scenario.
#[derive(Drop)]
pub struct Clocks<'a> {
    scenario: &'a Scenario,
    latest: Vec<Clock>,
}

impl<'a> Model for Clocks<'a> {
    ghost use Rattle.std.specs.Coded.{codes};
    ghost use Rattle.instance_store.specs.Stored.{stored_code};
    ghost use Rattle.scenario_image.specs.Scenario.{Scenario};
    ghost use Rattle.trace_text.specs.Clocks.{AreClocks};

    ghost Value = { Scenario };

    ghost coded = { Prim.hlevel (codes, stored_code) };

    ghost view = { λ c. c.scenario.now };

    ghost invariant = { λ c. AreClocks c.scenario.now c.latest.items };
}

impl<'a> Clocks<'a> {
    /// The clocks of the scenario's devices.
    pub fn new(alloc: Global, scenario: &'a Scenario) -> Result<Clocks<'a>, AllocError>
        ensures { IfOk result (λ c. c ≡ scenario.now) }
    {
        let rows = scenario.rows();
        Ok(Clocks {
            scenario,
            latest: vec![in alloc; START; rows]?,
        })
    }

    /// The second of a device before the step of this number in its row, counted from 0; after its last step where the
    /// row has fewer, and 0 where there is no such row. Steps may be asked for in any order.
    pub fn second_at(&mut self, device: u16, step: usize) -> u32
        ensures second { result ≡ second_at self.old device step }
        ensures same { self.new ≡ self.old }
    {
        let at = usize::from(device);
        let steps = row_steps(self.scenario, device);
        if at >= self.latest.len() {
            return 0;
        }
        let clock = clock_before(self.latest[at], steps, step);
        self.latest[at] = clock;
        clock.second
    }
}
