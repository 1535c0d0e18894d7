ghost use Rattle.std.specs.Prelude.{◌≡◌, [], length, OnOk, OnErr};
ghost use Rattle.scenario_image.specs.Scenario.{with_last_step};

use crate::step::Step;
use std::alloc::{AllocError, Global};
use std::marker::Model;

/// The row of a device: its class, by its place, and its steps. Contracts see the record of these.
#[derive(Drop)]
pub(crate) struct Row {
    class: u16,
    steps: Vec<Step>,
}

impl Model for Row {
    ghost use Rattle.scenario_image.specs.Scenario.{Row};

    ghost Value = { Row };

    ghost view = { λ r. record { class = r.class; steps = r.steps.items } };
}

impl Row {
    /// A row of a device of this class, without a step.
    pub(crate) fn new(alloc: Global, class: u16) -> Row
        ensures { result ≡ record { class = class; steps = [] } }
    {
        Row {
            class,
            steps: Vec::new(alloc),
        }
    }

    /// A row of a device of this class, with these steps.
    pub(crate) fn with_steps(class: u16, steps: Vec<Step>) -> Row
        ensures { result ≡ record { class = class; steps = steps.items } }
    {
        Row { class, steps }
    }

    /// The place of the class.
    pub(crate) fn class(&self) -> u16
        ensures { result ≡ self.now.class }
    {
        self.class
    }

    /// The steps, in order.
    pub(crate) fn steps(&self) -> &[Step]
        ensures { result.now ≡ self.now.steps }
    {
        self.steps.as_slice()
    }

    /// Adds a step at the end.
    pub(crate) fn push(&mut self, step: Step) -> Result<(), AllocError>
        ensures ok { OnOk result (self.new ≡ with_last_step self.old step) }
        ensures unchanged { OnErr result (self.new ≡ self.old) }
    {
        self.steps.push(step)?;
        Ok(())
    }
}
