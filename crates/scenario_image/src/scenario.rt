ghost use Rattle.std.specs.Prelude.{◌≡◌, ◌≢◌, [], length, slice_get, None, Some, Err, IfErr, OnOk, OnErr};
ghost use Rattle.std.specs.List.{sum_by};
ghost use Rattle.std.specs.Option.{option_copied, option_map};
ghost use Rattle.scenario_image.specs.Scenario.{Row, HasFields, with_class, class_fault, with_row, row_fault};
ghost use Rattle.scenario_image.specs.Scenario.{with_step, step_fault, with_last, last_row, IsValid};

use crate::fault::ScenarioFault;
use crate::row::Row;
use crate::step::{Step, is_in_range, is_known, is_within_limits};
use device_machine::Template;
use std::alloc::{AllocError, Global};
use std::marker::Model;

/// How many classes a scenario may have.
const MOST_CLASSES: usize = 256;

/// How many rows a scenario may have.
pub(crate) const MOST_ROWS: u16 = 16384;

/// How many steps a row may have.
pub(crate) const MOST_STEPS: u16 = 4096;

/// A scenario: classes of devices, and a row of steps for each device. Contracts see the two lists.
///
/// Every scenario is valid. A refused call changes nothing.
pub struct Scenario {
    classes: Vec<Template>,
    rows: Vec<Row>,
    alloc: Global,
}

/// By hand, so that a caller's proof has one step where it is dropped, and no case for each of its parts.
impl Drop for Scenario {
    fn drop(self) {
        let Scenario {
            classes: _classes,
            rows: _rows,
            alloc: _,
        } = self;
    }
}

impl Model for Scenario {
    ghost use Rattle.std.specs.Coded.{codes};
    ghost use Rattle.instance_store.specs.Stored.{stored_code};
    ghost use Rattle.scenario_image.specs.Scenario.{Scenario, IsValid};

    ghost Value = { Scenario };

    ghost coded = { Prim.hlevel (codes, stored_code) };

    ghost view = { λ s. record { classes = s.classes.items; rows = s.rows.items } };

    ghost invariant = { λ s. IsValid (record { classes = s.classes.items; rows = s.rows.items }) };
}

/// Adds a step to the last row, if there is one.
fn push_last(rows: &mut Vec<Row>, step: Step) -> Result<(), AllocError>
    ensures ok { OnOk result (rows.new.items ≡ with_last rows.old.items (last_row rows.old.items) step) }
    ensures unchanged { OnErr result (rows.new.items ≡ rows.old.items) }
{
    match rows.last_mut() {
        None => Ok(()),
        Some(row) => row.push(step),
    }
}

impl Scenario {
    /// No class and no row.
    pub fn empty(alloc: Global) -> Scenario
        ensures { result ≡ record { classes = []; rows = [] } }
    {
        Scenario {
            classes: Vec::new(alloc),
            rows: Vec::new(alloc),
            alloc,
        }
    }

    /// These classes, and rows that are valid with them.
    pub(crate) fn of_parts(alloc: Global, classes: Vec<Template>, rows: Vec<Row>) -> Scenario
        requires { IsValid (record { classes = classes.items; rows = rows.items }) }
        ensures { result ≡ record { classes = classes.items; rows = rows.items } }
    {
        Scenario {
            classes,
            rows,
            alloc,
        }
    }

    fn class_fault(&self) -> Option<ScenarioFault>
        ensures { result ≡ class_fault self.now }
    {
        if self.classes.len() >= MOST_CLASSES {
            return Some(ScenarioFault::Limit);
        }
        None
    }

    /// Adds a class after those that there are.
    ///
    /// `Limit`: a scenario has at most 256 classes. A class that was refused is dropped.
    pub fn add_class(&mut self, class: Template) -> Result<(), ScenarioFault>
        ensures added { OnOk result (self.new ≡ with_class self.old class) }
        ensures refused { IfErr result (λ f. f ≢ ScenarioFault.Memory → class_fault self.old ≡ Some f) }
        ensures refuses { (f : ScenarioFault) → class_fault self.old ≡ Some f → result ≡ Err f }
        ensures unchanged { OnErr result (self.new ≡ self.old) }
    {
        if let Some(fault) = self.class_fault() {
            return Err(fault);
        }
        self.classes.push(class)?;
        Ok(())
    }

    fn row_fault(&self, class: u16) -> Option<ScenarioFault>
        ensures { result ≡ row_fault self.now class }
    {
        if usize::from(class) >= self.classes.len() {
            return Some(ScenarioFault::Missing);
        }
        if self.rows.len() >= usize::from(MOST_ROWS) {
            return Some(ScenarioFault::Limit);
        }
        None
    }

    /// Adds the row of a device of the class at this place, without a step, after those that there are.
    ///
    /// `Missing` (there is no such class), then `Limit`: a scenario has at most 16,384 rows.
    pub fn add_row(&mut self, class: u16) -> Result<(), ScenarioFault>
        ensures added { OnOk result (self.new ≡ with_row self.old class) }
        ensures refused { IfErr result (λ f. f ≢ ScenarioFault.Memory → row_fault self.old class ≡ Some f) }
        ensures refuses { (f : ScenarioFault) → row_fault self.old class ≡ Some f → result ≡ Err f }
        ensures unchanged { OnErr result (self.new ≡ self.old) }
    {
        if let Some(fault) = self.row_fault(class) {
            return Err(fault);
        }
        self.rows.push(Row::new(self.alloc, class))?;
        Ok(())
    }

    fn step_fault(&self, step: &Step) -> Option<ScenarioFault>
        ensures fault { result ≡ step_fault self.now step.now }
        ensures fields { result ≡ None → HasFields step.now }
    {
        if !is_in_range(step) {
            return Some(ScenarioFault::Range);
        }
        let Some(row) = self.rows.last() else {
            return Some(ScenarioFault::Missing);
        };
        if !is_known(&self.classes, row.class(), step) {
            return Some(ScenarioFault::Missing);
        }
        if row.steps().len() >= usize::from(MOST_STEPS) {
            return Some(ScenarioFault::Limit);
        }
        if !is_within_limits(step) {
            return Some(ScenarioFault::Limit);
        }
        None
    }

    /// Adds a step at the end of the last row.
    ///
    /// `Range` (a tick outside 1 to 86,400 seconds, a need outside 1 to 1,000,000, a code of the firmware over 9, a put
    /// at a path of one or two numbers), then `Missing` (no row, or a datagram from a server that is no account of the
    /// row's class), then `Limit` (4,096 steps of the row, a datagram of over 1,500 bytes, a Text of over 255, an
    /// Opaque of over 1,024). A step that was refused is dropped.
    pub fn add_step(&mut self, step: Step) -> Result<(), ScenarioFault>
        ensures added { OnOk result (self.new ≡ with_step self.old step) }
        ensures refused { IfErr result (λ f. f ≢ ScenarioFault.Memory → step_fault self.old step ≡ Some f) }
        ensures refuses { (f : ScenarioFault) → step_fault self.old step ≡ Some f → result ≡ Err f }
        ensures unchanged { OnErr result (self.new ≡ self.old) }
    {
        if let Some(fault) = self.step_fault(&step) {
            return Err(fault);
        }
        push_last(&mut self.rows, step)?;
        Ok(())
    }

    /// The class at this place.
    pub fn class(&self, class: u16) -> Option<&Template>
        ensures { option_copied result ≡ slice_get self.now.classes class }
    {
        self.classes.get(usize::from(class))
    }

    /// The classes, in order.
    pub(crate) fn all_classes(&self) -> &[Template]
        ensures { result.now ≡ self.now.classes }
    {
        self.classes.as_slice()
    }

    /// The rows, in order.
    pub(crate) fn all_rows(&self) -> &[Row]
        ensures lent { result.now ≡ self.now.rows }
        ensures valid { IsValid self.now }
    {
        self.rows.as_slice()
    }

    /// How many rows there are: the numbers of the devices are those below.
    ///
    /// What the rows say is valid, as of every scenario.
    pub fn rows(&self) -> usize
        ensures count { result ≡ length self.now.rows }
        ensures valid { IsValid self.now }
    {
        self.rows.len()
    }

    /// How many classes there are, at most 256.
    pub fn classes(&self) -> usize
        ensures { result ≡ length self.now.classes }
    {
        self.classes.len()
    }

    /// How many steps the rows have together, at most 16,777,216.
    pub fn steps(&self) -> usize
        ensures { result ≡ sum_by (λ r. length r.steps) self.now.rows }
    {
        let rows = self.all_rows();
        let mut total = 0;
        for row in rows {
            total += row.steps().len();
        }
        total
    }

    /// The row of a device: the place of its class, and its steps in order.
    pub fn row(&self, device: u16) -> Option<(u16, &[Step])>
        ensures { option_map (λ r. record { class = r.0; steps = r.1.now }) result ≡ slice_get self.now.rows device }
    {
        let row = self.rows.get(usize::from(device))?;
        Some((row.class(), row.steps()))
    }
}
