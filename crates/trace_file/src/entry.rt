ghost use Rattle.std.specs.Prelude.{◌≡◌, IfOk};

use device_machine::Outputs;
use std::alloc::AllocError;

/// A step of a run: which worker made it, of which device, which of its steps it was, and what the device output.
#[derive(Clone, Debug, Drop)]
pub struct Entry {
    /// The number of the worker; any.
    pub worker: u16,
    /// The device, by the place of its row, from 0.
    pub device: u16,
    /// Which of the device's steps it was, from 0.
    pub step: u32,
    /// What the device output, in order.
    pub outputs: Outputs,
}

impl Entry {
    /// An entry that equals this one.
    pub fn copy(&self) -> Result<Entry, AllocError>
        ensures { IfOk result (λ e. e ≡ self.now) }
    {
        self.clone()
    }
}
