//! What a worker does between a claim and its steps.

/// Is called after each claim that gets a device, with the worker's number and the device. The worker is outside the
/// lock then.
pub trait Gate {
    ghost use Rattle.std.specs.Prelude.{ℕ};

    // That a worker of this number has come to the gate with this device. Of a gate that is not known nothing but a
    // call of `pass` tells so: code that promises it for any gate makes the call.
    ghost came: { Self → ℕ → ℕ → Type 0 } = { λ _ _ _. Unit {0} };

    /// A worker of this number comes through the gate with this device.
    fn pass(&self, worker: u16, device: u16)
        ensures { came self.now worker device };
}

/// A gate that does nothing.
#[derive(Clone, Copy)]
pub struct OpenGate;

impl Gate for OpenGate {
    fn pass(&self, _worker: u16, _device: u16) {}
}
