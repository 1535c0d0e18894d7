//! An emulated LwM2M device: the events that it takes and what it outputs.
#![tactic(auto)]

mod device;
mod event;
mod fault;
mod laws;
mod machine;
mod output;
mod recorded;
mod records;
mod reply;

pub use device::Device;
pub use device_requests::{Act, Answer, Code, Operation};
pub use device_template::{Template, TemplateFault};
pub use event::Event;
pub use fault::StepFault;
pub use laws::{
    answers_once, closes_observations, counts_notifications, counts_registrations,
    ends_observations, notifies_after_pmin, notifies_before_pmax, refusals_change_nothing, repeats,
    ticks_add,
};
pub use output::{Output, Outputs, act_name};
pub use recorded::Recorded;
