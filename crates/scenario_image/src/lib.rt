//! Scenarios: classes of devices, and for each device a row of steps; what the devices do; and the image of a scenario,
//! its bytes.
#![tactic(auto)]

mod fault;
mod image;
mod kind;
mod laws;
mod playing;
mod reading;
mod row;
mod rows;
mod scenario;
mod single;
mod step;
mod writing;

pub use fault::ScenarioFault;
pub use image::{load, save};
pub use laws::{exact_layouts, one_image, states_follow, valid_have_bytes};
pub use playing::{play, take_step, take_steps};
pub use reading::{step_at, steps_at};
pub use scenario::Scenario;
pub use step::{Step, is_account};
