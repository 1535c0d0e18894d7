//! The scenarios, as texts.

use scenario_asm::assemble;
use scenario_image::Scenario;
use std::alloc::{AllocError, Global};

/// Devices with a battery level.
const CLASS: &str = "scenario 1
class
account 1
instance 3 0
value /3/0/9 integer 100
";

/// A device that is asked for its battery level, and again a second later.
const DEVICE: &str = "device 0
read 1 con 1 - /3/0/9 any
tick 1
read 1 con 2 - /3/0/9 any
";

/// This many devices alike, each asked for its battery level, and again a second later.
pub fn alike(alloc: Global, devices: u16) -> Result<Option<Scenario>, AllocError> {
    let mut text = String::from_str(alloc, CLASS)?;
    for _device in 0..devices {
        text.push_str(DEVICE)?;
    }
    Ok(scenario_of(alloc, text.as_str()))
}

/// Device 0 posts to group 1 and then needs a post to group 0; device 1 needs the first and makes the second.
pub const EXCHANGE: &str = "scenario 1
class
device 0
post 1
need 0 1
device 0
need 1 1
post 0
";

/// Device 0 lets two seconds pass, device 1 one.
pub const SECONDS: &str = "scenario 1
class
device 0
tick 1
tick 1
device 0
tick 1
";

/// The scenario of a text, if there is memory for it.
pub fn scenario_of(alloc: Global, text: &str) -> Option<Scenario> {
    match assemble(alloc, text) {
        Ok(scenario) => Some(scenario),
        Err(_) => None,
    }
}
