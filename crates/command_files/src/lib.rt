//! What commands of the program share: files and streams, words that name devices, answers and refusals with their
//! faults, and how the program ends.
#![tactic(auto)]

mod answer;
mod devices;
mod fault;
pub mod files;
mod hex_text;
mod host;
mod image;
mod input;
mod loading;
mod output;
mod refusal;
mod status;
mod telling;
mod verdicts;
mod world;

pub use answer::{Answer, NewFile, deliver, make, unwritten};
pub use devices::{Devices, read_devices, read_number};
pub use fault::{Fault, FaultLine, case_cause, case_word};
pub use hex_text::read_hex;
pub use host::Host;
pub use image::image_file;
pub use input::Input;
pub use loading::{image_of, load_scenario, load_trace, load_verdict, read_file, read_text};
pub use output::Output;
pub use refusal::{Refusal, Why, complaint};
pub use status::Status;
pub use telling::{complain, tell};
pub use verdicts::{no_run, verdict_answer, verdict_status};
pub use world::World;
