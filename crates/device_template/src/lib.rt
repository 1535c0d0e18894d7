//! What a class of devices starts from: its accounts, its objects, its instances and values, and how it notifies; and
//! which values may be held at a path.
#![tactic(auto)]

mod accounts;
mod fault;
mod firmware;
mod template;
mod values;

pub use fault::TemplateFault;
pub use template::Template;
pub use values::{fits, misses, put};
