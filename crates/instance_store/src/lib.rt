//! The values of a device: a map from full paths to values, and the instances that there are.
#![tactic(auto)]

mod fault;
mod instance;
mod listing;
mod objects;
mod resource;
mod store;
mod table;

pub use fault::StoreFault;
pub use store::Store;
