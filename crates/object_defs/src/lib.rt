//! Objects, their resources and the paths to them (OMA LwM2M 1.1 Core).
#![tactic(auto)]

mod base;
mod catalog;
mod decimal;
mod definition;
mod fault;
pub mod object_number;
mod path;
pub mod resource_number;

pub use catalog::Catalog;
pub use decimal::decimal_number;
pub use definition::{ObjectDef, Ops, ResourceDef, Resources};
pub use fault::CatalogFault;
pub use path::{FullPath, InstancePath, Path, ResourcePath, path_text};
