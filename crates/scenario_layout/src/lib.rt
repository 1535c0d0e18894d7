//! Paths, kinds, values, definitions and classes of devices as bytes, in this profile's formats. The modules `Value`,
//! `Definition` and `Class` of its specs have the layouts, docs/use/files.md says them in words.
#![tactic(auto)]

mod class;
mod definition;
mod laws;
mod path;
mod value;
mod value_writing;

pub use class::{class_at, put_class};
pub use definition::{put_resources, resources_at};
pub use laws::{class_has_bytes, exact_layouts, what_has_bytes};
pub use path::{path_at, place_at, put_path, put_place};
pub use value::{kind_at, value_at};
pub use value_writing::{put_kind, put_value};
