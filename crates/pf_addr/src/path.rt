//! Names, paths of rulesets, and references to them.

mod keys;
pub mod laws;
mod limits;
mod name;
mod names;
mod nested;
mod path;
mod path_form;
mod path_text;
mod reference;

pub use keys::PathBytes;
pub use limits::{COMPONENT_LIMIT, DEPTH_LIMIT, PATH_LIMIT, REFERENCE_LIMIT, TABLE_NAME_LIMIT};
pub use name::{Name, TableName};
pub(crate) use names::has_name_bytes;
pub use path::Path;
pub use path_form::read_name;
pub use reference::{Reference, unquoted};
