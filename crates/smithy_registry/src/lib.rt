// Registries of shapes: what reads each shape, by its full name, and by the code of an error.
#![tactic(auto)]

mod builder;
mod composed;
mod document_reading;
mod entry;
mod error_code;
mod error_reading;
mod iter;
mod kept;
pub mod laws;
mod type_registry;

pub use builder::TypeRegistryBuilder;
pub use composed::ComposedRegistry;
pub use entry::RegistryEntry;
pub use error_code::{parse_query_compatible_header, sanitize_error_code};
pub use error_reading::reify_error;
pub use iter::Iter;
pub use type_registry::TypeRegistry;
