// Schemas: a table of nodes, each with its traits, and references into it.
#![tactic(auto)]

mod cited_nodes;
mod copies;
mod defining;
mod error;
mod extension;
mod first_hole;
pub mod laws;
mod member_names;
mod outline;
mod owned_trait;
mod parts;
mod piece;
mod pieces;
pub mod prelude;
mod request_binding;
mod routing;
mod schema;
mod schema_ref;
mod schemas;
mod shape_id_buf;
mod stored;
mod stored_http;
mod stored_traits;
mod trait_getters;
mod trait_map;
mod traits;

pub use error::SchemaError;
pub use extension::{Provider, SchemaExtension};
pub use first_hole::{CutHole, cut_hole};
pub use owned_trait::{AnnotationTrait, DocumentTrait, StringTrait, Trait};
pub use parts::SchemaIndex;
pub use piece::Piece;
pub use pieces::Pieces;
pub use prelude::Prelude;
pub use request_binding::Binding;
pub use schema::Schema;
pub use schema_ref::SchemaRef;
pub use schemas::Schemas;
pub use shape_id_buf::ShapeIdBuf;
pub use trait_map::TraitMap;
pub use traits::Traits;
