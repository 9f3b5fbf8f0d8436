//! The way back: the input of a request, read from it.
#![tactic(auto)]

mod body_writes;
mod distinct;
mod document_ranges;
mod entry_values;
mod error;
mod header_values;
mod known_shapes;
mod label_values;
pub mod laws;
mod map_writes;
mod member_values;
mod named_texts;
mod path_texts;
mod pieces;
mod prefix_entries;
mod query_entries;
mod query_texts;
mod query_values;
mod ranges;
mod recovering;
mod same_facts;
mod shallow;
mod shallow_documents;
mod shaped;
mod typed;
mod values;

pub use error::RecoverError;
pub use recovering::recover_request;
pub use shallow::are_shallow;
