// Texts, documents, big numbers, points in time, and byte grammars.
#![tactic(auto)]

mod big_number;
mod blob;
mod calendar;
mod canonical;
mod copy;
mod date_reader;
mod date_text;
mod date_time;
mod discriminated;
mod document;
mod error;
mod grammar;
pub mod laws;
mod lists;
mod maps;
mod number;
mod number_text;
mod settings;
mod text;

pub use big_number::{BigDecimal, BigInteger};
pub use blob::Blob;
pub use date_time::{DateTime, Format};
pub use discriminated::DiscriminatedDocument;
pub use document::{Document, Documents, MemberPairs, Members};
pub use error::{DocumentError, OutOfMemory, TypesError};
pub use grammar::{
    MAX_TARGET_LEN, before_query, behind_scheme, is_header_value, is_token, legal_target,
};
pub use lists::{Blobs, Integers, Items, Longs, Words};
pub use maps::{TextMap, TextPairs};
pub use number::Number;
pub use settings::{DocumentSettings, NoSettings};
pub use text::Text;
