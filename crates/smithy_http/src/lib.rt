// Headers, requests and responses, and what header lists spell.
#![tactic(auto)]

mod date_list;
mod endpoint;
mod error;
mod header_parse;
mod headers;
pub mod laws;
mod list_items;
mod method;
mod non_utf8;
mod pairs;
mod quote;
mod request;
mod response;
mod values;

pub use endpoint::{Endpoint, EndpointPrefix, set_endpoint};
pub use error::{HttpError, ListFault};
pub use header_parse::{dates, list_texts, one_text, tokens};
pub use headers::{HeaderPairs, Headers};
pub use non_utf8::NonUtf8HeaderHandling;
pub use quote::{push_header_item, push_quoted_text, quote_header_value};
pub use request::Request;
pub use response::Response;
pub use values::{GetAll, GetAllBytes};
