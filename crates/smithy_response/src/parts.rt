// What is at hand of a response, and what is open of it.
use smithy_types::{Longs, Text, Words};

/// The elements of a header list.
#[derive(Drop)]
pub enum ListItems {
    Texts(Words),
    Dates(Longs),
}

/// An open header list, and how many of its elements came to hand.
#[derive(Drop)]
pub struct OpenList {
    pub(crate) items: ListItems,
    pub(crate) place: usize,
}

/// A header at hand by its name, and the list of it if that is open.
#[derive(Drop)]
pub struct HeaderAtHand {
    pub(crate) name: Text,
    pub(crate) list: Option<OpenList>,
}

/// The headers behind a prefix: the prefix in lower case, what stands behind it, how many of these came to hand, and
/// the last of them.
#[derive(Drop)]
pub struct OpenMap {
    pub(crate) lower: Text,
    pub(crate) keys: Words,
    pub(crate) place: usize,
    pub(crate) entry: HeaderAtHand,
}

/// Which bound member is at hand.
#[derive(Drop)]
pub enum BoundMember {
    Nothing,
    /// A member's name, and its header.
    Header(Text, HeaderAtHand),
    /// A member's name, the prefix as its trait spells it, and the headers behind it if they are open.
    Prefix(Text, Text, Option<OpenMap>),
    Status,
    Raw,
    /// The body's reader has the value.
    Body,
}
