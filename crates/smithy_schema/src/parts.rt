// Parts of a node that are plain data: places in a table, and traits that hold nothing.

/// A place in a table of nodes, counted from 0.
#[derive(Clone, Copy, Debug, PartialEq, Eq, PartialOrd, Ord, Hash)]
pub struct SchemaIndex(pub usize);

// The places that a node cites, without its members.
#[derive(Clone, Copy, Debug)]
pub(crate) struct Places {
    pub(crate) target: Option<SchemaIndex>,
    pub(crate) element: Option<SchemaIndex>,
    pub(crate) key: Option<SchemaIndex>,
    pub(crate) value: Option<SchemaIndex>,
}

pub(crate) const NO_PLACES: Places = Places {
    target: None,
    element: None,
    key: None,
    value: None,
};

// The traits that hold nothing: there or not.
#[derive(Clone, Copy, Debug)]
pub(crate) struct Marks {
    pub(crate) sensitive: bool,
    pub(crate) xml_attribute: bool,
    pub(crate) xml_flattened: bool,
    pub(crate) xml_unwrapped_output: bool,
    pub(crate) http_label: bool,
    pub(crate) http_payload: bool,
    pub(crate) http_query_params: bool,
    pub(crate) http_response_code: bool,
    pub(crate) streaming: bool,
    pub(crate) event_header: bool,
    pub(crate) event_payload: bool,
    pub(crate) host_label: bool,
}

pub(crate) const NO_MARKS: Marks = Marks {
    sensitive: false,
    xml_attribute: false,
    xml_flattened: false,
    xml_unwrapped_output: false,
    http_label: false,
    http_payload: false,
    http_query_params: false,
    http_response_code: false,
    streaming: false,
    event_header: false,
    event_payload: false,
    host_label: false,
};
