// Refusals.
ghost use Rattle.std.specs.Prelude.{◌≡◌};
ghost use Rattle.smithy_http.specs.declared.error.HttpError.TheVariants as http_error;

use smithy_types::OutOfMemory;
use std::alloc::AllocFailed;
use std::error::Error;
use std::fmt;

/// What is wrong with a header list or a value of one.
#[derive(Clone, Copy, Debug, PartialEq, Eq, Drop)]
pub enum ListFault {
    /// A quote has no end.
    Unended,
    /// Another byte than a comma stands after a closing quote.
    Trailing,
    /// There is more than one item where one is wanted.
    TooMany,
    /// An item is not of the kind that is wanted.
    Item,
}

/// The refusals of headers, targets, header lists and endpoints.
#[derive(Clone, Copy, Debug, PartialEq, Eq, Drop)]
pub enum HttpError {
    /// A header name is not a token (RFC 7230, section 3.2.6).
    Name,
    /// A header value has a byte that no field value has (RFC 7230, section 3.2).
    Value,
    /// A request target is not of a legal form (RFC 7230, section 5.3).
    Target,
    /// A header list cannot be read.
    List(ListFault),
    /// A header value is not UTF-8.
    NotUtf8,
    /// An endpoint is not an address.
    Address,
    /// Memory was wanted and not there.
    OutOfMemory,
}

impl ListFault {
    ghost use Rattle.smithy_http.specs.Refusals.{list_fault_text};

    // What is wrong, in words.
    fn text(self) -> &'static str
        ensures { result.now ≡ list_fault_text self }
    {
        match self {
            ListFault::Unended => "header list: unended quote",
            ListFault::Trailing => "header list: expected a comma after a quoted item",
            ListFault::TooMany => "header list: more than one item",
            ListFault::Item => "header list: item not of the kind",
        }
    }
}

impl HttpError {
    ghost use Rattle.smithy_http.specs.Refusals.{refusal_text};

    // What is wrong, in words.
    fn text(self) -> &'static str
        ensures { result.now ≡ refusal_text self }
    {
        match self {
            HttpError::Name => "invalid header name",
            HttpError::Value => "invalid header value",
            HttpError::Target => "not a legal request target",
            HttpError::List(fault) => fault.text(),
            HttpError::NotUtf8 => "header value is not UTF-8",
            HttpError::Address => "invalid endpoint address",
            HttpError::OutOfMemory => "out of memory",
        }
    }
}

impl fmt::Display for HttpError {
    ghost use Rattle.std.specs.Prelude.{Some};
    ghost use Rattle.smithy_http.specs.Refusals.{refusal_text};

    ghost output = { λ e. Some (refusal_text e) };

    fn fmt<W: fmt::Write>(&self, f: &mut fmt::Formatter<W>) -> fmt::Result {
        f.write_str(self.text())
    }
}

impl From<OutOfMemory> for HttpError {
    ghost from_gives = { λ _ e. e ≡ http_error.OutOfMemory };

    fn from(_: OutOfMemory) -> HttpError {
        HttpError::OutOfMemory
    }
}

impl<T: Drop> From<AllocFailed<T>> for HttpError {
    ghost from_gives = { λ _ e. e ≡ http_error.OutOfMemory };

    fn from(_: AllocFailed<T>) -> HttpError {
        HttpError::OutOfMemory
    }
}

impl Error for HttpError {}
