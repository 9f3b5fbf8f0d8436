// The method of a request (RFC 7231, section 4.1).
ghost use Rattle.std.specs.Prelude.{◌≡◌, IfOk, IfSome};
ghost use Rattle.smithy_http.specs.views.Methods.{method_text};

use smithy_types::{OutOfMemory, Text};
use std::alloc::Global;

// A method. Those that most requests have take no memory (RFC 7231, section 4.3; RFC 5789, section 2).
#[derive(Drop)]
pub(crate) enum Method {
    Get,
    Put,
    Post,
    Delete,
    Head,
    Patch,
    Named(Text),
}

// The method, where it is one that most requests have.
fn known_method(method: &str) -> Option<Method>
    ensures { IfSome result (λ known. method_text known ≡ method.now) }
{
    match method {
        "GET" => Some(Method::Get),
        "PUT" => Some(Method::Put),
        "POST" => Some(Method::Post),
        "DELETE" => Some(Method::Delete),
        "HEAD" => Some(Method::Head),
        "PATCH" => Some(Method::Patch),
        _ => None,
    }
}

impl Method {
    // This method, of which a copy is made where few requests have it.
    pub(crate) fn new(alloc: Global, method: &str) -> Result<Method, OutOfMemory>
        ensures { IfOk result (λ m. method_text m ≡ method.now) }
    {
        match known_method(method) {
            Some(known) => Ok(known),
            None => Ok(Method::Named(Text::from_str(alloc, method)?)),
        }
    }

    // The method as a text.
    pub(crate) fn as_str(&self) -> &str
        ensures { result.now ≡ method_text self.now }
    {
        match self {
            Method::Get => "GET",
            Method::Put => "PUT",
            Method::Post => "POST",
            Method::Delete => "DELETE",
            Method::Head => "HEAD",
            Method::Patch => "PATCH",
            Method::Named(text) => text.as_str(),
        }
    }
}
