// Routes: which operation a request is of.
ghost use Rattle.std.specs.Prelude.{IfOk};
ghost use Rattle.smithy_router.specs.Tables.{AreApart};
ghost use Rattle.uses.specs.Routed.{IsOperationOf};

use smithy_router::{RouteError, Routes};
use std::alloc::Global;

/// The routes of three operations of an object store. No two of them conflict. Takes memory.
pub fn object_routes(alloc: Global) -> Result<Routes, RouteError>
    ensures { IfOk result (λ routes. AreApart routes) }
{
    let mut routes = Routes::new(alloc);
    routes.add("GET", "/{Bucket}", "ListObjects")?;
    routes.add("GET", "/{Bucket}?acl", "GetBucketAcl")?;
    routes.add("GET", "/{Bucket}/{Key+}", "GetObject")?;
    Ok(routes)
}

/// The operation of a request with this method and this target: the one whose route matches it and beats each other one that
/// does. None where no route matches. Takes no memory.
pub fn operation_of<'r>(routes: &'r Routes, method: &str, target: &str) -> Option<&'r str>
    ensures { IsOperationOf routes.now method.now target.now result }
{
    routes.find(method, target)
}
