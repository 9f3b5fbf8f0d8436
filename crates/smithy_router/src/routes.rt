// Lists of routes.
ghost use Rattle.std.specs.Prelude.{◌≡◌, length, OnOk, OnErr, IfErr};
ghost use Rattle.smithy_router.specs.Adding.{AddsTemplate, FindsBest, IsConflict, TellsConflict};
ghost use Rattle.smithy_router.specs.Routes.{IsRoute};
ghost use Rattle.smithy_router.specs.Tables.{IsApartFrom};
ghost use Rattle.smithy_router.specs.Templates.{route_of};
ghost use Rattle.smithy_router.specs.Tree.{entries_of, HasEntry, IsSound, RouteAdded, TemplateAdded};
ghost use Rattle.smithy_router.specs.Seen.{route_seen, text_seen, EntryAdded};

use crate::conflict::first_conflict;
use crate::error::RouteError;
use crate::route::{StoredEntry, StoredRoute};
use crate::search;
use crate::template_route::route_of;
use crate::tree::{RouteTree, put_end};
use smithy_types::{OutOfMemory, Text};
use std::alloc::Global;
use std::marker::Model;

/// Routes that don't conflict, each with the name of its operation, seen as the list of both in the order in which they
/// were added (Smithy, HTTP protocol bindings, http trait).
#[derive(Drop)]
pub struct Routes {
    alloc: Global,
    tree: RouteTree,
}

impl Model for Routes {
    ghost use Rattle.std.specs.Prelude.{List};
    ghost use Rattle.smithy_router.specs.Tables.{Entry};
    ghost use Rattle.smithy_router.specs.Tree.{entries_of, IsSound};

    ghost Value = { List Entry };

    ghost view = { λ a. entries_of a.tree };

    ghost invariant = { λ a. IsSound a.tree };
}

impl Routes {
    ghost use Rattle.std.specs.Prelude.{◌≡◌, [], length};
    ghost use Rattle.smithy_router.specs.Seen.{text_seen};
    ghost use Rattle.smithy_router.specs.Tables.{AreApart};
    ghost use Rattle.smithy_router.specs.Templates.{route_of};

    /// A list without routes. Takes no memory.
    pub fn new(alloc: Global) -> Routes
        ensures { result ≡ [] }
    {
        Routes {
            alloc,
            tree: RouteTree::new(alloc),
        }
    }

    /// How many routes the list has. Takes no memory.
    pub fn len(&self) -> usize
        ensures { result ≡ length self.now }
    {
        self.tree.entries.len()
    }

    /// Adds the route of a template, with the name of its operation. Refused with `Template` where the template isn't
    /// routable: each hole is a whole segment of the path, no two have one name, a greedy one stands last, and with `a` in
    /// each hole it is a legal target (RFC 7230, section 5.3); then with `Conflict` where some request is matched by this
    /// route and by one that is there, and neither beats the other: the first such operation is told. After a refusal the
    /// list is as it was. Takes memory for the texts of the route, and for a target.
    pub fn add(&mut self, method: &str, template: &str, operation: &str) -> Result<(), RouteError>
        ensures outcome { AddsTemplate self.old (route_of method.now template.now)
            operation.now self.new result }
        ensures apart { AreApart self.new }
    {
        add_template(self.alloc, &mut self.tree, method, template, operation)
    }

    /// The operation of the route that matches the request and beats each other one that does, None exactly where none
    /// matches. Takes no memory.
    pub fn find(&self, method: &str, target: &str) -> Option<&str>
        ensures best { FindsBest method.now target.now self.now (text_seen result) }
        ensures apart { AreApart self.now }
    {
        best_operation(&self.tree, method, target)
    }
}

// The operation of the best route that matches.
fn best_operation<'e>(tree: &'e RouteTree, method: &str, target: &str) -> Option<&'e str>
    requires { IsSound tree.now }
    ensures { FindsBest method.now target.now (entries_of tree.now) (text_seen result) }
{
    match search::best(tree, method, target) {
        Some(entry) => Some(entry.operation.as_str()),
        None => None,
    }
}

// Tells the first route that a new one conflicts with, if there is one.
fn test_apart(alloc: Global, tree: &RouteTree, route: &StoredRoute) -> Result<(), RouteError>
    requires sound { IsSound tree.now }
    requires route { IsRoute (route_seen route.now) }
    ensures ok { OnOk result (IsApartFrom (route_seen route.now) (entries_of tree.now)) }
    ensures err { IfErr result (TellsConflict (entries_of tree.now) (route_seen route.now)) }
{
    match first_conflict(tree, route) {
        Some(entry) => Err(conflict(alloc, entry.operation.as_str())),
        None => Ok(()),
    }
}

// Adds an entry at the end.
fn push_entry(
    alloc: Global,
    entries: &mut Vec<StoredEntry>,
    route: StoredRoute,
    operation: &str,
) -> Result<(), OutOfMemory>
    ensures ok { OnOk result (EntryAdded entries.old.items (route_seen route) operation.now entries.new.items) }
    ensures err { OnErr result (entries.new.items ≡ entries.old.items) }
{
    let operation = String::from_str(alloc, operation)?;
    entries.push(StoredEntry { route, operation })?;
    Ok(())
}

// Adds the entry of a route that conflicts with none.
fn add_entry(
    alloc: Global,
    tree: &mut RouteTree,
    route: StoredRoute,
    operation: &str,
) -> Result<(), OutOfMemory>
    requires sound { IsSound tree.old }
    requires route { IsRoute (route_seen route) }
    requires apart { IsApartFrom (route_seen route) (entries_of tree.old) }
    ensures ok { OnOk result (HasEntry tree.old (route_seen route) operation.now tree.new) }
    ensures err { OnErr result (tree.new.entries.items ≡ tree.old.entries.items) }
    ensures sound { IsSound tree.new }
{
    put_end(alloc, &mut tree.nodes, &route, tree.entries.len())?;
    push_entry(alloc, &mut tree.entries, route, operation)
}

// Adds a route, unless it conflicts with one that is there.
fn add_route(
    alloc: Global,
    tree: &mut RouteTree,
    route: StoredRoute,
    operation: &str,
) -> Result<(), RouteError>
    requires sound { IsSound tree.old }
    requires route { IsRoute (route_seen route) }
    ensures outcome { RouteAdded tree.old (route_seen route) operation.now tree.new result }
    ensures sound { IsSound tree.new }
{
    test_apart(alloc, tree, &route)?;
    add_entry(alloc, tree, route, operation)?;
    Ok(())
}

// Adds the route of a template, unless it has none or conflicts with one that is there.
fn add_template(
    alloc: Global,
    tree: &mut RouteTree,
    method: &str,
    template: &str,
    operation: &str,
) -> Result<(), RouteError>
    requires { IsSound tree.old }
    ensures outcome { TemplateAdded tree.old (route_of method.now template.now) operation.now tree.new result }
    ensures sound { IsSound tree.new }
{
    let route = route_of(alloc, method, template)?;
    add_route(alloc, tree, route, operation)
}

// The refusal of a route that conflicts with that of this operation.
fn conflict(alloc: Global, operation: &str) -> RouteError
    ensures { IsConflict result operation.now }
{
    match Text::from_str(alloc, operation) {
        Ok(other) => RouteError::Conflict { other },
        Err(_) => RouteError::OutOfMemory,
    }
}
