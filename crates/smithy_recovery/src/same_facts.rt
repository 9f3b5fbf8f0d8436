// Whether two requests have the same facts.
ghost use Rattle.std.specs.Prelude.{◌≡◌, ◌&&◌, [], IfOk, map, option_map};
ghost use Rattle.std.specs.List.{cons_option};
ghost use Rattle.smithy_types.specs.Grammars.{before_query};
ghost use Rattle.smithy_types.specs.Texts.{same_text};
ghost use Rattle.smithy_http.specs.Facts.{named_piece};
ghost use Rattle.smithy_recovery.specs.SameFacts.{has_same_values, query_pairs, has_same_facts};
ghost use Rattle.smithy_recovery.specs.views.NameOrder.{named_seen, pairs_seen, header_seen, left_seen, same_left, has_same_first, IsInOrder, same_pairs};

use crate::pieces::{name_of, next_piece, query_of};
use smithy_http::{HeaderPairs, Request};
use smithy_types::{OutOfMemory, before_query};
use std::alloc::Global;

// A value with its name.
#[derive(Clone, Copy)]
struct Named<'v> {
    name: &'v str,
    value: &'v [u8],
}

/// Whether two requests have one method, path and body, under each name of a header the same values, and under each name
/// of the query the same pieces, in order. Takes memory.
pub fn has_same_facts(
    alloc: Global,
    request: &Request,
    other: &Request,
) -> Result<bool, OutOfMemory>
    ensures { IfOk result (λ b. b ≡ has_same_facts request.now other.now) }
{
    if !has_same_method(request, other) {
        return Ok(false);
    }
    if !has_same_path(request.uri(), other.uri()) {
        return Ok(false);
    }
    if !has_same_body(request, other) {
        return Ok(false);
    }
    if !has_same_headers(alloc, request, other)? {
        return Ok(false);
    }
    has_same_queries(alloc, request.uri(), other.uri())
}

fn has_same_method(request: &Request, other: &Request) -> bool
    ensures { result ≡ same_text request.now.method other.now.method }
{
    request.method() == other.method()
}

fn is_same_target(target: &str, other: &str) -> bool
    ensures { result ≡ same_text target.now other.now }
{
    target == other
}

fn has_same_path(target: &str, other: &str) -> bool
    ensures { result ≡ same_text (before_query target.now) (before_query other.now) }
{
    if is_same_target(target, other) {
        return true;
    }
    before_query(target) == before_query(other)
}

fn has_same_body(request: &Request, other: &Request) -> bool
    ensures { result ≡ same_text request.now.body other.now.body }
{
    request.body().as_slice() == other.body().as_slice()
}

// What is left of headers: the first of them, if there is one, and those behind it.
#[derive(Drop)]
struct Left<'h> {
    first: Option<(&'h str, &'h [u8])>,
    behind: HeaderPairs<'h>,
}

fn left_of<'h>(mut headers: HeaderPairs<'h>) -> Left<'h>
    ensures { left_seen result ≡ headers.entry }
{
    let first = headers.next();
    Left {
        first,
        behind: headers,
    }
}

// Whether both begin with the same header.
fn has_same_first(headers: &Left<'_>, others: &Left<'_>) -> bool
    ensures { result ≡ has_same_first headers.now.first others.now.first }
{
    let Some((name, value)) = headers.first else {
        return false;
    };
    let Some((other_name, other_value)) = others.first else {
        return false;
    };
    name == other_name && value == other_value
}

// What is left behind the headers that both begin with.
fn behind_front<'h, 'o>(headers: HeaderPairs<'h>, others: HeaderPairs<'o>) -> (Left<'h>, Left<'o>)
    ensures { same_left result.0 result.1 ≡ has_same_values headers.entry others.entry }
{
    let mut here = left_of(headers);
    let mut there = left_of(others);
    while has_same_first(&here, &there) {
        let next = left_of(here.behind);
        let other = left_of(there.behind);
        here = next;
        there = other;
    }
    (here, there)
}

// Only what stands behind a common front, which is all of most requests that were placed, is put in order.
fn has_same_headers(alloc: Global, request: &Request, other: &Request) -> Result<bool, OutOfMemory>
    ensures { IfOk result (λ b. b ≡ has_same_values request.now.headers other.now.headers) }
{
    let (headers, others) = behind_front(
        request.headers().iter_bytes(),
        other.headers().iter_bytes(),
    );
    let pairs = header_pairs(alloc, headers)?;
    let others = header_pairs(alloc, others)?;
    has_same_values(pairs, others)
}

fn has_same_queries(alloc: Global, target: &str, other: &str) -> Result<bool, OutOfMemory>
    ensures { IfOk result (λ b. b ≡ has_same_values (query_pairs target.now) (query_pairs other.now)) }
{
    if is_same_target(target, other) {
        return Ok(true);
    }
    let pieces = query_pairs(alloc, target)?;
    let others = query_pairs(alloc, other)?;
    has_same_values(pieces, others)
}

// The first header, if there is one.
fn first_pair<'h>(
    alloc: Global,
    first: Option<(&'h str, &'h [u8])>,
) -> Result<Vec<Named<'h>>, OutOfMemory>
    ensures { IfOk result (λ v. pairs_seen v ≡ cons_option (option_map header_seen first.entry) []) }
{
    let mut pairs = Vec::new(alloc);
    match first {
        Some((name, value)) => {
            pairs.push(Named { name, value })?;
            Ok(pairs)
        }
        None => Ok(pairs),
    }
}

fn header_pairs<'h>(alloc: Global, headers: Left<'h>) -> Result<Vec<Named<'h>>, OutOfMemory>
    ensures { IfOk result (λ v. pairs_seen v ≡ left_seen headers.entry) }
{
    let mut pairs = first_pair(alloc, headers.first)?;
    for (name, value) in headers.behind {
        pairs.push(Named { name, value })?;
    }
    Ok(pairs)
}

// A piece by its name.
fn named_piece<'q>(piece: &'q str) -> Named<'q>
    ensures { named_seen result ≡ named_piece piece.now }
{
    Named {
        name: name_of(piece),
        value: piece.as_bytes(),
    }
}

// The pieces of a query by their names.
fn query_pairs<'q>(alloc: Global, target: &'q str) -> Result<Vec<Named<'q>>, OutOfMemory>
    ensures { IfOk result (λ v. pairs_seen v ≡ query_pairs target.now) }
{
    let mut pairs = Vec::new(alloc);
    let mut rest = query_of(target);
    while let Some((piece, behind)) = next_piece(rest) {
        pairs.push(named_piece(piece))?;
        rest = behind;
    }
    Ok(pairs)
}

// The pairs in byte order of their names, those of one name in their order.
fn in_name_order<'v>(mut pairs: Vec<Named<'v>>) -> Result<Vec<Named<'v>>, OutOfMemory>
    ensures { IfOk result (λ v. IsInOrder (pairs_seen pairs.entry) (pairs_seen v)) }
{
    pairs.sort_by_key(|pair| pair.name)?;
    Ok(pairs)
}

// Whether the names and values are the same, in order.
fn are_same(pairs: &[Named<'_>], others: &[Named<'_>]) -> bool
    ensures { result ≡ same_pairs (map named_seen pairs.now) (map named_seen others.now) }
{
    for (i, pair) in pairs.iter().enumerate() {
        let Some(other) = others.get(i) else {
            return false;
        };
        if pair.name != other.name {
            return false;
        }
        if pair.value != other.value {
            return false;
        }
    }
    match others.get(pairs.len()) {
        Some(_) => false,
        None => true,
    }
}

// Whether under each name the same values stand in order.
fn has_same_values(pairs: Vec<Named<'_>>, others: Vec<Named<'_>>) -> Result<bool, OutOfMemory>
    ensures { IfOk result (λ b. b ≡ has_same_values (pairs_seen pairs.entry) (pairs_seen others.entry)) }
{
    let pairs = in_name_order(pairs)?;
    let others = in_name_order(others)?;
    Ok(are_same(&pairs, &others))
}
