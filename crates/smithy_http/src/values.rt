// The values of a header name.
ghost use Rattle.std.specs.Prelude.{◌≡◌};
ghost use Rattle.std.specs.Iterator.{YieldsFirstBy};
ghost use Rattle.std.specs.Option.{option_copied};
ghost use Rattle.smithy_http.specs.HeaderValues.{text_of, texts_in};

use crate::pairs::{Pair, next_value};
use std::marker::Model;

/// The values of a name that are left, seen as the list of them, in order.
#[derive(Drop)]
pub struct GetAllBytes<'h> {
    pairs: &'h [Pair],
    name: &'h str,
}

impl<'h> Model for GetAllBytes<'h> {
    ghost use Rattle.std.specs.Prelude.{List, ℕ};
    ghost use Rattle.smithy_http.specs.views.Pairs.{values_among};

    ghost Value = { List (List ℕ) };

    ghost view = { λ g. values_among g.name.now g.pairs.now };
}

impl<'h> GetAllBytes<'h> {
    ghost use Rattle.std.specs.Prelude.{◌≡◌};
    ghost use Rattle.smithy_http.specs.views.Pairs.{values_among};

    // The values of a name among pairs.
    pub(crate) fn among(pairs: &'h [Pair], name: &'h str) -> GetAllBytes<'h>
        ensures { result ≡ values_among name.now pairs.now }
    {
        GetAllBytes { pairs, name }
    }
}

impl<'h> Iterator for GetAllBytes<'h> {
    ghost use Rattle.std.specs.Iterator.{YieldsFirstBy, item_count};

    type Item = &'h [u8];

    ghost next_gives = { YieldsFirstBy (λ value. value.now) (λ rest. rest) };

    ghost remaining = { item_count (λ rest. rest) };

    fn next(&mut self) -> Option<&'h [u8]> {
        let (value, rest) = next_value(self.pairs, self.name)?;
        self.pairs = rest;
        Some(value)
    }
}

/// The values of a name that are left and UTF-8, seen as the list of them, in order.
#[derive(Drop)]
pub struct GetAll<'h> {
    values: GetAllBytes<'h>,
}

impl<'h> Model for GetAll<'h> {
    ghost use Rattle.std.specs.Prelude.{List, ℕ};
    ghost use Rattle.smithy_http.specs.HeaderValues.{texts_in};

    ghost Value = { List (List ℕ) };

    ghost view = { λ g. texts_in g.values };
}

impl<'h> GetAll<'h> {
    ghost use Rattle.std.specs.Prelude.{◌≡◌};
    ghost use Rattle.smithy_http.specs.HeaderValues.{texts_in};

    // The texts among values.
    pub(crate) fn of(values: GetAllBytes<'h>) -> GetAll<'h>
        ensures { result ≡ texts_in values.entry }
    {
        GetAll { values }
    }
}

impl<'h> Iterator for GetAll<'h> {
    ghost use Rattle.std.specs.Iterator.{YieldsFirstBy, item_count};

    type Item = &'h str;

    ghost next_gives = { YieldsFirstBy (λ text. text.now) (λ rest. rest) };

    ghost remaining = { item_count (λ rest. rest) };

    fn next(&mut self) -> Option<&'h str> {
        next_text(&mut self.values)
    }
}

// The next value that is UTF-8.
fn next_text<'h>(values: &mut GetAllBytes<'h>) -> Option<&'h str>
    ensures { YieldsFirstBy (λ text. text.now) texts_in values.old result values.new }
{
    while let Some(value) = values.next() {
        if let Some(text) = text_in(value) {
            return Some(text);
        }
    }
    None
}

// A value as a text, where it is UTF-8.
pub(crate) fn text_in(value: &[u8]) -> Option<&str>
    ensures { option_copied result ≡ text_of value.now }
{
    match str::from_utf8(value) {
        Ok(text) => Some(text),
        Err(_) => None,
    }
}
