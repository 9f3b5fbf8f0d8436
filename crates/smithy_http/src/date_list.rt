// The dates of a list of dates, read where they stand (RFC 7231, section 7.1.1.1).
ghost use Rattle.std.specs.Prelude.{◌≡◌, ◌∷◌, ◌<◌, length, IfSome, IfErr, OnOk};
ghost use Rattle.smithy_http.specs.DateLists.{pieces_of, has_comma, list_dates, date_in};
ghost use Rattle.smithy_http.specs.HeaderValues.{IsRefusal};
ghost use Rattle.smithy_http.specs.views.ItemReading.{AreItemsRead, IsDateRead, CutsPiece, pieces_behind, pieces_dates};

use crate::error::{HttpError, ListFault};
use smithy_types::{DateTime, Format, Longs};
use std::alloc::Global;

// Whether a date of the format has a comma.
fn has_comma(format: Format) -> bool
    ensures { result ≡ has_comma format }
{
    match format {
        Format::HttpDate => true,
        Format::DateTime | Format::EpochSeconds => false,
    }
}

// The place of the comma that ends the first piece; the first comma does not where a piece has one itself.
fn cutting_comma(bytes: &[u8], own_comma: bool) -> Option<usize>
    ensures { CutsPiece own_comma bytes.now result }
{
    let mut stays = own_comma;
    for (place, b) in bytes.iter().enumerate() {
        if *b == b',' {
            if !stays {
                return Some(place);
            }
            stays = false;
        }
    }
    None
}

// The first piece, and what stands behind the comma that ends it, if one does.
fn cut_piece(text: &str, own_comma: bool) -> (&str, Option<&str>)
    ensures pieces { pieces_of own_comma text.now ≡ result.0.now ∷ pieces_behind own_comma result.1 }
    ensures shorter { IfSome result.1 (λ rest. length rest.now < length text.now) }
{
    match cutting_comma(text.as_bytes(), own_comma) {
        Some(place) => (&text[..place], Some(&text[place + 1..])),
        None => (text, None),
    }
}

// Adds the seconds of a date.
fn push_date(
    alloc: Global,
    seconds: &mut Longs,
    piece: &str,
    format: Format,
) -> Result<(), HttpError>
    ensures ok { OnOk result (IsDateRead (date_in format piece.now) seconds.old seconds.new) }
    ensures err { IfErr result (λ e. IsRefusal e (date_in format piece.now)) }
{
    match DateTime::parse(alloc, piece.trim(), format) {
        Ok(date) => {
            seconds.push(date.secs())?;
            Ok(())
        }
        Err(_) => Err(HttpError::List(ListFault::Item)),
    }
}

// Adds the dates between commas.
fn push_pieces(
    alloc: Global,
    seconds: &mut Longs,
    mut text: &str,
    format: Format,
) -> Result<(), HttpError>
    ensures ok { OnOk result (AreItemsRead (pieces_dates format text.now) seconds.old seconds.new) }
    ensures err { IfErr result (λ e. IsRefusal e (pieces_dates format text.now)) }
{
    let own_comma = has_comma(format);
    loop {
        let (piece, behind) = cut_piece(text, own_comma);
        push_date(alloc, seconds, piece, format)?;
        match behind {
            Some(rest) => text = rest,
            None => return Ok(()),
        }
    }
}

// Adds the dates of a value.
pub(crate) fn push_date_list(
    alloc: Global,
    seconds: &mut Longs,
    text: &str,
    format: Format,
) -> Result<(), HttpError>
    ensures ok { OnOk result (AreItemsRead (list_dates format text.now) seconds.old seconds.new) }
    ensures err { IfErr result (λ e. IsRefusal e (list_dates format text.now)) }
{
    if text.is_empty() {
        return Ok(());
    }
    push_pieces(alloc, seconds, text, format)
}
