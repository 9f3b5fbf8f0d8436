// The JSON text of a document.
ghost use Rattle.std.specs.Prelude.{◌≡◌, ◌∷◌, [], IfOk};
ghost use Rattle.smithy_document.specs.Words.{view, items_view, members_view, number_view};
ghost use Rattle.json.specs.Print.{IsPrintable};
ghost use Rattle.json.specs.Reads.{token_of};
ghost use Rattle.smithy_document.specs.JsonText.{json_text};
ghost use Rattle.smithy_document.specs.views.Printing.{number_tokens, document_tokens, item_tokens, member_tokens, Prints};

use json::{Token, Writer};
use smithy_types::{Blob, Document, Documents, Members, Number, OutOfMemory};
use std::alloc::{AllocError, Global};

// For so many bytes of text there is room at first.
const FIRST_BYTES: usize = 128;

#[inline(always)]
fn print_token(writer: &mut Writer, token: Token<'_>) -> Result<(), AllocError>
    requires { IsPrintable (token_of token) }
    ensures { Prints (token_of token.entry ∷ []) writer.old writer.new result }
{
    writer.token(token)
}

fn print_number(writer: &mut Writer, number: Number) -> Result<(), AllocError>
    ensures { Prints (number_tokens (number_view number)) writer.old writer.new result }
{
    match number {
        Number::PosInt(value) => writer.u64(value),
        Number::NegInt(value) => writer.i64(value),
    }
}

#[cycle(print)]
fn print_document(writer: &mut Writer, document: &Document) -> Result<(), AllocError>
    ensures { Prints (document_tokens (view document.now)) writer.old writer.new result }
{
    match document {
        Document::Null => print_token(writer, Token::Null),
        Document::Bool(truth) => print_token(writer, Token::Bool(*truth)),
        Document::Number(number) => print_number(writer, *number),
        Document::String(text) => print_token(writer, Token::String(text.as_str())),
        Document::Array(items) => {
            print_token(writer, Token::BeginArray)?;
            print_items(writer, items)
        }
        Document::Object(members) => {
            print_token(writer, Token::BeginObject)?;
            print_members(writer, members)
        }
    }
}

// The items of an array, and its end.
#[cycle(print)]
fn print_items(writer: &mut Writer, documents: &Documents) -> Result<(), AllocError>
    ensures { Prints (item_tokens (items_view documents.now)) writer.old writer.new result }
{
    let items = documents.as_slice();
    'items: for item in items {
        print_document(writer, item)?;
    }
    print_token(writer, Token::EndArray)
}

// The members of an object, and its end.
#[cycle(print)]
fn print_members(writer: &mut Writer, members: &Members) -> Result<(), AllocError>
    ensures { Prints (member_tokens (members_view members.now)) writer.old writer.new result }
{
    'members: for (name, member) in members.iter() {
        print_token(writer, Token::Key(name))?;
        print_document(writer, member)?;
    }
    print_token(writer, Token::EndObject)
}

/// The compact JSON text of a document (RFC 8259): no blanks, the members of an object in byte order of their names.
/// Takes memory for the text.
pub(crate) fn json_blob(alloc: Global, document: &Document) -> Result<Blob, OutOfMemory>
    ensures { IfOk result (λ b. b ≡ json_text (view document.now)) }
{
    let mut writer = Writer::new(Vec::with_capacity(alloc, FIRST_BYTES)?);
    print_document(&mut writer, document)?;
    Ok(Blob::from_vec(writer.into_inner()))
}
