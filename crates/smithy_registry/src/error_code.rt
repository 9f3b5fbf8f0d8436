// The codes by which responses name errors.
ghost use Rattle.std.specs.Prelude.{◌≡◌, option_map};
ghost use Rattle.std.specs.List.{before_first};
ghost use Rattle.smithy_registry.specs.ErrorCodes.{is_colon, past_hash, sanitized, query_error};

use smithy_http::Headers;

/// The name of the shape in an error code: what stands before the first `:`, and there past the first `#` (Smithy, AWS JSON
/// protocols, operation error serialization). Takes no memory.
pub fn sanitize_error_code(error_code: &str) -> &str
    ensures { result.now ≡ sanitized error_code.now }
{
    past_hash(before_colon(error_code))
}

// What stands before the first `:`, or all.
fn before_colon(text: &str) -> &str
    ensures { result.now ≡ before_first is_colon text.now }
{
    match text.split_once(':') {
        Some((code, _)) => code,
        None => text,
    }
}

// What stands behind the first `#`, or all.
fn past_hash(text: &str) -> &str
    ensures { result.now ≡ past_hash text.now }
{
    match text.split_once('#') {
        Some((_, name)) => name,
        None => text,
    }
}

/// The code of an error and who is to blame, as services that are compatible with the AWS query protocol tell them: the first value
/// of the header `x-amzn-query-error`, cut at its first `;`. None without that header, where its first value isn't UTF-8, and
/// where that has no `;`. Takes no memory.
pub fn parse_query_compatible_header(headers: &Headers) -> Option<(&str, &str)>
    ensures { option_map (λ p. (p.0.now, p.1.now)) result ≡ query_error headers.now }
{
    headers.get("x-amzn-query-error")?.split_once(';')
}
