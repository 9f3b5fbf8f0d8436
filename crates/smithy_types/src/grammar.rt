// The byte grammars of header names, header values and request targets.
ghost use Rattle.std.specs.Prelude.{◌≡◌, ◌≤◌, ◌+◌, ◌==◌, drop, length, position};
ghost use Rattle.std.specs.List.{list_all, before_first, after_first, position_or_len};
ghost use Rattle.smithy_types.specs.views.ByteClasses.{bytes_of, flag_of};
ghost use Rattle.smithy_types.specs.Grammars.{is_token, is_header_value, is_path, before_query, scheme_len, is_authority_and_path, is_stem, is_target, is_legal_target};

/// The most bytes that a request target may have.
pub const MAX_TARGET_LEN: usize = 65_534;

// What a byte may be part of.
#[derive(Clone, Copy)]
enum ByteClass {
    Token,
    HeaderValue,
    Path,
    Query,
}

/// Whether the text is a token (RFC 7230, section 3.2.6), as header names and methods are: not empty, and of ASCII letters, digits
/// and ``!#$%&'*+-.^_`|~`` only. Takes no memory.
pub fn is_token(text: &str) -> bool
    ensures { result ≡ is_token text.now }
{
    !text.is_empty() && are_all(ByteClass::Token, text.as_bytes())
}

/// Whether the bytes may stand as a header's value (RFC 7230, section 3.2): tabs, 0x20 to 0x7E and 0x80 to 0xFF, in any number.
/// Takes no memory.
pub fn is_header_value(bytes: &[u8]) -> bool
    ensures { result ≡ is_header_value bytes.now }
{
    are_all(ByteClass::HeaderValue, bytes)
}

/// Whether the text is a legal request target (RFC 7230, section 5.3, origin form or absolute form): at most `MAX_TARGET_LEN`
/// bytes, `/` and path bytes, or `http://` or `https://`, an authority that isn't empty, and nothing or `/` and path bytes; then
/// optionally `?` and query bytes. Takes no memory.
pub fn legal_target(text: &str) -> bool
    ensures { result ≡ is_legal_target text.now }
{
    text.len() <= MAX_TARGET_LEN && is_target(text.as_bytes())
}

impl ByteClass {
    // The flag of the class in the table.
    fn flag(self) -> u8
        ensures { result ≡ flag_of self }
    {
        match self {
            ByteClass::Token => 1,
            ByteClass::HeaderValue => 2,
            ByteClass::Path => 4,
            ByteClass::Query => 8,
        }
    }
}

// For each byte a letter, whose low four bits are the flags of the classes that it is in.
static CLASSES: [u8; 256] = *b"\
    @@@@@@@@@B@@@@@@@@@@@@@@@@@@@@@@\
    BONCOOOONNOONOONOOOOOOOOOONNBNBJ\
    NOOOOOOOOOOOOOOOOOOOOOOOOOONNNOO\
    KOOOOOOOOOOOOOOOOOOOOOOOOOONONO@\
    BBBBBBBBBBBBBBBBBBBBBBBBBBBBBBBB\
    BBBBBBBBBBBBBBBBBBBBBBBBBBBBBBBB\
    BBBBBBBBBBBBBBBBBBBBBBBBBBBBBBBB\
    BBBBBBBBBBBBBBBBBBBBBBBBBBBBBBBB";

fn is_in(class: ByteClass, b: u8) -> bool
    ensures { result ≡ bytes_of class b }
{
    CLASSES[usize::from(b)] & class.flag() != 0
}

fn are_all(class: ByteClass, bytes: &[u8]) -> bool
    ensures { result ≡ list_all (bytes_of class) bytes.now }
{
    for b in bytes {
        if !is_in(class, *b) {
            return false;
        }
    }
    true
}

fn is_target(target: &[u8]) -> bool
    ensures { result ≡ is_target target.now }
{
    is_stem(before(target, b'?')) && are_all(ByteClass::Query, after(target, b'?'))
}

fn is_stem(stem: &[u8]) -> bool
    ensures { result ≡ is_stem stem.now }
{
    if is_path(stem) {
        return true;
    }
    let rest = behind_scheme(stem);
    rest.len() < stem.len() && is_authority_and_path(rest)
}

fn is_path(text: &[u8]) -> bool
    ensures { result ≡ is_path text.now }
{
    text.starts_with(b"/") && are_all(ByteClass::Path, text)
}

fn is_authority_and_path(text: &[u8]) -> bool
    ensures { result ≡ is_authority_and_path text.now }
{
    let authority = before(text, b'/');
    !authority.is_empty() && are_all(ByteClass::Path, text)
}

/// What stands before the first `?` of a target, or all where there is none. Takes no memory.
pub fn before_query(target: &str) -> &str
    ensures { result.now ≡ before_query target.now }
{
    match target.split_once('?') {
        Some((stem, _)) => stem,
        None => target,
    }
}

/// What stands behind `http://` or `https://`, or all where neither stands first. Takes no memory.
pub fn behind_scheme<'t>(stem: &'t [u8]) -> &'t [u8]
    ensures rest { result.now ≡ drop (scheme_len stem.now) stem.now }
    ensures shorter { length result.now + scheme_len stem.now ≡ length stem.now }
{
    if let Some(rest) = stem.strip_prefix(b"http://") {
        return rest;
    }
    if let Some(rest) = stem.strip_prefix(b"https://") {
        return rest;
    }
    stem
}

// What stands before the first such byte, or all where there is none.
pub(crate) fn before(bytes: &[u8], at: u8) -> &[u8]
    ensures { result.now ≡ before_first (λ b. b == at) bytes.now }
{
    let end = place_or_len(bytes, at);
    &bytes[..end]
}

// What stands after the first such byte, or nothing where there is none.
pub(crate) fn after(bytes: &[u8], at: u8) -> &[u8]
    ensures { result.now ≡ after_first (λ b. b == at) bytes.now }
{
    let end = place_or_len(bytes, at);
    if end == bytes.len() {
        return &[];
    }
    &bytes[end + 1..]
}

fn place_or_len(bytes: &[u8], at: u8) -> usize
    ensures value { result ≡ position_or_len (λ b. b == at) bytes.now }
    ensures within { result ≤ length bytes.now }
{
    match first_place(bytes, at) {
        Some(place) => place,
        None => bytes.len(),
    }
}

fn first_place(bytes: &[u8], at: u8) -> Option<usize>
    ensures { result ≡ position (λ b. b == at) bytes.now }
{
    bytes.iter().position(|b| *b == at)
}
