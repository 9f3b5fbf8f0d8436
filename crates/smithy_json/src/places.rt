// What may stand next in a JSON text, byte by byte.
ghost use Rattle.std.specs.Prelude.{◌≡◌};
ghost use Rattle.smithy_json.specs.NextPlaces.{is_hex_digit, is_tail, plain_next, is_escape, escape_next, unit_next, unit_d_next, text_next, ends_text, first_digit_next, zero_next, number_next, may_end, word_next, is_blank, scalar_begun, value_begun, name_begun, value_left, behind_next, within_number, takes_blank, wanted, step};

/// What an array or an object is closed by.
#[derive(Clone, Copy, PartialEq, Eq, Drop)]
pub(crate) enum Bracket {
    Array,
    Object,
}

/// What stands next of a text between quotes.
#[derive(Clone, Copy, Drop)]
pub(crate) enum TextPlace {
    /// A character, an escape, or the quote at its end.
    Plain,
    /// What follows a backslash.
    Escape,
    /// The four digits of `\u`.
    Unit,
    /// The three digits behind `\ud`.
    UnitD,
    /// Three, two, one digits of an escape.
    Digits3,
    Digits2,
    Digits1,
    /// Two digits, one digit of the first half of a pair.
    High2,
    High1,
    /// The other half of the pair: `\`, `u`, `d`, and a digit from `c` on.
    LowBackslash,
    LowU,
    LowD,
    LowDigit,
    /// Three, two, one bytes of a character.
    Tail3,
    Tail2,
    Tail1,
    /// The second byte of a character, behind `E0`, `ED`, `F0`, `F4`.
    BehindE0,
    BehindEd,
    BehindF0,
    BehindF4,
}

/// What stands next of a number.
#[derive(Clone, Copy, Drop)]
pub(crate) enum NumberPlace {
    /// Its first digit, behind a minus.
    Minus,
    /// What follows the zero that its whole part is.
    Zero,
    /// What follows a digit of its whole part.
    Whole,
    /// The first digit behind its point.
    Point,
    /// What follows a digit behind its point.
    Fraction,
    /// The sign or the first digit of its exponent.
    Exponent,
    /// The first digit of its exponent.
    Sign,
    /// What follows a digit of its exponent.
    Power,
}

/// What is left of `true`, `false` or `null`.
#[derive(Clone, Copy, Drop)]
pub(crate) enum WordPlace {
    Rue,
    Ue,
    E,
    Alse,
    Lse,
    Se,
    Ull,
    Ll,
    L,
}

/// What may stand next in a JSON text.
#[derive(Clone, Copy, Drop)]
pub(crate) enum Place {
    /// A value.
    Value,
    /// A value, or the end of the array.
    FirstItem,
    /// A name, or the end of the object.
    FirstName,
    /// A name.
    Name,
    /// A colon.
    Colon,
    /// What follows a value.
    Behind,
    /// The rest of a name.
    InName(TextPlace),
    /// The rest of a text.
    InText(TextPlace),
    /// The rest of a number, or what follows it.
    InNumber(NumberPlace),
    /// The rest of `true`, `false` or `null`.
    InWord(WordPlace),
}

/// What a byte does.
#[derive(Clone, Copy, Drop)]
pub(crate) enum Step {
    /// It leads here.
    To(Place),
    /// It opens an array or an object.
    Open(Bracket),
    /// It closes the innermost of those that are open.
    Close,
}

fn is_hex_digit(byte: u8) -> bool
    ensures { result ≡ is_hex_digit byte }
{
    matches!(byte, b'0'..=b'9' | b'A'..=b'F' | b'a'..=b'f')
}

// Whether it is a byte of a character of more than one.
fn is_tail(byte: u8) -> bool
    ensures { result ≡ is_tail byte }
{
    matches!(byte, 0x80..=0xBF)
}

// Whether it stands behind a backslash, and is no `u`.
fn is_escape(byte: u8) -> bool
    ensures { result ≡ is_escape byte }
{
    matches!(byte, b'"' | b'\\' | b'/' | b'b' | b'f' | b'n' | b'r' | b't')
}

// What stands behind a character of a text, or its first byte, or a backslash.
fn plain_next(byte: u8) -> Option<TextPlace>
    ensures { result ≡ plain_next byte }
{
    match byte {
        b'\\' => Some(TextPlace::Escape),
        0x20..=0x7F => Some(TextPlace::Plain),
        0xC2..=0xDF => Some(TextPlace::Tail1),
        0xE0 => Some(TextPlace::BehindE0),
        0xED => Some(TextPlace::BehindEd),
        0xE1..=0xEF => Some(TextPlace::Tail2),
        0xF0 => Some(TextPlace::BehindF0),
        0xF4 => Some(TextPlace::BehindF4),
        0xF1..=0xF3 => Some(TextPlace::Tail3),
        _ => None,
    }
}

// What stands behind the first digit of `\u`.
fn unit_next(byte: u8) -> Option<TextPlace>
    ensures { result ≡ unit_next byte }
{
    match byte {
        b'D' | b'd' => Some(TextPlace::UnitD),
        _ => is_hex_digit(byte).then_some(TextPlace::Digits3),
    }
}

// What stands behind the second digit of `\u`, where the first is a D.
fn unit_d_next(byte: u8) -> Option<TextPlace>
    ensures { result ≡ unit_d_next byte }
{
    match byte {
        b'8'..=b'9' | b'A'..=b'B' | b'a'..=b'b' => Some(TextPlace::High2),
        b'0'..=b'7' => Some(TextPlace::Digits2),
        _ => None,
    }
}

impl TextPlace {
    // What stands behind a byte of a text that isn't its end.
    fn next(self, byte: u8) -> Option<TextPlace>
        ensures { result ≡ text_next self byte }
    {
        match self {
            TextPlace::Plain => plain_next(byte),
            TextPlace::Escape => escape_next(byte),
            TextPlace::Unit => unit_next(byte),
            TextPlace::UnitD => unit_d_next(byte),
            TextPlace::Digits3 => is_hex_digit(byte).then_some(TextPlace::Digits2),
            TextPlace::Digits2 => is_hex_digit(byte).then_some(TextPlace::Digits1),
            TextPlace::Digits1 => is_hex_digit(byte).then_some(TextPlace::Plain),
            TextPlace::High2 => is_hex_digit(byte).then_some(TextPlace::High1),
            TextPlace::High1 => is_hex_digit(byte).then_some(TextPlace::LowBackslash),
            TextPlace::LowBackslash => (byte == b'\\').then_some(TextPlace::LowU),
            TextPlace::LowU => (byte == b'u').then_some(TextPlace::LowD),
            TextPlace::LowD => matches!(byte, b'D' | b'd').then_some(TextPlace::LowDigit),
            TextPlace::LowDigit => {
                matches!(byte, b'C'..=b'F' | b'c'..=b'f').then_some(TextPlace::Digits2)
            }
            TextPlace::Tail3 => is_tail(byte).then_some(TextPlace::Tail2),
            TextPlace::Tail2 => is_tail(byte).then_some(TextPlace::Tail1),
            TextPlace::Tail1 => is_tail(byte).then_some(TextPlace::Plain),
            TextPlace::BehindE0 => matches!(byte, 0xA0..=0xBF).then_some(TextPlace::Tail1),
            TextPlace::BehindEd => matches!(byte, 0x80..=0x9F).then_some(TextPlace::Tail1),
            TextPlace::BehindF0 => matches!(byte, 0x90..=0xBF).then_some(TextPlace::Tail2),
            TextPlace::BehindF4 => matches!(byte, 0x80..=0x8F).then_some(TextPlace::Tail2),
        }
    }

    // Whether a byte is the quote at its end.
    fn is_ended_by(self, byte: u8) -> bool
        ensures { result ≡ ends_text self byte }
    {
        match self {
            TextPlace::Plain => byte == b'"',
            _ => false,
        }
    }
}

// What stands behind a backslash and a byte.
fn escape_next(byte: u8) -> Option<TextPlace>
    ensures { result ≡ escape_next byte }
{
    match byte {
        b'u' => Some(TextPlace::Unit),
        _ => is_escape(byte).then_some(TextPlace::Plain),
    }
}

// What stands behind the first digit of a number.
fn first_digit_next(byte: u8) -> Option<NumberPlace>
    ensures { result ≡ first_digit_next byte }
{
    match byte {
        b'0' => Some(NumberPlace::Zero),
        b'1'..=b'9' => Some(NumberPlace::Whole),
        _ => None,
    }
}

// What stands behind a zero and a byte of the same number.
fn zero_next(byte: u8) -> Option<NumberPlace>
    ensures { result ≡ zero_next byte }
{
    match byte {
        b'.' => Some(NumberPlace::Point),
        b'e' | b'E' => Some(NumberPlace::Exponent),
        _ => None,
    }
}

impl NumberPlace {
    // What stands behind a byte of a number.
    fn next(self, byte: u8) -> Option<NumberPlace>
        ensures { result ≡ number_next self byte }
    {
        match (self, byte) {
            (NumberPlace::Minus, _) => first_digit_next(byte),
            (NumberPlace::Zero, _) => zero_next(byte),
            (NumberPlace::Whole, b'0'..=b'9') => Some(NumberPlace::Whole),
            (NumberPlace::Whole, _) => zero_next(byte),
            (NumberPlace::Point | NumberPlace::Fraction, b'0'..=b'9') => Some(
                NumberPlace::Fraction,
            ),
            (NumberPlace::Fraction, b'e' | b'E') => Some(NumberPlace::Exponent),
            (NumberPlace::Exponent, b'+' | b'-') => Some(NumberPlace::Sign),
            (NumberPlace::Exponent | NumberPlace::Sign | NumberPlace::Power, b'0'..=b'9') => Some(
                NumberPlace::Power,
            ),
            _ => None,
        }
    }

    // Whether the number may end here.
    fn may_end(self) -> bool
        ensures { result ≡ may_end self }
    {
        matches!(
            self,
            NumberPlace::Zero | NumberPlace::Whole | NumberPlace::Fraction | NumberPlace::Power
        )
    }
}

impl WordPlace {
    // What stands behind a byte of a word.
    fn next(self, byte: u8) -> Option<Place>
        ensures { result ≡ word_next self byte }
    {
        match (self, byte) {
            (WordPlace::Rue, b'r') => Some(Place::InWord(WordPlace::Ue)),
            (WordPlace::Ue, b'u') => Some(Place::InWord(WordPlace::E)),
            (WordPlace::E, b'e') => Some(Place::Behind),
            (WordPlace::Alse, b'a') => Some(Place::InWord(WordPlace::Lse)),
            (WordPlace::Lse, b'l') => Some(Place::InWord(WordPlace::Se)),
            (WordPlace::Se, b's') => Some(Place::InWord(WordPlace::E)),
            (WordPlace::Ull, b'u') => Some(Place::InWord(WordPlace::Ll)),
            (WordPlace::Ll, b'l') => Some(Place::InWord(WordPlace::L)),
            (WordPlace::L, b'l') => Some(Place::Behind),
            _ => None,
        }
    }
}

fn is_blank(byte: u8) -> bool
    ensures { result ≡ is_blank byte }
{
    matches!(byte, b' ' | b'\t' | b'\n' | b'\r')
}

// What stands behind the first byte of a text, a number or a word.
fn scalar_begun(byte: u8) -> Option<Place>
    ensures { result ≡ scalar_begun byte }
{
    match byte {
        b'"' => Some(Place::InText(TextPlace::Plain)),
        b'-' => Some(Place::InNumber(NumberPlace::Minus)),
        b't' => Some(Place::InWord(WordPlace::Rue)),
        b'f' => Some(Place::InWord(WordPlace::Alse)),
        b'n' => Some(Place::InWord(WordPlace::Ull)),
        _ => Some(Place::InNumber(first_digit_next(byte)?)),
    }
}

// What the first byte of a value does.
fn value_begun(byte: u8) -> Option<Step>
    ensures { result ≡ value_begun byte }
{
    match byte {
        b'[' => Some(Step::Open(Bracket::Array)),
        b'{' => Some(Step::Open(Bracket::Object)),
        _ => Some(Step::To(scalar_begun(byte)?)),
    }
}

// What a quote does where a name is wanted.
fn name_begun(byte: u8) -> Option<Step>
    ensures { result ≡ name_begun byte }
{
    (byte == b'"').then_some(Step::To(Place::InName(TextPlace::Plain)))
}

// What a byte behind a value does, by the innermost that is open.
fn value_left(inner: Option<Bracket>, byte: u8) -> Option<Step>
    ensures { result ≡ value_left inner byte }
{
    match (inner, byte) {
        (Some(Bracket::Array), b',') => Some(Step::To(Place::Value)),
        (Some(Bracket::Array), b']') => Some(Step::Close),
        (Some(Bracket::Object), b',') => Some(Step::To(Place::Name)),
        (Some(Bracket::Object), b'}') => Some(Step::Close),
        _ => None,
    }
}

// The same, or a blank.
fn behind_next(inner: Option<Bracket>, byte: u8) -> Option<Step>
    ensures { result ≡ behind_next inner byte }
{
    if is_blank(byte) {
        return Some(Step::To(Place::Behind));
    }
    value_left(inner, byte)
}

// What a byte does in a number or behind it.
fn within_number(inner: Option<Bracket>, number: NumberPlace, byte: u8) -> Option<Step>
    ensures { result ≡ within_number inner (number_next number byte) number byte }
{
    match number.next(byte) {
        Some(next) => Some(Step::To(Place::InNumber(next))),
        None if number.may_end() => behind_next(inner, byte),
        None => None,
    }
}

impl Place {
    // Whether a blank may stand here.
    fn takes_blank(self) -> bool
        ensures { result ≡ takes_blank self }
    {
        matches!(
            self,
            Place::Value
                | Place::FirstItem
                | Place::FirstName
                | Place::Name
                | Place::Colon
                | Place::Behind
        )
    }

    // What a byte does that is wanted here.
    fn wanted(self, inner: Option<Bracket>, byte: u8) -> Option<Step>
        ensures { result ≡ wanted self inner byte }
    {
        match self {
            Place::Value => value_begun(byte),
            Place::FirstItem if byte == b']' => Some(Step::Close),
            Place::FirstItem => value_begun(byte),
            Place::FirstName if byte == b'}' => Some(Step::Close),
            Place::FirstName | Place::Name => name_begun(byte),
            Place::Colon => (byte == b':').then_some(Step::To(Place::Value)),
            Place::Behind => value_left(inner, byte),
            Place::InName(text) if text.is_ended_by(byte) => Some(Step::To(Place::Colon)),
            Place::InName(text) => Some(Step::To(Place::InName(text.next(byte)?))),
            Place::InText(text) if text.is_ended_by(byte) => Some(Step::To(Place::Behind)),
            Place::InText(text) => Some(Step::To(Place::InText(text.next(byte)?))),
            Place::InNumber(number) => within_number(inner, number, byte),
            Place::InWord(word) => Some(Step::To(word.next(byte)?)),
        }
    }

    /// What a byte does here, where this is the innermost that is open. None where it can't stand here. Takes no memory.
    #[tactic(auto, unfolding(crate::specs::NextPlaces::step))]
    pub(crate) fn step(self, inner: Option<Bracket>, byte: u8) -> Option<Step>
        ensures { result ≡ step self inner byte }
    {
        if self.takes_blank() && is_blank(byte) {
            return Some(Step::To(self));
        }
        self.wanted(inner, byte)
    }
}
