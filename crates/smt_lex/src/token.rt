//! Tokens and errors.

/// What kind of token it is. A quoted symbol is a symbol.
#[derive(Clone, Copy, Debug, PartialEq, Eq)]
pub enum TokenKind {
    /// `(`
    Left,
    /// `)`
    Right,
    /// `0`, or digits that don't begin with `0`.
    Numeral,
    /// A numeral, a point and one or more digits.
    Decimal,
    /// `#x` and one or more hexadecimal digits of either case.
    Hex,
    /// `#b` and one or more digits `0` or `1`.
    Binary,
    /// A string: any bytes in quotation marks, where `""` stands for one mark.
    Text,
    /// Letters, digits and ``~!@$%^&*_-+=<>.?/``, not beginning with a digit; or, between bars, any
    /// bytes but bars and backslashes.
    Symbol,
    /// `:` and one or more of the bytes of a simple symbol.
    Keyword,
}

/// A token, and the places where it begins and where it ends: its bytes are `bytes[start..end]`,
/// with its marks and bars.
#[derive(Clone, Copy, Debug, PartialEq, Eq)]
pub struct Token {
    pub kind: TokenKind,
    pub start: usize,
    pub end: usize,
}

/// Why no token can be read.
#[derive(Clone, Copy, Debug, PartialEq, Eq)]
pub enum LexErrorKind {
    /// No token begins with this byte here, or it is a backslash in a quoted symbol.
    BadByte,
    /// The bytes end inside a string, which begins at this place.
    UnclosedText,
    /// The bytes end inside a quoted symbol, which begins at this place.
    UnclosedSymbol,
    /// A digit `0` that another digit follows.
    LeadingZero,
}

/// Why no token can be read, and the place of the byte that shows it.
#[derive(Clone, Copy, Debug, PartialEq, Eq)]
pub struct LexError {
    pub place: usize,
    pub kind: LexErrorKind,
}
