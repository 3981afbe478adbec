//! Symbols, whichever way they are written.
ghost use Rattle.std.specs.Prelude.{◌≡◌, List, ℕ, ◌++◌, ◌∷◌, [], IsTrue};
ghost use Rattle.std.specs.List.{list_all};
ghost use Rattle.smt_lex.specs.Bytes.{is_symbol_byte};
ghost use Rattle.smt_lex.specs.Grammar.{is_simple_symbol};
ghost use Rattle.smt_lex.specs.Laws.{ContentOfSymbol};
ghost use Rattle.smt_lex.specs.Symbols.{symbol_content};

use crate::scan::is_symbol_byte;

/// The bytes of a symbol's token without its bars, so that `|x|` and `x` are one symbol. Two symbols
/// are the same exactly where these bytes are.
#[tactic(auto, unfolding(crate::specs::Symbols::symbol_content))]
pub fn symbol_content(text: &[u8]) -> &[u8]
    ensures { result.now ≡ symbol_content text.now }
{
    match text {
        [b'|', rest @ ..] => &rest[..rest.len().saturating_sub(1)],
        _ => text,
    }
}

/// Whether these bytes are a symbol's token that needs no bars.
pub fn is_simple_symbol(text: &[u8]) -> bool
    ensures { result ≡ is_simple_symbol text.now }
{
    match text {
        [] => false,
        [first, rest @ ..] => {
            !first.is_ascii_digit() && is_symbol_byte(*first) && are_symbol_bytes(rest)
        }
    }
}

/// Whether each of the bytes may stand in a simple symbol.
fn are_symbol_bytes(bytes: &[u8]) -> bool
    ensures { result ≡ list_all is_symbol_byte bytes.now }
{
    bytes.iter().all(|b| is_symbol_byte(*b))
}

/// The content of a symbol's token is the token itself, which is a simple symbol, or it is what
/// stands between its bars, which is neither a bar nor a backslash.
pub fn content_of_symbol()
    ensures cases { ContentOfSymbol }
    ensures plain { (text : List ℕ) → IsTrue (is_simple_symbol text) → symbol_content text ≡ text }
    ensures barred { (content : List ℕ) → symbol_content (124 ∷ content ++ 124 ∷ []) ≡ content }
{}
