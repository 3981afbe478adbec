//! The texts of leaves.
ghost use Rattle.std.specs.Prelude.{◌≡◌, ◌≤◌, length, slice_range};
ghost use Rattle.smt_sexpr.specs.Tree.{leaf_text};

use smt_lex::{Token, TokenKind, symbol_content};

/// The text of a leaf with this token.
pub(crate) fn leaf_text(bytes: &[u8], token: Token) -> &[u8]
    requires order { token.start ≤ token.end }
    requires within { token.end ≤ length bytes.now }
    ensures { result.now ≡ leaf_text token.kind (slice_range bytes.now token.start token.end) }
{
    let raw = &bytes[token.start..token.end];
    match token.kind {
        TokenKind::Symbol => symbol_content(raw),
        _ => raw,
    }
}
