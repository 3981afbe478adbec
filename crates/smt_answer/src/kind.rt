//! Why a command is refused, of all that may refuse it.
ghost use Rattle.std.specs.Prelude.{◌≡◌};
ghost use Rattle.smt_answer.specs.Kinds.{kind_of_unreadable};

use smt_lex::LexErrorKind;
use smt_script::Refusal;
use smt_sexpr::SexprRefusal;

/// Why a command is refused, as its error line says it. All but the last are what can't be read as an s-expression
/// (SMT-LIB 2.6, sections 3.1 and 3.2).
#[derive(Clone, Copy, Debug, PartialEq, Eq)]
pub enum Kind {
    /// A byte with which no token begins, or a backslash in a quoted symbol.
    BadByte,
    UnclosedString,
    UnclosedQuotedSymbol,
    /// A digit `0` that another digit follows.
    LeadingZero,
    /// The script ends in a list.
    UnclosedList,
    /// A closing parenthesis outside of all lists.
    StrayClose,
    /// It was read, and is refused.
    Command(Refusal),
}

/// The kind of a refusal of the reader.
pub fn kind_of_unreadable(why: SexprRefusal) -> Kind
    ensures { result ≡ kind_of_unreadable why }
{
    match why {
        SexprRefusal::Lex(error) => match error.kind {
            LexErrorKind::BadByte => Kind::BadByte,
            LexErrorKind::UnclosedText => Kind::UnclosedString,
            LexErrorKind::UnclosedSymbol => Kind::UnclosedQuotedSymbol,
            LexErrorKind::LeadingZero => Kind::LeadingZero,
        },
        SexprRefusal::UnclosedList(_) => Kind::UnclosedList,
        SexprRefusal::StrayClose(_) => Kind::StrayClose,
    }
}
