//! The symbols that may not be declared, defined or bound. A name is compared with those alone that are as long as it is.
ghost use Rattle.std.specs.Prelude.{◌≡◌};
ghost use Rattle.std.specs.List.{list_any};
ghost use Rattle.std.specs.Str.{bytes_eq};
ghost use Rattle.idl_apply.specs.Operators.{is_reserved};
ghost use Rattle.idl_term.specs.code.Reserved.{words_of_length};

#[tactic(auto, unfolding(idl_apply::specs::Operators::theory_symbols, idl_apply::specs::Operators::reserved_words))]
fn is_word_of_one(name: &[u8]) -> bool
    ensures { result ≡ list_any (bytes_eq name.now) (words_of_length 1) }
{
    name == b"=".as_slice()
        || name == b"+".as_slice()
        || name == b"-".as_slice()
        || name == b"*".as_slice()
        || name == b"<".as_slice()
        || name == b">".as_slice()
        || name == b"!".as_slice()
        || name == b"_".as_slice()
}

#[tactic(auto, unfolding(idl_apply::specs::Operators::theory_symbols, idl_apply::specs::Operators::reserved_words))]
fn is_word_of_two(name: &[u8]) -> bool
    ensures { result ≡ list_any (bytes_eq name.now) (words_of_length 2) }
{
    name == b"=>".as_slice()
        || name == b"or".as_slice()
        || name == b"<=".as_slice()
        || name == b">=".as_slice()
        || name == b"as".as_slice()
}

#[tactic(auto, unfolding(idl_apply::specs::Operators::theory_symbols, idl_apply::specs::Operators::reserved_words))]
fn is_word_of_three(name: &[u8]) -> bool
    ensures { result ≡ list_any (bytes_eq name.now) (words_of_length 3) }
{
    name == b"not".as_slice()
        || name == b"and".as_slice()
        || name == b"xor".as_slice()
        || name == b"ite".as_slice()
        || name == b"div".as_slice()
        || name == b"mod".as_slice()
        || name == b"abs".as_slice()
        || name == b"let".as_slice()
        || name == b"par".as_slice()
}

#[tactic(auto, unfolding(idl_apply::specs::Operators::theory_symbols, idl_apply::specs::Operators::reserved_words))]
fn is_word_of_four(name: &[u8]) -> bool
    ensures { result ≡ list_any (bytes_eq name.now) (words_of_length 4) }
{
    name == b"true".as_slice()
}

#[tactic(auto, unfolding(idl_apply::specs::Operators::theory_symbols, idl_apply::specs::Operators::reserved_words))]
fn is_word_of_five(name: &[u8]) -> bool
    ensures { result ≡ list_any (bytes_eq name.now) (words_of_length 5) }
{
    name == b"false".as_slice() || name == b"match".as_slice()
}

#[tactic(auto, unfolding(idl_apply::specs::Operators::theory_symbols, idl_apply::specs::Operators::reserved_words))]
fn is_word_of_six(name: &[u8]) -> bool
    ensures { result ≡ list_any (bytes_eq name.now) (words_of_length 6) }
{
    name == b"forall".as_slice() || name == b"exists".as_slice()
}

#[tactic(auto, unfolding(idl_apply::specs::Operators::theory_symbols, idl_apply::specs::Operators::reserved_words))]
fn is_word_of_eight(name: &[u8]) -> bool
    ensures { result ≡ list_any (bytes_eq name.now) (words_of_length 8) }
{
    name == b"distinct".as_slice()
}

/// Whether the symbol may not be declared, defined or bound.
pub fn is_reserved(name: &[u8]) -> bool
    ensures { result ≡ is_reserved name.now }
{
    let len = name.len();
    if len == 1 {
        is_word_of_one(name)
    } else if len == 2 {
        is_word_of_two(name)
    } else if len == 3 {
        is_word_of_three(name)
    } else if len == 4 {
        is_word_of_four(name)
    } else if len == 5 {
        is_word_of_five(name)
    } else if len == 6 {
        is_word_of_six(name)
    } else if len == 8 {
        is_word_of_eight(name)
    } else {
        false
    }
}
