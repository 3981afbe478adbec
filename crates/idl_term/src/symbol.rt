//! What symbols name at the head of a term.
ghost use Rattle.std.specs.Prelude.{◌≡◌};
ghost use Rattle.idl_apply.specs.Operators.{connective_of, order_of, sign_of, equality_of, operator_of, left_out_of};

use idl_apply::{Connective, Equality, LeftOutTerm, Operator, Order, Sign};

/// The connective that a symbol names.
#[tactic(auto, unfolding(idl_apply::specs::Operators::connective_of))]
fn connective_of(name: &[u8]) -> Option<Connective>
    ensures { result ≡ connective_of name.now }
{
    if name == b"and".as_slice() {
        Some(Connective::And)
    } else if name == b"or".as_slice() {
        Some(Connective::Or)
    } else if name == b"not".as_slice() {
        Some(Connective::Not)
    } else if name == b"=>".as_slice() {
        Some(Connective::Implies)
    } else if name == b"xor".as_slice() {
        Some(Connective::Xor)
    } else {
        None
    }
}

/// The order that a symbol names.
#[tactic(auto, unfolding(idl_apply::specs::Operators::order_of))]
fn order_of(name: &[u8]) -> Option<Order>
    ensures { result ≡ order_of name.now }
{
    if name == b"<=".as_slice() {
        Some(Order::AtMost)
    } else if name == b"<".as_slice() {
        Some(Order::Less)
    } else if name == b">=".as_slice() {
        Some(Order::AtLeast)
    } else if name == b">".as_slice() {
        Some(Order::Greater)
    } else {
        None
    }
}

/// `+` and `-`.
#[tactic(auto, unfolding(idl_apply::specs::Operators::sign_of))]
fn sign_of(name: &[u8]) -> Option<Sign>
    ensures { result ≡ sign_of name.now }
{
    if name == b"+".as_slice() {
        Some(Sign::Plus)
    } else if name == b"-".as_slice() {
        Some(Sign::Minus)
    } else {
        None
    }
}

/// `=` and `distinct`.
#[tactic(auto, unfolding(idl_apply::specs::Operators::equality_of))]
fn equality_of(name: &[u8]) -> Option<Equality>
    ensures { result ≡ equality_of name.now }
{
    if name == b"=".as_slice() {
        Some(Equality::Equal)
    } else if name == b"distinct".as_slice() {
        Some(Equality::Distinct)
    } else {
        None
    }
}

/// The operator that a symbol names. `let` is none, and neither is what is left out.
#[tactic(auto, unfolding(idl_apply::specs::Operators::operator_of))]
pub fn operator_of(name: &[u8]) -> Option<Operator>
    ensures { result ≡ operator_of name.now }
{
    if let Some(connective) = connective_of(name) {
        return Some(Operator::Connective(connective));
    }
    if let Some(order) = order_of(name) {
        return Some(Operator::Order(order));
    }
    if let Some(sign) = sign_of(name) {
        return Some(Operator::Sum(sign));
    }
    if let Some(equality) = equality_of(name) {
        return Some(Operator::Equality(equality));
    }
    if name == b"ite".as_slice() {
        return Some(Operator::Ite);
    }
    None
}

/// What is left out, by the symbol at the head of a term.
#[tactic(auto, unfolding(idl_apply::specs::Operators::left_out_of))]
pub fn left_out_of(name: &[u8]) -> Option<LeftOutTerm>
    ensures { result ≡ left_out_of name.now }
{
    if name == b"forall".as_slice() {
        Some(LeftOutTerm::Forall)
    } else if name == b"exists".as_slice() {
        Some(LeftOutTerm::Exists)
    } else if name == b"match".as_slice() {
        Some(LeftOutTerm::Match)
    } else if name == b"as".as_slice() {
        Some(LeftOutTerm::As)
    } else if name == b"_".as_slice() {
        Some(LeftOutTerm::Underscore)
    } else if name == b"!".as_slice() {
        Some(LeftOutTerm::Annotation)
    } else if name == b"*".as_slice() {
        Some(LeftOutTerm::Times)
    } else if name == b"div".as_slice() {
        Some(LeftOutTerm::Div)
    } else if name == b"mod".as_slice() {
        Some(LeftOutTerm::Mod)
    } else if name == b"abs".as_slice() {
        Some(LeftOutTerm::Abs)
    } else {
        None
    }
}
