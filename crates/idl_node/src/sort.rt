/// The sort of a declared name (SMT-LIB 2.6, theories Core and Ints).
#[derive(Clone, Copy, Debug, PartialEq, Eq)]
pub enum Sort {
    Int,
    Bool,
}
