use smt_lex::Lexer;
use smt_sexpr::{SexprError, Sexprs};
use std::alloc::Global;
use std::test::Fail;

/// Appends what is printed of the first s-expression of the text.
fn print_first(alloc: Global, text: &[u8], out: &mut Vec<u8>) -> Result<(), SexprError> {
    let mut lexer = Lexer::new(text);
    let mut table = Sexprs::new(alloc, text);
    if let Some(id) = table.read_one(&mut lexer)? {
        table.print(id, out)?;
    }
    Ok(())
}

#[test]
fn prints(rt: HostRuntime) -> Result<(), Fail> {
    let mut out = Vec::new(rt.alloc());
    print_first(rt.alloc(), b"( a  |b| |c d| ; x\n\t(()( )) )", &mut out)?;
    assert_eq!(rt; out.as_slice(), b"(a b |c d| (() ()))".as_slice());
    Ok(())
}
