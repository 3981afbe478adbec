ghost use Rattle.std.specs.Prelude.{◌≡◌, []};
ghost use Rattle.idl_term.specs.Contexts.{IsScheduleFor};
ghost use Rattle.smt_script.specs.code.Kept.{StandsFor};
ghost use Rattle.smt_script.specs.States.{State as Meaning, IsMadeState};

use idl_term::{TermError, TermRefusal};
use smt_lex::Lexer;
use smt_script::{State, TermValue, state_law};
use smt_sexpr::Sexprs;
use std::alloc::Global;
use stn_core::NamedValues;

/// The value of the term, where there are no names.
fn value<'a>(alloc: Global, state: &mut State<'a>, text: &'a [u8]) -> Result<TermValue, TermError>
    requires { (s : Meaning) × StandsFor state.old s × IsMadeState s × IsScheduleFor s.context [] }
    ensures { state.new ≡ state.old }
{
    let values = NamedValues::new(Vec::new(alloc));
    let mut lexer = Lexer::new(text);
    let mut sexprs = Sexprs::new(alloc, text);
    match sexprs.read_one(&mut lexer) {
        Ok(Some(id)) => state.value(&sexprs, id, &values, &mut Vec::new(alloc)),
        _ => Err(TermError::OutOfMemory),
    }
}

#[test]
fn values_without_names(rt: HostRuntime) {
    state_law();
    let alloc = rt.alloc();
    let mut state = State::new(alloc);
    let values = [
        value(alloc, &mut state, b"(and (< 1 2) (not (= 3 4)))"),
        value(alloc, &mut state, b"(- (+ 1 2) 4611686018427387904)"),
        value(
            alloc,
            &mut state,
            b"(+ (ite (< 1 2) 3 4) (ite (= 1 2) 10 20))",
        ),
        value(alloc, &mut state, b"4611686018427387905"),
        value(alloc, &mut state, b"(or true x)"),
    ];
    assert_eq!(rt;
        values,
        [
            Ok(TermValue::Truth(true)),
            Ok(TermValue::Int(-4_611_686_018_427_387_901)),
            Ok(TermValue::Int(23)),
            Err(TermError::Refused(TermRefusal::BoundTooLarge)),
            Err(TermError::Refused(TermRefusal::UnknownSymbol)),
        ]
    );
}
