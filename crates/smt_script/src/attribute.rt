//! The attributes of an annotated term.
ghost use Rattle.std.specs.Prelude.{◌≡◌, option_map, IfErr};
ghost use Rattle.smt_sexpr.specs.Tree.{Sexpr, Items};
ghost use Rattle.smt_sexpr.specs.Table.{Means, MeansEach, HasMeaning};
ghost use Rattle.smt_script.specs.Attributes.{named_in};
ghost use Rattle.smt_script.specs.code.Shapes.{AttributeIs, AttributesAre};
ghost use Rattle.smt_sexpr.specs.Shapes.{HaveMeaning};

use crate::error::Refusal;
use smt_sexpr::{SexprId, Sexprs};

/// What may follow an attribute's beginning.
#[derive(Clone, Copy, Debug, PartialEq, Eq)]
pub enum Awaited {
    /// The symbol of `:named`.
    Name,
    /// One value, or the next keyword.
    Value,
    /// The next keyword.
    Keyword,
}

/// The attributes so far.
#[derive(Clone, Copy)]
pub struct Attributes<'a> {
    awaited: Awaited,
    name: Option<&'a [u8]>,
}

impl<'a> Attributes<'a> {
    /// With one more item.
    fn with(self, sexprs: &Sexprs<'a>, id: SexprId) -> Result<Attributes<'a>, Refusal>
        requires { HasMeaning sexprs.now id }
        ensures { (x : Sexpr) → Means sexprs.now id x → AttributeIs self.entry x result }
    {
        if self.awaited == Awaited::Name {
            return match sexprs.symbol(id) {
                Some(name) => Ok(Attributes {
                    awaited: Awaited::Keyword,
                    name: Some(name),
                }),
                None => Err(Refusal::IllFormedCommand),
            };
        }
        match sexprs.keyword(id) {
            Some(text) if text == b":named".as_slice() => match self.name {
                Some(_) => Err(Refusal::IllFormedCommand),
                None => Ok(Attributes {
                    awaited: Awaited::Name,
                    name: None,
                }),
            },
            Some(_) => Ok(Attributes {
                awaited: Awaited::Value,
                name: self.name,
            }),
            None if self.awaited == Awaited::Value => {
                Ok(Attributes {
                    awaited: Awaited::Keyword,
                    name: self.name,
                })
            }
            None => Err(Refusal::IllFormedCommand),
        }
    }
}

/// The name that attributes give, where they give one. They are read in one pass.
pub fn named_in<'a>(
    sexprs: &Sexprs<'a>,
    attributes: &[SexprId],
) -> Result<Option<&'a [u8]>, Refusal>
    requires { HaveMeaning sexprs.now attributes.now }
    ensures { (xs : Items) → MeansEach sexprs.now attributes.now xs → AttributesAre (named_in xs) result }
{
    let mut so_far = Attributes {
        awaited: Awaited::Keyword,
        name: None,
    };
    for id in attributes {
        so_far = so_far.with(sexprs, *id)?;
    }
    match so_far.awaited {
        Awaited::Name => Err(Refusal::IllFormedCommand),
        _ => Ok(so_far.name),
    }
}
