//! The reader: one s-expression from a lexer, with the open lists on a stack in place of recursion.
ghost use Rattle.std.specs.Prelude.{◌≡◌, ◌-◌, ◌≤◌, ◌<◌, ◌++◌, ◌∷◌, [], length, take, drop, List, ℕ, OnOk, OnErr, IfOk, IfErr, Ok, Some, None};
ghost use Rattle.smt_sexpr.specs.Table.{Grows, table_of};
ghost use Rattle.smt_sexpr.specs.Reading.{Finds, failed_of};

use crate::error::{SexprError, SexprRefusal};
use crate::node::{Node, SexprId};
use smt_lex::{Lexer, TokenKind};

/// An open list: the place of its parenthesis, and where its items begin among those that are pending.
#[derive(Clone, Copy)]
pub(crate) struct Frame {
    place: usize,
    first: usize,
}

/// Makes a list of the items that are pending from `first` on.
fn close_list(
    nodes: &mut Vec<Node>,
    items: &mut Vec<SexprId>,
    pending: &mut Vec<SexprId>,
    first: usize,
) -> Result<SexprId, SexprError>
    requires { first ≤ length pending.old.items }
    ensures id { IfOk result (λ id. id ≡ length nodes.old.items) }
    ensures nodes { OnOk result (nodes.new.items
        ≡ nodes.old.items ++ Node.List (length items.old.items) (length pending.old.items - first) ∷ []) }
    ensures items { OnOk result (items.new.items ≡ items.old.items ++ drop first pending.old.items) }
    ensures pending { OnOk result (pending.new.items ≡ take first pending.old.items) }
    ensures nodes_stay { OnErr result (nodes.new.items ≡ nodes.old.items) }
    ensures items_grow { OnErr result ((added : List ℕ) × (items.new.items ≡ items.old.items ++ added)) }
    ensures err { IfErr result (λ e. e ≡ SexprError.OutOfMemory) }
{
    let id = nodes.len();
    let start = items.len();
    let count = pending.len() - first;
    items.extend_from_slice(&pending[first..])?;
    nodes.push(Node::List(start, count))?;
    pending.truncate(first);
    Ok(id)
}

/// Reads one s-expression from the lexer. What it finds is put behind what the table has. The lists that are open stand on the stack,
/// and their items among those that are pending; both are empty before.
pub(crate) fn read(
    stack: &mut Vec<Frame>,
    pending: &mut Vec<SexprId>,
    nodes: &mut Vec<Node>,
    items: &mut Vec<SexprId>,
    lexer: &mut Lexer,
) -> Result<Option<SexprId>, SexprError>
    requires stack { stack.old.items ≡ [] }
    requires pending { pending.old.items ≡ [] }
    requires fresh { lexer.old.failed ≡ None }
    ensures finds { Finds (table_of lexer.old.bytes nodes.new.items items.new.items)
        lexer.old.place result lexer.new.place }
    ensures failed { lexer.new.failed ≡ failed_of result }
    ensures grows { Grows (table_of lexer.old.bytes nodes.old.items items.old.items)
        (table_of lexer.new.bytes nodes.new.items items.new.items) }
    ensures idle { result ≡ Ok None
        → (nodes.new.items ≡ nodes.old.items) × (items.new.items ≡ items.old.items) }
    ensures forward { (id : ℕ) → result ≡ Ok (Some id) → lexer.old.place < lexer.new.place }
    ensures within { lexer.new.place ≤ length lexer.new.bytes }
{
    'tokens: loop {
        let token = match lexer.next() {
            Err(error) => return Err(SexprError::Refused(SexprRefusal::Lex(error))),
            Ok(None) => {
                return match stack.first() {
                    None => Ok(None),
                    Some(frame) => Err(SexprError::Refused(SexprRefusal::UnclosedList(
                        frame.place,
                    ))),
                };
            }
            Ok(Some(token)) => token,
        };
        let id = match token.kind {
            TokenKind::Left => {
                let first = pending.len();
                stack.push(Frame {
                    place: token.start,
                    first,
                })?;
                continue;
            }
            TokenKind::Right => match stack.pop() {
                None => return Err(SexprError::Refused(SexprRefusal::StrayClose(token.start))),
                Some(frame) => close_list(nodes, items, pending, frame.first)?,
            },
            _ => {
                let leaf = nodes.len();
                nodes.push(Node::Leaf(token))?;
                leaf
            }
        };
        if stack.is_empty() {
            return Ok(Some(id));
        }
        pending.push(id)?;
    }
}
