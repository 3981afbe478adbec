//! One loop over a script, whoever goes through it.
ghost use Rattle.std.specs.Prelude.{◌≡◌, ◌<◌, ℕ, None, IfOk, IfErr, IfSome, OnOk};
ghost use Rattle.script_walk.specs.declared.walk.Event.{Event as Comes};
ghost use Rattle.script_walk.specs.declared.walk.Event.TheVariants as event;
ghost use Rattle.script_walk.specs.code.Visiting.{IsAt};

use crate::walk::Event;
use smt_answer::Kind;
use smt_script::{Notice, Question};
use smt_sexpr::SexprId;

/// What is done at the events of a script. Something is lent to it all the while: a sink, or what entries are kept in.
///
/// What it comes to is said by ghost members of its own, so that the loop ([`go_through`]) knows none of it.
pub trait Visitor<L> {
    /// What the script comes to.
    type End;

    /// Why it isn't gone through to its end.
    type Fault;

    /// It may begin, with what is lent to it.
    ghost starts: { Self → L → Type 0 };

    /// It began as the first one, with what was lent then, and stands so between two events.
    ghost so_far: { Self → L → Self → L → Type 0 };

    /// It stood as the first one between two events, and then this event came.
    ghost comes: { Self → Self → Comes → Type 0 };

    /// It began as the first one, and ended so, with this.
    ghost ends: { Self → L → Self → L → Self.End → Type 0 };

    /// It began as the first one, and broke off so.
    ghost breaks: { Self → L → Self → L → Self.Fault → Type 0 };

    /// How much is left of the script: less with each event.
    ghost left: { Self → ℕ };

    /// What is done before the first event.
    fn begin(&mut self, lent: &mut L) -> Result<(), Self::Fault>
        requires { starts self.old lent.old }
        ensures so_far { OnOk result (so_far self.old lent.old self.new lent.new) }
        ensures breaks { IfErr result (breaks self.old lent.old self.new lent.new) };

    /// Goes on to the next event.
    fn next(&mut self) -> Result<Event, Self::Fault>
        requires { (first : Self) × (lent_first : L) × (lent : L) × so_far first lent_first self.old lent }
        ensures comes { IfOk result (comes self.old self.new) }
        ensures breaks { IfErr result (λ fault. (first : Self) (lent_first lent : L) → so_far first lent_first self.old lent
            → breaks first lent_first self.new lent fault) };

    /// Something is to be told of a command.
    fn told(&mut self, lent: &mut L, id: SexprId, notice: Notice) -> Result<(), Self::Fault>
        requires { IsAt so_far comes self.old lent.old (event.Told id notice) }
        ensures so_far { OnOk result ((at : IsAt so_far comes self.old lent.old (event.Told id notice))
            → so_far at.first at.lent_first self.new lent.new × (left self.new < left at.before)) }
        ensures breaks { IfErr result (λ fault. (at : IsAt so_far comes self.old lent.old (event.Told id notice))
            → breaks at.first at.lent_first self.new lent.new fault) };

    /// A command asks something. Where the answer ends the script, this is what it comes to.
    fn asked(
        &mut self,
        lent: &mut L,
        id: SexprId,
        question: Question,
    ) -> Result<Option<Self::End>, Self::Fault>
        requires { IsAt so_far comes self.old lent.old (event.Asked id question) }
        ensures so_far { IfOk result (λ end. end ≡ None → (at : IsAt so_far comes self.old lent.old (event.Asked id question))
            → so_far at.first at.lent_first self.new lent.new × (left self.new < left at.before)) }
        ensures ends { IfOk result (λ end. IfSome end (λ last. (at : IsAt so_far comes self.old lent.old (event.Asked id question))
            → ends at.first at.lent_first self.new lent.new last)) }
        ensures breaks { IfErr result (λ fault. (at : IsAt so_far comes self.old lent.old (event.Asked id question))
            → breaks at.first at.lent_first self.new lent.new fault) };

    /// The script ends without an error.
    fn ended(&mut self, lent: &mut L) -> Result<Self::End, Self::Fault>
        requires { IsAt so_far comes self.old lent.old event.Ended }
        ensures ends { IfOk result (λ last. (at : IsAt so_far comes self.old lent.old event.Ended)
            → ends at.first at.lent_first self.new lent.new last) }
        ensures breaks { IfErr result (λ fault. (at : IsAt so_far comes self.old lent.old event.Ended)
            → breaks at.first at.lent_first self.new lent.new fault) };

    /// A command, or what can't be read in place of one, is refused.
    fn failed(&mut self, lent: &mut L, kind: Kind) -> Result<Self::End, Self::Fault>
        requires { IsAt so_far comes self.old lent.old (event.Failed kind) }
        ensures ends { IfOk result (λ last. (at : IsAt so_far comes self.old lent.old (event.Failed kind))
            → ends at.first at.lent_first self.new lent.new last) }
        ensures breaks { IfErr result (λ fault. (at : IsAt so_far comes self.old lent.old (event.Failed kind))
            → breaks at.first at.lent_first self.new lent.new fault) };
}

/// Goes through a script, event by event, to its end, its first error, or the answer that ends it.
pub fn go_through<L, V: Visitor<L>>(visitor: &mut V, lent: &mut L) -> Result<V::End, V::Fault>
    requires { V.starts visitor.old lent.old }
    ensures ends { IfOk result (V.ends visitor.old lent.old visitor.new lent.new) }
    ensures breaks { IfErr result (V.breaks visitor.old lent.old visitor.new lent.new) }
{
    visitor.begin(lent)?;
    'events: loop {
        match visitor.next()? {
            Event::Told(id, notice) => visitor.told(lent, id, notice)?,
            Event::Asked(id, question) => {
                if let Some(end) = visitor.asked(lent, id, question)? {
                    return Ok(end);
                }
            }
            Event::Ended => return visitor.ended(lent),
            Event::Failed(kind) => return visitor.failed(lent, kind),
        }
    }
}
