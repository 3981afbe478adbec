//! What is told of a command that asks for no decision.
ghost use Rattle.std.specs.Prelude.{◌≡◌, ◌≢◌, [], length, None, IfOk, OnOk};
ghost use Rattle.smt_sexpr.specs.Tree.{Sexpr, Items};
ghost use Rattle.smt_sexpr.specs.Table.{Means, MeansEach, HasMeaning};
ghost use Rattle.smt_sexpr.specs.Shapes.{HaveMeaning};
ghost use Rattle.stn_core.specs.Named.{AreWithinLimit};
ghost use Rattle.idl_node.specs.Truth.{point_values, AreTruths};
ghost use Rattle.idl_term.specs.Contexts.{IsScheduleFor, environment, scope_of};
ghost use Rattle.idl_term.specs.Values.{value};
ghost use Rattle.smt_answer.specs.code.Answers.{AreAnswers};
ghost use Rattle.smt_script.specs.States.{State as Meaning, terms_refusal};
ghost use Rattle.smt_script.specs.declared.state.Notice.TheVariants as told_of;
ghost use Rattle.script_walk.specs.code.Standing.{Stands};
ghost use Rattle.dtp_entry.specs.Transcripts.{told};
ghost use Rattle.dtp_entry.specs.declared.report.Report.TheVariants.{Verdicts};
ghost use Rattle.dtp_session.specs.code.Sessions.{Holds, MayTell, KeepsReading, KeepsVerdict, Tells};

use crate::piece::Piece;
use crate::session::Session;
use dtp_entry::Report;
use idl_term::{TermError, context_law};
use smt_answer::{
    assumptions_text, core_text, echo_text, info_text, model_text, success_text, unsupported_text,
    values_text,
};
use smt_script::{Notice, State, TermValue, asked_terms, echoed_text};
use smt_sexpr::{SexprId, Sexprs};
use std::alloc::{AllocError, Global};
use stn_core::NamedValues;
use unsat_cores::cited_roots;

/// The values of the terms, which were tested before. No node of theirs is kept.
fn values_of<'a>(
    alloc: Global,
    sexprs: &Sexprs<'a>,
    terms: &[SexprId],
    state: &mut State<'a>,
    values: &NamedValues,
    marks: &mut Vec<bool>,
) -> Result<Vec<TermValue>, AllocError>
    requires accepted { (s : Meaning) × (ts : Items) × Stands state.old s × MeansEach sexprs.now terms.now ts
        × IsScheduleFor s.context values.now
        × (terms_refusal (scope_of s.context) s.context.nodes ts ≡ None) }
    requires within { AreWithinLimit values.now }
    requires marks { AreTruths state.old.nodes (point_values values.now) marks.old.items }
    ensures answers { IfOk result (λ answers. (s : Meaning) (ts : Items) → Stands state.old s
        → MeansEach sexprs.now terms.now ts → IsScheduleFor s.context values.now
        → AreAnswers (value (environment s.context values.now)) ts answers.items) }
    ensures counted { IfOk result (λ answers. length answers.items ≡ length terms.now) }
    ensures same { state.new ≡ state.old }
    ensures marks { AreTruths state.old.nodes (point_values values.now) marks.new.items }
{
    let mut answers = Vec::new(alloc);
    for term in terms {
        match state.value(sexprs, *term, values, marks) {
            Ok(answer) => answers.push(answer)?,
            Err(TermError::Refused(_)) => unreachable!(),
            Err(TermError::OutOfMemory) => return Err(AllocError),
        }
    }
    Ok(answers)
}

impl<'a> Session<'a> {
    /// `get-model`.
    fn tell_model(&mut self) -> Result<(), AllocError>
        requires may { (s : Meaning) × (x : Sexpr) × Holds self.old s × MayTell s x told_of.Model }
        requires empty { self.old.text.items ≡ [] }
        ensures told { OnOk result ((s : Meaning) (x : Sexpr) → Holds self.old s → MayTell s x told_of.Model
            → self.new.text.items ≡ told Verdicts self.old.held s x told_of.Model) }
        ensures keeps { KeepsVerdict self.old self.new }
        ensures marks { self.new.marks ≡ self.old.marks }
    {
        let Some(found) = &self.held else {
            unreachable!()
        };
        let Some(values) = found.schedule(&self.given) else {
            unreachable!()
        };
        model_text(self.walk.state.names(), values, &mut self.text)?;
        Ok(())
    }

    /// `get-value`.
    fn tell_values(&mut self, id: SexprId) -> Result<(), AllocError>
        requires may { (s : Meaning) × (x : Sexpr) × Holds self.old s × Means self.old.walk.sexprs id x
            × MayTell s x told_of.Values }
        requires empty { self.old.text.items ≡ [] }
        ensures told { OnOk result ((s : Meaning) (x : Sexpr) → Holds self.old s → Means self.old.walk.sexprs id x
            → MayTell s x told_of.Values
            → (self.new.text.items ≡ told Verdicts self.old.held s x told_of.Values) × Holds self.new s) }
        ensures keeps { KeepsVerdict self.old self.new }
    {
        let Some(found) = &self.held else {
            unreachable!()
        };
        let Some(values) = found.schedule(&self.given) else {
            unreachable!()
        };
        let walk = &mut self.walk;
        let terms = asked_terms(&walk.sexprs, id);
        let answers = values_of(
            self.alloc,
            &walk.sexprs,
            terms,
            &mut walk.state,
            values,
            &mut self.marks,
        )?;
        values_text(&walk.sexprs, terms, &answers, &mut self.text)?;
        Ok(())
    }

    /// `get-unsat-core`, where nothing is assumed.
    fn tell_core_of_active(&mut self) -> Result<(), AllocError>
        requires may { (s : Meaning) × (x : Sexpr) × Holds self.old s × MayTell s x told_of.Core }
        requires alone { self.old.walk.state.assumed ≡ None }
        requires empty { self.old.text.items ≡ [] }
        ensures told { OnOk result ((s : Meaning) (x : Sexpr) → Holds self.old s → MayTell s x told_of.Core
            → self.new.text.items ≡ told Verdicts self.old.held s x told_of.Core) }
        ensures keeps { KeepsVerdict self.old self.new }
        ensures marks { self.new.marks ≡ self.old.marks }
    {
        context_law();
        let Some(found) = &self.held else {
            unreachable!()
        };
        let Some(refutation) = found.refutation() else {
            unreachable!()
        };
        let state = &self.walk.state;
        let cited = cited_roots(self.alloc, state.nodes(), state.roots(), refutation)?;
        core_text(state, cited.as_slice(), &mut self.text)?;
        Ok(())
    }

    /// `get-unsat-core`.
    fn tell_core(&mut self) -> Result<(), AllocError>
        requires may { (s : Meaning) × (x : Sexpr) × Holds self.old s × MayTell s x told_of.Core }
        requires empty { self.old.text.items ≡ [] }
        ensures told { OnOk result ((s : Meaning) (x : Sexpr) → Holds self.old s → MayTell s x told_of.Core
            → self.new.text.items ≡ told Verdicts self.old.held s x told_of.Core) }
        ensures keeps { KeepsVerdict self.old self.new }
        ensures marks { self.new.marks ≡ self.old.marks }
    {
        match self.walk.state.assumptions() {
            Some(_) => core_text(&self.walk.state, self.cited.as_slice(), &mut self.text)?,
            None => self.tell_core_of_active()?,
        }
        Ok(())
    }

    /// `get-unsat-assumptions`.
    fn tell_assumptions(&mut self) -> Result<(), AllocError>
        requires may { (s : Meaning) × (x : Sexpr) × Holds self.old s × MayTell s x told_of.Assumptions }
        requires empty { self.old.text.items ≡ [] }
        ensures told { OnOk result ((s : Meaning) (x : Sexpr) → Holds self.old s → MayTell s x told_of.Assumptions
            → self.new.text.items ≡ told Verdicts self.old.held s x told_of.Assumptions) }
        ensures keeps { KeepsVerdict self.old self.new }
        ensures marks { self.new.marks ≡ self.old.marks }
    {
        let state = &self.walk.state;
        let Some(literals) = state.assumptions() else {
            unreachable!()
        };
        let active = state.roots().len();
        let cited = self.cited.as_slice();
        assumptions_text(literals, &cited[active..], &mut self.text)?;
        Ok(())
    }

    /// What rests on no verdict.
    fn tell_plain(&mut self, id: SexprId, notice: Notice) -> Result<(), AllocError>
        requires meaning { HasMeaning self.old.walk.sexprs id }
        requires model { notice ≢ told_of.Model }
        requires values { notice ≢ told_of.Values }
        requires proof { notice ≢ told_of.Proof }
        requires core { notice ≢ told_of.Core }
        requires assumptions { notice ≢ told_of.Assumptions }
        requires empty { self.old.text.items ≡ [] }
        ensures told { OnOk result ((s : Meaning) (x : Sexpr) → Holds self.old s → Means self.old.walk.sexprs id x
            → self.new.text.items ≡ told Verdicts self.old.held s x notice) }
        ensures keeps { KeepsVerdict self.old self.new }
        ensures marks { self.new.marks ≡ self.old.marks }
    {
        match notice {
            Notice::Success => {
                if self.walk.state.print_success() {
                    success_text(&mut self.text)
                } else {
                    Ok(())
                }
            }
            Notice::Unsupported => unsupported_text(&mut self.text),
            Notice::Inform(information) => {
                let levels = self.walk.state.levels();
                info_text(information, levels, &mut self.text)?;
                Ok(())
            }
            Notice::Echo => echo_text(echoed_text(&self.walk.sexprs, id), &mut self.text),
            Notice::Model | Notice::Values | Notice::Proof | Notice::Core | Notice::Assumptions =>
                unreachable!(),
        }
    }

    /// The piece that tells of the command in a transcript.
    fn tell_in_transcript(&mut self, id: SexprId, notice: Notice) -> Result<Piece, AllocError>
        requires may { (s : Meaning) × (x : Sexpr) × Holds self.old s × Means self.old.walk.sexprs id x
            × MayTell s x notice }
        requires report { self.old.report ≡ Verdicts }
        requires empty { self.old.text.items ≡ [] }
        ensures tells { IfOk result (λ piece. (s : Meaning) (x : Sexpr) → Holds self.old s
            → Means self.old.walk.sexprs id x → MayTell s x notice
            → Tells self.old self.new s x notice piece) }
        ensures keeps { KeepsReading self.old self.new }
    {
        match notice {
            Notice::Proof => return Ok(Piece::Proof),
            Notice::Model => self.tell_model()?,
            Notice::Values => self.tell_values(id)?,
            Notice::Core => self.tell_core()?,
            Notice::Assumptions => self.tell_assumptions()?,
            _ => self.tell_plain(id, notice)?,
        }
        Ok(Piece::Told)
    }

    /// The piece that tells of the command. A certificate tells of none.
    pub fn tell(&mut self, id: SexprId, notice: Notice) -> Result<Piece, AllocError>
        requires { (s : Meaning) × (x : Sexpr) × Holds self.old s × Means self.old.walk.sexprs id x
            × MayTell s x notice }
        ensures tells { IfOk result (λ piece. (s : Meaning) (x : Sexpr) → Holds self.old s
            → Means self.old.walk.sexprs id x → MayTell s x notice
            → Tells self.old self.new s x notice piece) }
        ensures keeps { KeepsReading self.old self.new }
    {
        self.text.clear();
        match self.report {
            Report::Certificate(_) => Ok(Piece::Told),
            Report::Verdicts => {
                let piece = self.tell_in_transcript(id, notice)?;
                Ok(piece)
            }
        }
    }
}
