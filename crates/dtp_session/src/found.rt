//! What decided a question, as it is held until the next one.
ghost use Rattle.std.specs.Prelude.{◌≡◌, ◌≢◌, ◌++◌, List, Some, None, MatchOption, IfOk, OnOk};
ghost use Rattle.stn_core.specs.declared.named.NamedValue.{NamedValue};
ghost use Rattle.cert_text.specs.declared.entry.Version.TheVariants.{One};
ghost use Rattle.cert_text.specs.declared.entry.Entry.TheVariants.{Sat, Unsat};
ghost use Rattle.cert_text.specs.Form.{entry_sexpr, file_entry_sexpr, line_of, shown_by};
ghost use Rattle.dtp_entry.specs.declared.report.Report.TheVariants.{Verdicts};
ghost use Rattle.dtp_entry.specs.Entries.{verdict_of};
ghost use Rattle.dtp_entry.specs.Transcripts.{decision_line};
ghost use Rattle.dtp_entry.specs.Written.{WritesOne};
ghost use Rattle.refute_tree.specs.declared.lemma.Lemma.{Lemma};
ghost use Rattle.dtp_session.specs.Leasts.{minimum_of};
ghost use Rattle.dtp_session.specs.code.Forms.{shown_in, schedule_shown, CiteSame};

use crate::form::forms_of;
use crate::least::Minimum;
use cert_stream::{write_entry, write_shown};
use cert_text::{Entry, Version};
use dtp_entry::SessionError;
use dtp_io::Sink;
use kept_lemmas::Item;
use refute_tree::Refutation;
use smt_answer::{minimum_text, unbounded_text, verdict_text};
use smt_script::Satisfiability;
use std::alloc::{AllocError, Global};
use std::marker::Model;
use stn_core::{NamedValues, Problem};

/// The entry of a question. Contracts see the entry as it would be written.
pub struct Found {
    entry: Entry,
    // The problem that a refutation is of, where its lemmas are as the search left them: their form is made when they
    // are written.
    unformed: Option<Problem>,
}

impl Drop for Found {
    fn drop(self) {
        let Found { entry, unformed } = self;
        drop(entry);
        drop(unformed);
    }
}

impl Model for Found {
    ghost use Rattle.cert_text.specs.declared.entry.Entry.{Entry as Shown};
    ghost use Rattle.dtp_session.specs.code.Forms.{shown_as};

    ghost Value = { Shown };

    ghost view = { λ f. shown_as f.unformed f.entry };
}

impl Found {
    /// An entry as it is written.
    pub fn shown(entry: Entry) -> Self
        ensures { result ≡ entry }
    {
        Found {
            entry,
            unformed: None,
        }
    }

    /// An entry over the problem whose refutation is to be written in the first version's form, if at all.
    pub fn unformed(problem: Problem, entry: Entry) -> Self
        ensures { result ≡ shown_in One problem.clauses entry }
    {
        Found {
            entry,
            unformed: Some(problem),
        }
    }

    /// What the entry says of the assertions.
    pub fn verdict(&self) -> Satisfiability
        ensures { result ≡ verdict_of self.now }
    {
        match &self.entry {
            Entry::Unsat(_) => Satisfiability::Unsat,
            Entry::Sat(_) | Entry::Best(_, _, _) | Entry::Unbounded(_, _) => Satisfiability::Sat,
        }
    }

    /// The schedule, where there is one: the entry's own, or the one that its values of the time points give.
    pub fn schedule<'b>(&'b self, given: &'b Option<NamedValues>) -> Option<&'b NamedValues>
        ensures { MatchOption result (schedule_shown given.now self.now ≡ None)
            (λ values. schedule_shown given.now self.now ≡ Some values.now) }
    {
        match &self.entry {
            Entry::Sat(values) => Some(values),
            Entry::Best(_, values, _) => Some(values),
            Entry::Unbounded(_, _) => given.as_ref(),
            Entry::Unsat(_) => None,
        }
    }

    /// The refutation, where the entry is one: as the search left it, or as it is written. Both cite the same roots.
    pub fn refutation(&self) -> Option<&Refutation>
        ensures { MatchOption result ((lemmas : List Lemma) → self.now ≢ Unsat lemmas)
            (λ refutation. (lemmas : List Lemma) × (self.now ≡ Unsat lemmas) × CiteSame lemmas refutation.now) }
    {
        unsat_cores::lengthened_law();
        match &self.entry {
            Entry::Unsat(refutation) => Some(refutation),
            Entry::Sat(_) | Entry::Best(_, _, _) | Entry::Unbounded(_, _) => None,
        }
    }

    /// The entry of a check-sat with the same schedule.
    pub fn satisfying(self, given: Option<NamedValues>) -> Self
        requires { (schedule : List NamedValue) × (schedule_shown given self ≡ Some schedule) }
        ensures { (schedule : List NamedValue) → schedule_shown given self ≡ Some schedule → result ≡ Sat schedule }
    {
        let Found {
            entry,
            unformed: _unformed,
        } = self;
        match entry {
            Entry::Sat(schedule) => Found::shown(Entry::Sat(schedule)),
            Entry::Best(_, schedule, _) => Found::shown(Entry::Sat(schedule)),
            Entry::Unbounded(_, _) => match given {
                Some(schedule) => Found::shown(Entry::Sat(schedule)),
                None => unreachable!(),
            },
            Entry::Unsat(_) => unreachable!(),
        }
    }

    /// The least value that it tells, with a schedule that has it.
    pub fn minimum(&self, alloc: Global) -> Result<Option<Minimum>, AllocError>
        ensures { IfOk result (λ minimum. minimum ≡ minimum_of self.now) }
    {
        match &self.entry {
            Entry::Best(value, schedule, _) => {
                let values = Vec::from_slice(alloc, schedule.as_slice())?;
                Ok(Some(Minimum {
                    value: *value,
                    schedule: NamedValues::new(values),
                }))
            }
            Entry::Sat(_) | Entry::Unsat(_) | Entry::Unbounded(_, _) => Ok(None),
        }
    }

    /// Appends what a transcript answers.
    pub fn answer_text(&self, text: &mut Vec<u8>) -> Result<(), AllocError>
        ensures { OnOk result (text.new.items ≡ text.old.items ++ decision_line Verdicts self.now) }
    {
        match &self.entry {
            Entry::Sat(_) => verdict_text(true, text),
            Entry::Unsat(_) => verdict_text(false, text),
            Entry::Best(minimum, _, _) => minimum_text(*minimum, text),
            Entry::Unbounded(_, _) => unbounded_text(text),
        }
    }

    /// Writes the entry's line with these items in the place of its lemmas, item by item.
    pub fn write_with<K: Sink>(
        &self,
        alloc: Global,
        items: &[Item],
        sink: &mut K,
    ) -> Result<(), SessionError>
        ensures { WritesOne (λ text. text ≡ line_of (file_entry_sexpr (shown_by self.now items.now))) (K.holds sink.old) (K.holds sink.new)
            (K.faults sink.old) (K.faults sink.new) result }
    {
        write_shown(alloc, &self.entry, items, sink)
    }

    /// Writes the entry's line, lemma by lemma.
    pub fn write<K: Sink>(&self, alloc: Global, sink: &mut K) -> Result<(), SessionError>
        ensures { WritesOne (λ text. text ≡ line_of (entry_sexpr self.now)) (K.holds sink.old) (K.holds sink.new)
            (K.faults sink.old) (K.faults sink.new) result }
    {
        match (&self.unformed, &self.entry) {
            (Some(problem), Entry::Unsat(refutation)) => {
                let shown = forms_of(alloc, Version::One, problem, refutation.as_slice())?;
                write_entry(alloc, &Entry::Unsat(shown), sink)
            }
            (Some(problem), Entry::Best(minimum, schedule, refutation)) => {
                let shown = forms_of(alloc, Version::One, problem, refutation.as_slice())?;
                let values = NamedValues::new(Vec::from_slice(alloc, schedule.as_slice())?);
                write_entry(alloc, &Entry::Best(*minimum, values, shown), sink)
            }
            _ => write_entry(alloc, &self.entry, sink),
        }
    }
}
