// What answers queries on an image.
ghost use Rattle.std.specs.Prelude.{◌≡◌, ◌⊎◌, ℕ, List, map, Err, false, is_some, IfOk, IfErr};
ghost use Rattle.lp_base.specs.Counts.{Counts};
ghost use Rattle.lp_code.specs.Length.{AllFit};
ghost use Rattle.lp_query.specs.Fitting.{all_fit_once};

use crate::answering::{Limits, answer};
use crate::asked::{all_shown, some_shown};
use crate::compiled::Compiled;
use crate::fault::AskRefusal;
use crate::seen::Seen;
use lp_answers::Written;
use lp_base::{Memory, Sink};
use lp_machine::Plan;
use lp_verify::Verified;
use lp_watch::{Counter, Crowd, Watch};
use std::alloc::Global;

/// Answers queries on one image. What queries see of it is made once; no query changes the answers of another.
#[derive(Drop)]
pub struct Asker<'i> {
    alloc: Global,
    image: &'i Verified,
    seen: Seen,
    plan: Plan,
    ghost fit: { AllFit image.now.image.code.records.items } by { all_fit_once image.now.image.code.records.items },
}

impl<'i> Asker<'i> {
    ghost use Rattle.lp_query.specs.Variables.{AreVariables};
    ghost use Rattle.lp_query.specs.Faults.{IsOfQuery, IsAskRefusal, IsNotThere, IsUnwritten};
    ghost use Rattle.lp_query.specs.Outcomes.{entries_in, reader, ShowsVariables, Answered, Broke};

    /// What answers queries on this image.
    pub fn new(alloc: Global, image: &'i Verified) -> Result<Asker<'i>, Memory>
        requires { AllFit image.now.image.code.records.items }
    {
        let seen = Seen::of(alloc, image.image())?;
        let plan = Plan::of(alloc, image)?;
        Ok(Asker {
            alloc,
            image,
            seen,
            plan,
        })
    }

    fn compile(&mut self, query: &[u8]) -> Result<Compiled, AskRefusal>
        ensures fit { IfOk result (λ c. AllFit c.code.records.items) }
        ensures refused { IfErr result (IsOfQuery query.now) }
        ensures variables { IfOk result (λ c. AreVariables (reader self.old) query.now (map (λ n. n.items) c.names.items)) }
        ensures image { self.new.image ≡ self.old.image }
        ensures entries { entries_in self.new ≡ entries_in self.old }
        ensures reader { reader self.new ≡ reader self.old }
    {
        self.seen.renew(self.alloc)?;
        Compiled::of(self.alloc, &mut self.seen, query)
    }

    /// Writes the answers of a query, one piece each, then the last line with the reports of the watchers. There are at most so many steps and answers.
    ///
    /// # Errors
    /// The first refusal of the query, before anything is written; `Write` after a prefix of the output, `Memory` after whole answers.
    pub fn ask<K: Sink, W: Watch>(
        &mut self,
        query: &[u8],
        steps: u64,
        answers: u64,
        watchers: Option<&mut Vec<W>>,
        out: &mut K,
    ) -> Result<Written, AskRefusal>
        ensures refused { IfErr result (IsAskRefusal query.now) }
        ensures image { self.new.image ≡ self.old.image }
        ensures entries { entries_in self.new ≡ entries_in self.old }
        ensures reader { reader self.new ≡ reader self.old }
        ensures written { IfOk result (λ w. (names : List (List ℕ)) × (AreVariables (reader self.old) query.now names × Answered (entries_in self.old) names (is_some watchers.entry) answers (K.written out.old) (K.written out.new) w)) }
        ensures broke { IfErr result (λ e. (names : List (List ℕ)) × ((AreVariables (reader self.old) query.now names ⊎ IsUnwritten (K.written out.old) (K.written out.new) e) × Broke (entries_in self.old) names (is_some watchers.entry) answers (K.written out.old) (K.written out.new) e)) }
        ensures faults { Counts (result ≡ Err AskRefusal.Write) (K.faults out.old) (K.faults out.new) }
    {
        let compiled = self.compile(query)?;
        let asked = all_shown(self.alloc, compiled)?;
        let limits = Limits { steps, answers };
        match watchers {
            Some(watchers) => {
                let mut crowd = Crowd::new(self.alloc, watchers);
                answer(
                    self.alloc,
                    self.image,
                    &self.plan,
                    &self.seen.glossary,
                    asked,
                    limits,
                    true,
                    &mut crowd,
                    out,
                )
            }
            None => {
                let mut nobody: Vec<W> = Vec::new(self.alloc);
                let mut crowd = Crowd::silent(self.alloc, &mut nobody);
                answer(
                    self.alloc,
                    self.image,
                    &self.plan,
                    &self.seen.glossary,
                    asked,
                    limits,
                    false,
                    &mut crowd,
                    out,
                )
            }
        }
    }

    /// The same without watchers, where each answer shows these variables alone, in this order.
    ///
    /// # Errors
    /// As for `ask`, and behind the refusals of the query `NotThere` with the first name that is no variable of it.
    pub fn ask_shown<K: Sink>(
        &mut self,
        query: &[u8],
        shown: &[Vec<u8>],
        steps: u64,
        answers: u64,
        out: &mut K,
    ) -> Result<Written, AskRefusal>
        ensures refused { IfErr result (λ e. IsAskRefusal query.now e ⊎ ((names : List (List ℕ)) × (AreVariables (reader self.old) query.now names × IsNotThere names (map (λ n. n.items) shown.now) e))) }
        ensures image { self.new.image ≡ self.old.image }
        ensures entries { entries_in self.new ≡ entries_in self.old }
        ensures reader { reader self.new ≡ reader self.old }
        ensures there { IfOk result (λ _. ShowsVariables (reader self.old) query.now (map (λ n. n.items) shown.now)) }
        ensures shows { IfErr result (λ e. ShowsVariables (reader self.old) query.now (map (λ n. n.items) shown.now) ⊎ IsUnwritten (K.written out.old) (K.written out.new) e) }
        ensures written { IfOk result (Answered (entries_in self.old) (map (λ n. n.items) shown.now) false answers (K.written out.old) (K.written out.new)) }
        ensures broke { IfErr result (Broke (entries_in self.old) (map (λ n. n.items) shown.now) false answers (K.written out.old) (K.written out.new)) }
        ensures faults { Counts (result ≡ Err AskRefusal.Write) (K.faults out.old) (K.faults out.new) }
    {
        let compiled = self.compile(query)?;
        let asked = some_shown(self.alloc, compiled, shown)?;
        let limits = Limits { steps, answers };
        let mut nobody: Vec<Counter> = Vec::new(self.alloc);
        let mut crowd = Crowd::silent(self.alloc, &mut nobody);
        answer(
            self.alloc,
            self.image,
            &self.plan,
            &self.seen.glossary,
            asked,
            limits,
            false,
            &mut crowd,
            out,
        )
    }
}
