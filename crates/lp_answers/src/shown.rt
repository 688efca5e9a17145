// What answers are shown with.
ghost use Rattle.std.specs.Prelude.{length, IfOk};
ghost use Rattle.lp_model.specs.Whole.{CanBeShown, CanPairBeShown};
ghost use Rattle.lp_show.specs.Glossary.{entries_of};
ghost use Rattle.lp_answers.specs.Told.{IsWhole};
ghost use Rattle.lp_answers.specs.Texts.{IsAnswer, names_in};

use lp_model::Answer;
use lp_show::Glossary;
use lp_term::TermRefusal;
use std::alloc::Global;

/// What answers are shown with: the names of the query's variables as they are written, in their order, and the constants of the program.
#[derive(Drop)]
pub struct Shown<'g> {
    pub names: Vec<Vec<u8>>,
    pub glossary: &'g Glossary,
}

impl<'g> Shown<'g> {
    /// The lines of an answer.
    pub fn answer(
        &self,
        alloc: Global,
        number: u64,
        answer: &mut Answer,
    ) -> Result<Vec<u8>, TermRefusal>
        requires { IsWhole (length self.now.names.items) answer.old }
        ensures { IfOk result (λ text. IsAnswer (entries_of self.now.glossary.now.entries.items) (names_in self.now.names.items) number text.items) }
    {
        lp_show::answer(alloc, number, &self.names, answer, self.glossary)
    }
}
