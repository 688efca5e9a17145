// The words of accumulate.
ghost use Rattle.std.specs.Prelude.{◌≡◌, IfOk};
ghost use Rattle.lp_module.specs.Words.{named_words, line_words, accumulate_words};

use lp_base::{Memory, Spot};
use lp_syntax::{Declaration, ModuleText, Sentence};
use std::alloc::Global;

fn words_of(declaration: &Declaration) -> &[Spot]
    ensures { result.now ≡ named_words declaration.now }
{
    match declaration {
        Declaration::Accumulate(words) => words.as_slice(),
        Declaration::Kinds(_, _) => &[],
        Declaration::LocalKinds(_, _) => &[],
        Declaration::Constants(_, _) => &[],
        Declaration::Locals(_, _) => &[],
        Declaration::Abbreviation(_, _, _) => &[],
        Declaration::AccumSig(_) => &[],
        Declaration::Fixities(_, _, _) => &[],
    }
}

fn words_of_line(line: &Sentence) -> &[Spot]
    ensures { result.now ≡ line_words line.now }
{
    match line {
        Sentence::Declares(declaration) => words_of(declaration),
        Sentence::Says(_) => &[],
    }
}

/// The words of a module's accumulate sentences, in text order.
pub(crate) fn accumulated(alloc: Global, text: &ModuleText) -> Result<Vec<Spot>, Memory>
    ensures { IfOk result (λ words. words.items ≡ accumulate_words text.now.lines.items) }
{
    let mut all = Vec::new(alloc);
    for line in text.lines.iter() {
        all.extend_from_slice(words_of_line(line))?;
    }
    Ok(all)
}
