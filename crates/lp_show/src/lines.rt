ghost use Rattle.std.specs.Prelude.{◌≡◌, ◌<◌, ◌≤◌, ◌^◌, ◌++◌, ℕ, List, length, map, All, IfOk, IfErr, OnOk, [], codes, decimal, if◌then◌else◌};
ghost use Rattle.lp_calculus.specs.Term.{Term};
ghost use Rattle.lp_term.specs.Frame.{in_order};
ghost use Rattle.lp_term.specs.Nodes.{Extends, tree};
ghost use Rattle.lp_term.specs.Spine.{LooseBelow};
ghost use Rattle.lp_model.specs.Shown.{is_shown, with_variables, shown_answer, shown_term, pair_lines, side, value_lines, values_shown, variables_of_pairs, variables_of_values};
ghost use Rattle.lp_model.specs.Whole.{CanBeShown, CanPairBeShown};
ghost use Rattle.lp_show.specs.Forms.{AreForms, AreSides, IsDeep, IsFirstDeep, IsShownForm, pair_trees, sides_of, values_of};
ghost use Rattle.lp_show.specs.Glossary.{entries_of};
ghost use Rattle.lp_show.specs.Lines.{value_line, pair_line};
ghost use Rattle.lp_show.specs.Named.{all, IsReady};
ghost use Rattle.lp_show.specs.Scene.{scene_of};
ghost use Rattle.lp_show.specs.Sides.{side_trees, IsSidesIn};
ghost use Rattle.lp_show.specs.Written.{IsIdle};

use crate::forms::{Sides, form_of, is_shown, pair_forms, value_forms};
use crate::glossary::Glossary;
use crate::leaves::push_number;
use crate::names::Names;
use crate::place::Place;
use crate::variables::add_variables;
use crate::write::{Context, Writer, write_term};
use indexmap::IndexSet;
use lp_base::Memory;
use lp_model::Answer;
use lp_term::{Bank, TermId, TermRefusal};
use std::alloc::Global;

// The text of a normal term.
fn normal_text(
    alloc: Global,
    bank: &Bank,
    term: TermId,
    glossary: &Glossary,
) -> Result<Vec<u8>, Memory>
    requires { term.0 < length bank.now.terms }
    ensures { IfOk result (λ text. text.items ≡ shown_term (entries_of glossary.now.entries.items) (tree bank.now term.0)) }
{
    let mut seen = IndexSet::new(alloc);
    add_variables(alloc, bank, term, &mut seen)?;
    let names = Names::new(alloc, glossary.entries.as_slice())?;
    let context = Context {
        alloc,
        bank,
        names: &names,
        seen: &seen,
    };
    let mut writer = Writer::new(alloc, Vec::new(alloc));
    write_term(&context, term, Place::Alone, &mut writer)?;
    Ok(writer.out)
}

/// The shown text of a term, in beta-eta normal form.
///
/// # Errors
/// `Deep` exactly where `normal_form` with both limits 1,000,000 refuses the term.
pub fn term(
    alloc: Global,
    term: TermId,
    bank: &mut Bank,
    glossary: &Glossary,
) -> Result<Vec<u8>, TermRefusal>
    requires { CanBeShown bank.old term }
    ensures kept { Extends bank.old bank.new }
    ensures text { IfOk result (λ text. (form : Term) × IsShownForm (tree bank.old term.0) form × (text.items ≡ shown_term (entries_of glossary.now.entries.items) form)) }
    ensures refused { IfErr result (IsDeep (tree bank.old term.0)) }
{
    let form = match form_of(alloc, bank, term) {
        Ok(form) => form,
        Err(refusal) => return Err(refusal),
    };
    let text = normal_text(alloc, bank, form, glossary)?;
    Ok(text)
}

// Adds the variables of a value that is shown.
fn add_value(
    alloc: Global,
    bank: &Bank,
    name: &[u8],
    form: TermId,
    seen: &mut IndexSet<u64>,
) -> Result<(), Memory>
    requires { form.0 < length bank.now.terms }
    ensures { OnOk result (seen.new.keys ≡ (if is_shown name.now then with_variables seen.old.keys (tree bank.now form.0) else seen.old.keys)) }
{
    if !is_shown(name) {
        return Ok(());
    }
    add_variables(alloc, bank, form, seen)?;
    Ok(())
}

// Adds the variables of the values that are shown.
fn add_values(
    alloc: Global,
    bank: &Bank,
    names: &[Vec<u8>],
    forms: &Vec<TermId>,
    seen: &mut IndexSet<u64>,
) -> Result<(), Memory>
    requires names { length names.now ≡ length forms.now.items }
    requires forms { All (λ t. t.0 < length bank.now.terms) forms.now.items }
    ensures { OnOk result (seen.new.keys ≡ variables_of_values seen.old.keys (values_shown (map (λ n. n.items) names.now) (in_order bank.now forms.now.items))) }
{
    let mut at = 0;
    'values: while at < names.len() {
        add_value(alloc, bank, names[at].as_slice(), forms[at], seen)?;
        at += 1;
    }
    Ok(())
}

// Adds the variables of the sides.
fn add_sides(
    alloc: Global,
    bank: &Bank,
    sides: &Vec<Sides>,
    seen: &mut IndexSet<u64>,
) -> Result<(), Memory>
    requires { All (IsSidesIn bank.now) sides.now.items }
    ensures { OnOk result (seen.new.keys ≡ variables_of_pairs seen.old.keys (side_trees bank.now sides.now.items)) }
{
    let mut at = 0;
    'sides: while at < sides.len() {
        let side = sides[at];
        add_variables(alloc, bank, side.left, seen)?;
        add_variables(alloc, bank, side.right, seen)?;
        at += 1;
    }
    Ok(())
}

// The line of a value that is shown.
fn push_value<'a>(
    context: &Context<'a>,
    name: &[u8],
    value: TermId,
    writer: &mut Writer<'a>,
) -> Result<(), Memory>
    requires ready { IsReady context.now.names.now }
    requires value { value.0 < length context.now.bank.now.terms }
    requires idle { IsIdle (all context.now.names.now) writer.old }
    ensures idle { OnOk result (IsIdle (all context.now.names.now) writer.new) }
    ensures text { OnOk result (writer.new.out.items ≡ writer.old.out.items ++ (if is_shown name.now then value_line (all context.now.names.now) context.now.seen.now.keys name.now (tree context.now.bank.now value.0) else [])) }
{
    if !is_shown(name) {
        return Ok(());
    }
    writer.out.extend_from_slice(b"  ")?;
    writer.out.extend_from_slice(name)?;
    writer.out.extend_from_slice(b" = ")?;
    write_term(context, value, Place::Alone, writer)?;
    writer.out.extend_from_slice(b"\n")?;
    Ok(())
}

// The line of a residual pair.
fn push_pair<'a>(context: &Context<'a>, sides: Sides, writer: &mut Writer<'a>) -> Result<(), Memory>
    requires ready { IsReady context.now.names.now }
    requires sides { IsSidesIn context.now.bank.now sides }
    requires idle { IsIdle (all context.now.names.now) writer.old }
    ensures idle { OnOk result (IsIdle (all context.now.names.now) writer.new) }
    ensures text { OnOk result (writer.new.out.items ≡ writer.old.out.items ++ pair_line (all context.now.names.now) context.now.seen.now.keys (tree context.now.bank.now sides.left.0) (tree context.now.bank.now sides.right.0)) }
{
    writer.out.extend_from_slice(b"  where ")?;
    write_term(context, sides.left, Place::Side, writer)?;
    writer.out.extend_from_slice(b" == ")?;
    write_term(context, sides.right, Place::Side, writer)?;
    writer.out.extend_from_slice(b"\n")?;
    Ok(())
}

// A line for each value that is shown.
fn push_values<'a>(
    context: &Context<'a>,
    names: &[Vec<u8>],
    forms: &Vec<TermId>,
    writer: &mut Writer<'a>,
) -> Result<(), Memory>
    requires ready { IsReady context.now.names.now }
    requires names { length names.now ≡ length forms.now.items }
    requires forms { All (λ t. t.0 < length context.now.bank.now.terms) forms.now.items }
    requires idle { IsIdle (all context.now.names.now) writer.old }
    ensures idle { OnOk result (IsIdle (all context.now.names.now) writer.new) }
    ensures text { OnOk result (writer.new.out.items ≡ writer.old.out.items ++ value_lines (all context.now.names.now) context.now.seen.now.keys (values_shown (map (λ n. n.items) names.now) (in_order context.now.bank.now forms.now.items))) }
{
    let mut at = 0;
    'values: while at < names.len() {
        push_value(context, names[at].as_slice(), forms[at], writer)?;
        at += 1;
    }
    Ok(())
}

// A line for each pair.
fn push_pairs<'a>(
    context: &Context<'a>,
    sides: &Vec<Sides>,
    writer: &mut Writer<'a>,
) -> Result<(), Memory>
    requires ready { IsReady context.now.names.now }
    requires sides { All (IsSidesIn context.now.bank.now) sides.now.items }
    requires idle { IsIdle (all context.now.names.now) writer.old }
    ensures idle { OnOk result (IsIdle (all context.now.names.now) writer.new) }
    ensures text { OnOk result (writer.new.out.items ≡ writer.old.out.items ++ pair_lines (all context.now.names.now) context.now.seen.now.keys (side_trees context.now.bank.now sides.now.items)) }
{
    let mut at = 0;
    'pairs: while at < sides.len() {
        push_pair(context, sides[at], writer)?;
        at += 1;
    }
    Ok(())
}

// The line of an answer's number.
fn first_line(alloc: Global, number: u64) -> Result<Vec<u8>, Memory>
    ensures { IfOk result (λ text. text.items ≡ codes "answer " ++ (decimal number ++ codes "\n")) }
{
    let mut text = Vec::from_slice(alloc, b"answer ")?;
    push_number(number, &mut text)?;
    text.extend_from_slice(b"\n")?;
    Ok(text)
}

// The lines of an answer whose values and sides are normal.
fn normal_lines(
    alloc: Global,
    number: u64,
    names: &[Vec<u8>],
    bank: &Bank,
    forms: &Vec<TermId>,
    sides: &Vec<Sides>,
    glossary: &Glossary,
) -> Result<Vec<u8>, Memory>
    requires names { length names.now ≡ length forms.now.items }
    requires forms { All (λ t. t.0 < length bank.now.terms) forms.now.items }
    requires sides { All (IsSidesIn bank.now) sides.now.items }
    ensures { IfOk result (λ text. text.items ≡ shown_answer (entries_of glossary.now.entries.items) number (map (λ n. n.items) names.now) (in_order bank.now forms.now.items) (side_trees bank.now sides.now.items)) }
{
    let mut seen = IndexSet::new(alloc);
    add_values(alloc, bank, names, forms, &mut seen)?;
    add_sides(alloc, bank, sides, &mut seen)?;
    let known = Names::new(alloc, glossary.entries.as_slice())?;
    let context = Context {
        alloc,
        bank,
        names: &known,
        seen: &seen,
    };
    let mut writer = Writer::new(alloc, first_line(alloc, number)?);
    push_values(&context, names, forms, &mut writer)?;
    push_pairs(&context, sides, &mut writer)?;
    Ok(writer.out)
}

/// The lines of an answer: its number, a line for each variable of the query but `_`, and a line for each residual pair.
///
/// # Errors
/// `Deep` exactly where `normal_form` with both limits 1,000,000 refuses a value that is shown, or a side; it is that of the first one.
pub fn answer(
    alloc: Global,
    number: u64,
    names: &[Vec<u8>],
    answer: &mut Answer,
    glossary: &Glossary,
) -> Result<Vec<u8>, TermRefusal>
    requires names { length names.now ≡ length answer.old.values.items }
    requires values { All (CanBeShown answer.old.bank) answer.old.values.items }
    requires pairs { All (CanPairBeShown answer.old.bank) answer.old.pairs.items }
    ensures kept { Extends answer.old.bank answer.new.bank }
    ensures values { answer.new.values ≡ answer.old.values }
    ensures pairs { answer.new.pairs ≡ answer.old.pairs }
    ensures text { IfOk result (λ text. (forms : List Term) × ((sides : List (Term × Term)) × (
        AreForms (map (λ n. n.items) names.now) (in_order answer.old.bank answer.old.values.items) forms ×
        AreSides (pair_trees answer.old.bank answer.old.pairs.items) sides ×
        (text.items ≡ shown_answer (entries_of glossary.now.entries.items) number (map (λ n. n.items) names.now) forms sides)))) }
    ensures refused { IfErr result (IsFirstDeep (values_of (map (λ n. n.items) names.now) (in_order answer.old.bank answer.old.values.items) ++ sides_of (pair_trees answer.old.bank answer.old.pairs.items))) }
{
    let forms = match value_forms(alloc, names, &mut answer.bank, &answer.values) {
        Ok(forms) => forms,
        Err(refusal) => return Err(refusal),
    };
    let sides = match pair_forms(alloc, &mut answer.bank, &answer.pairs) {
        Ok(sides) => sides,
        Err(refusal) => return Err(refusal),
    };
    let text = normal_lines(alloc, number, names, &answer.bank, &forms, &sides, glossary)?;
    Ok(text)
}
