// The head of a record.
ghost use Rattle.std.specs.Prelude.{◌≡◌, ◌<◌, ◌≤◌, [], map, true, IfOk, OnOk, IfErr};
ghost use Rattle.lp_gen.specs.Registers.{argument_takes, behind_argument, head_arguments_take, behind_arguments, head_types_take, head_takes, behind_head};
ghost use Rattle.lp_gen.specs.inner.Fitting.{IsRefused};
ghost use Rattle.lp_gen.specs.inner.Using.{Uses, Lacks};
ghost use Rattle.lp_calculus.specs.Spine.{arguments};
ghost use Rattle.lp_code.specs.Denote.{key_is};
ghost use Rattle.lp_gen.specs.inner.Recorded.{key_in, first_key_of};
ghost use Rattle.lp_term.specs.Nodes.{tree, type_tree};
ghost use Rattle.lp_gen.specs.inner.Reading.{read};
ghost use Rattle.lp_gen.specs.Steps.{constant_function, head_type, first_place};
ghost use Rattle.lp_gen.specs.inner.Listing.{around_of};
ghost use Rattle.lp_gen.specs.inner.Heading.{predicate_of, ArgumentGot, ArgumentsGot, TypesGot, HeadMatched};

use crate::emitter::Emitter;
use crate::environment::Environment;
use crate::fault::RecordRefusal;
use crate::got::{get_constant, get_integer, get_term, get_text, get_type, get_variable};
use crate::listing::type_of_head;
use crate::strings::string_of;
use crate::tables::Tables;
use crate::terms::put_term;
use crate::types::TypeView;
use crate::written_types::{put_type, put_types};
use lp_base::Memory;
use lp_code::{Key, RecordHead};
use lp_term::{Bank, TermId, TermNode, TypeId, head_of, spine_of};
use std::alloc::Global;

// The number of an argument.
fn number_of(place: usize) -> Result<u8, RecordRefusal>
    ensures number { IfOk result (λ number. number ≡ place) }
    ensures low { OnOk result (place ≤ 255) }
    ensures cause { IfErr result (IsRefused (255 < place)) }
{
    match u8::try_from(place) {
        Ok(number) => Ok(number),
        Err(_) => Err(RecordRefusal::Registers),
    }
}

// The key of an argument.
fn key_at(alloc: Global, bank: &Bank, argument: TermId) -> Result<Key, Memory>
    ensures { IfOk result (λ key. key_is key (key_in (tree bank.now argument.0)) ≡ true) }
{
    match bank.term_node(head_of(bank, argument)) {
        TermNode::Const(number, _) => Ok(Key::Const(number)),
        TermNode::Int(value) => Ok(Key::Int(value)),
        TermNode::Text(bytes) => {
            let text = Vec::from_slice(alloc, bytes)?;
            Ok(Key::Text(text))
        }
        _ => Ok(Key::None),
    }
}

/// The key of a clause by its head.
pub(crate) fn key_of(alloc: Global, bank: &Bank, head: TermId) -> Result<Key, Memory>
    ensures { IfOk result (λ key. key_is key (first_key_of (arguments (tree bank.now head.0))) ≡ true) }
{
    let spine = spine_of(alloc, bank, head)?;
    let Some((first, _)) = spine.args.as_slice().split_first() else {
        return Ok(Key::None);
    };
    let key = key_at(alloc, bank, *first)?;
    Ok(key)
}

// The level and register of a variable that the argument is, at its first place.
fn place_of(bank: &Bank, environment: &Environment<'_>, argument: TermId) -> Option<(u64, u16)>
    ensures { result ≡ first_place (around_of bank.now environment.now) (tree bank.now argument.0) }
{
    let TermNode::Index(index) = bank.term_node(argument) else {
        return None;
    };
    let Some(level) = environment.level(index) else {
        return None;
    };
    let Some(variable) = environment.at(level) else {
        return None;
    };
    if variable.is_set {
        return None;
    }
    Some((level, variable.register))
}

// An argument that is matched as it stands.
fn get_argument(
    alloc: Global,
    tables: Tables<'_>,
    emitter: &mut Emitter,
    environment: &mut Environment<'_>,
    at: u8,
    argument: TermId,
    of: TypeView,
) -> Result<(), RecordRefusal>
    ensures code { OnOk result (ArgumentGot (constant_function tables.entry.bank.now tables.entry.constants.now) emitter.old emitter.new (around_of tables.entry.bank.now environment.old) (around_of tables.entry.bank.now environment.new) at (read tables.entry.bank.now of) (tree tables.entry.bank.now argument.0)) }
    ensures around { OnOk result (around_of tables.entry.bank.now environment.new ≡ behind_argument (constant_function tables.entry.bank.now tables.entry.constants.now) (around_of tables.entry.bank.now environment.old) (read tables.entry.bank.now of) (tree tables.entry.bank.now argument.0)) }
    ensures uses { OnOk result (Uses emitter.old emitter.new (argument_takes (constant_function tables.entry.bank.now tables.entry.constants.now) (around_of tables.entry.bank.now environment.old) (read tables.entry.bank.now of) (tree tables.entry.bank.now argument.0))) }
    ensures lacks { IfErr result (Lacks emitter.old (argument_takes (constant_function tables.entry.bank.now tables.entry.constants.now) (around_of tables.entry.bank.now environment.old) (read tables.entry.bank.now of) (tree tables.entry.bank.now argument.0))) }
{
    if let Some((level, register)) = place_of(tables.bank, environment, argument) {
        get_variable(emitter, at, register)?;
        environment.set(level);
        return Ok(());
    }
    match tables.bank.term_node(argument) {
        TermNode::Const(number, types) => {
            let registers = put_types(alloc, tables.bank, emitter, types)?;
            get_constant(emitter, at, number, registers)?;
            Ok(())
        }
        TermNode::Int(value) => {
            get_integer(emitter, at, value)?;
            Ok(())
        }
        TermNode::Text(bytes) => {
            let text = string_of(alloc, bytes)?;
            get_text(emitter, at, text)?;
            Ok(())
        }
        _ => {
            let register = put_term(alloc, tables, emitter, environment, argument, of)?;
            get_term(emitter, at, register)?;
            Ok(())
        }
    }
}

// The arguments of a head.
fn get_arguments(
    alloc: Global,
    tables: Tables<'_>,
    emitter: &mut Emitter,
    environment: &mut Environment<'_>,
    head: TermId,
    args: &[TermId],
) -> Result<(), RecordRefusal>
    ensures code { OnOk result (ArgumentsGot (constant_function tables.entry.bank.now tables.entry.constants.now) emitter.old emitter.new (around_of tables.entry.bank.now environment.old) (around_of tables.entry.bank.now environment.new) (head_type (constant_function tables.entry.bank.now tables.entry.constants.now) [] (around_of tables.entry.bank.now environment.old) (tree tables.entry.bank.now head.0)) (map (λ t. tree tables.entry.bank.now t.0) args.now)) }
    ensures around { OnOk result (around_of tables.entry.bank.now environment.new ≡ behind_arguments (constant_function tables.entry.bank.now tables.entry.constants.now) (around_of tables.entry.bank.now environment.old) (head_type (constant_function tables.entry.bank.now tables.entry.constants.now) [] (around_of tables.entry.bank.now environment.old) (tree tables.entry.bank.now head.0)) (map (λ t. tree tables.entry.bank.now t.0) args.now)) }
    ensures uses { OnOk result (Uses emitter.old emitter.new (head_arguments_take (constant_function tables.entry.bank.now tables.entry.constants.now) (around_of tables.entry.bank.now environment.old) 0 (head_type (constant_function tables.entry.bank.now tables.entry.constants.now) [] (around_of tables.entry.bank.now environment.old) (tree tables.entry.bank.now head.0)) (map (λ t. tree tables.entry.bank.now t.0) args.now))) }
    ensures lacks { IfErr result (Lacks emitter.old (head_arguments_take (constant_function tables.entry.bank.now tables.entry.constants.now) (around_of tables.entry.bank.now environment.old) 0 (head_type (constant_function tables.entry.bank.now tables.entry.constants.now) [] (around_of tables.entry.bank.now environment.old) (tree tables.entry.bank.now head.0)) (map (λ t. tree tables.entry.bank.now t.0) args.now))) }
{
    let mut function = type_of_head(tables, environment, &[], head);
    for at in 0..args.len() {
        let (of, left) = function.next(tables.bank);
        let number = number_of(at)?;
        let argument = args[at];
        get_argument(alloc, tables, emitter, environment, number, argument, of)?;
        function = left;
    }
    Ok(())
}

// The types of a head.
fn get_types(
    alloc: Global,
    bank: &Bank,
    emitter: &mut Emitter,
    types: &[TypeId],
) -> Result<(), RecordRefusal>
    ensures code { OnOk result (TypesGot emitter.old emitter.new (map (λ t. type_tree bank.now t.0) types.now)) }
    ensures uses { OnOk result (Uses emitter.old emitter.new (head_types_take 0 (map (λ t. type_tree bank.now t.0) types.now))) }
    ensures lacks { IfErr result (Lacks emitter.old (head_types_take 0 (map (λ t. type_tree bank.now t.0) types.now))) }
{
    for at in 0..types.len() {
        let of = types[at];
        let register = put_type(alloc, bank, emitter, TypeView::Of(of, None))?;
        let number = number_of(at)?;
        get_type(emitter, number, register)?;
    }
    Ok(())
}

// The register of the head's predicate, or its number.
fn predicate(bank: &Bank, environment: &Environment<'_>, head: TermId) -> RecordHead
    ensures { result ≡ predicate_of (around_of bank.now environment.now) (tree bank.now head.0) }
{
    match bank.term_node(head) {
        TermNode::Const(number, _) => RecordHead::Const(number),
        TermNode::Index(index) => match environment.level(index) {
            Some(level) => match environment.at(level) {
                Some(variable) => RecordHead::Register(variable.register),
                None => RecordHead::Register(0),
            },
            None => RecordHead::Register(0),
        },
        _ => RecordHead::Register(0),
    }
}

/// Matches the head; says its predicate.
pub(crate) fn get_head(
    alloc: Global,
    tables: Tables<'_>,
    emitter: &mut Emitter,
    environment: &mut Environment<'_>,
    head: TermId,
) -> Result<RecordHead, RecordRefusal>
    ensures code { IfOk result (λ predicate. HeadMatched (constant_function tables.entry.bank.now tables.entry.constants.now) emitter.old emitter.new (around_of tables.entry.bank.now environment.old) (around_of tables.entry.bank.now environment.new) predicate (tree tables.entry.bank.now head.0)) }
    ensures around { OnOk result (around_of tables.entry.bank.now environment.new ≡ behind_head (constant_function tables.entry.bank.now tables.entry.constants.now) (around_of tables.entry.bank.now environment.old) (tree tables.entry.bank.now head.0)) }
    ensures uses { OnOk result (Uses emitter.old emitter.new (head_takes (constant_function tables.entry.bank.now tables.entry.constants.now) (around_of tables.entry.bank.now environment.old) (tree tables.entry.bank.now head.0))) }
    ensures lacks { IfErr result (Lacks emitter.old (head_takes (constant_function tables.entry.bank.now tables.entry.constants.now) (around_of tables.entry.bank.now environment.old) (tree tables.entry.bank.now head.0))) }
{
    let spine = spine_of(alloc, tables.bank, head)?;
    let named = predicate(tables.bank, environment, spine.head);
    let args = spine.args.as_slice();
    if let TermNode::Const(_, types) = tables.bank.term_node(spine.head) {
        get_types(alloc, tables.bank, emitter, types)?;
        get_arguments(alloc, tables, emitter, environment, spine.head, args)?;
        return Ok(named);
    }
    get_arguments(alloc, tables, emitter, environment, spine.head, args)?;
    Ok(named)
}
