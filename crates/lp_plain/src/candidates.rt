// The clauses that may meet a goal: first the assumed ones, the newest first, then those of the program that pass the
// filter, in order.
ghost use Rattle.std.specs.Prelude.{◌≡◌, ◌<◌, ◌≤◌, ◌-◌, ◌^◌, ◌++◌, All, length, map, List, [], ◌∷◌, ℕ, suc, filter, drop, nat_eq, Option, Some, None, slice_get, IfOk, IfSome};
ghost use Rattle.std.specs.HashMap.{get};
ghost use Rattle.lp_plain.specs.Assuming.{links};
ghost use Rattle.lp_plain.specs.Newest.{IsNewest};
ghost use Rattle.lp_plain.specs.inner.Remaining.{ComesAfter, assumed_rank, program_rank, rank};
ghost use Rattle.lp_plain.specs.Candidates.{AreInOrder, ahead, constant_at, set_next, unlinked, IsLinked, IsIndex, IsChain, IsLeft, AreLeft, nexts, numbers, numbers_in, passes, first_for, in_turn};

use crate::choice::Call;
use crate::frame::Assumption;
use crate::head::{Head, Key, may_meet};
use crate::newest::{Newest, newest_of};
use crate::scope::older;
use crate::table::{Rule, Span};
use lp_base::Memory;
use lp_term::{Bank, TermNode};
use std::alloc::Global;
use std::collections::HashMap;

/// A candidate: the number of an assumption, or that of a program clause.
#[derive(Clone, Copy)]
pub(crate) enum Candidate {
    Assumed(usize),
    Program(usize),
}

/// The first program clause of each constant.
pub(crate) type Index = HashMap<u32, usize>;

// The constant at the head of a clause.
fn constant_of(bank: &Bank, rules: &Vec<Rule>, number: usize) -> Option<u32>
    ensures { result ≡ constant_at bank.now (slice_get rules.now.items number) }
{
    let Some(rule) = rules.get(number) else {
        return None;
    };
    match bank.term_node(rule.head) {
        TermNode::Const(constant, _) => Some(constant),
        TermNode::Index(_) => None,
        TermNode::Int(_) => None,
        TermNode::Text(_) => None,
        TermNode::Eigen(_) => None,
        TermNode::Logic { .. } => None,
        TermNode::Param(_, _) => None,
        TermNode::Abs(_) => None,
        TermNode::App(_, _) => None,
    }
}

fn link(rules: &mut Vec<Rule>, number: usize, next: Option<usize>)
    requires { number < length rules.old.items }
    ensures { rules.new.items ≡ set_next rules.old.items number next }
{
    let Some(rule) = rules.get_mut(number) else {
        unreachable!()
    };
    rule.next = next;
}

fn add_rule(
    bank: &Bank,
    rules: &mut Vec<Rule>,
    number: usize,
    index: &mut Index,
) -> Result<(), Memory>
    requires { number < length rules.old.items }
    ensures { IfOk result (λ done. IsLinked bank.now rules.old.items rules.new.items (λ c. get nat_eq index.old c) (λ c. get nat_eq index.new c) (number ∷ []) (suc number) number) }
{
    let Some(constant) = constant_of(bank, rules, number) else {
        return Ok(());
    };
    let next = index.insert(constant, number)?;
    link(rules, number, next);
    Ok(())
}

// Links the clauses of a span before those of the program behind them, the first of which is given. Gives the first one now.
fn add_span(
    bank: &Bank,
    rules: &mut Vec<Rule>,
    span: Span,
    behind: usize,
    index: &mut Index,
) -> Result<usize, Memory>
    requires within { behind ≤ length rules.old.items }
    requires order { (span.from ≤ span.to) × (span.to ≤ behind) }
    ensures first { IfOk result (λ first. first ≡ span.from) }
    ensures linked { IfOk result (λ first. IsLinked bank.now rules.old.items rules.new.items (λ c. get nat_eq index.old c) (λ c. get nat_eq index.new c) (numbers_in span) behind first) }
{
    let mut left = span.to;
    'rules: while left > span.from {
        left -= 1;
        add_rule(bank, rules, left, index)?;
    }
    Ok(left)
}

/// Links the program's clauses by the constants at their heads.
pub(crate) fn index_of(
    alloc: Global,
    bank: &Bank,
    rules: &mut Vec<Rule>,
    program: &Vec<Span>,
) -> Result<Index, Memory>
    requires order { AreInOrder 0 program.now.items }
    requires ends { All (λ s. s.to ≤ length rules.old.items) program.now.items }
    ensures same { IfOk result (λ index. map unlinked rules.new.items ≡ map unlinked rules.old.items) }
    ensures index { IfOk result (λ index. IsIndex bank.now rules.new.items (λ c. get nat_eq index c) (numbers program.now.items)) }
{
    let mut index = HashMap::new(alloc);
    let mut first = rules.len();
    let mut left = program.len();
    'spans: while left > 0 {
        left -= 1;
        first = add_span(bank, rules, program[left], first, &mut index)?;
    }
    Ok(index)
}

// The number of the next clause, where it is one behind the other.
fn later(next: Option<usize>, number: usize) -> Option<usize>
    ensures { result ≡ ahead number next }
{
    let Some(at) = next else {
        return None;
    };
    if number < at {
        return Some(at);
    }
    None
}

// The first clause of a chain that passes the filter.
fn program_from(
    bank: &Bank,
    rules: &Vec<Rule>,
    key: Option<Key>,
    from: Option<usize>,
) -> Option<usize>
    ensures left { (ks : List ℕ) → IsChain (nexts rules.now.items) from ks → IsLeft bank.now rules.now.items key result (filter (passes bank.now rules.now.items key) ks) }
    ensures ranks { IfSome result (λ k. 2 ^ 64 - k ≤ program_rank from) }
{
    let mut at = from;
    // A chain passes no clause twice.
    'rules: for passed in 0..rules.len() {
        let Some(number) = at else {
            return None;
        };
        let Some(rule) = rules.get(number) else {
            return None;
        };
        if may_meet(bank, rule.key, key) {
            return Some(number);
        }
        at = later(rule.next, number);
    }
    None
}

fn first_rule(index: &Index, head: Head) -> Option<usize>
    ensures { result ≡ first_for (λ c. get nat_eq index.now c) head }
{
    match head {
        Head::Constant(constant) => index.get(&constant).copied(),
        Head::Eigen(_) => None,
    }
}

// The first program clause of a chain that passes the filter, as a candidate.
fn program_candidate(
    bank: &Bank,
    rules: &Vec<Rule>,
    key: Option<Key>,
    from: Option<usize>,
) -> Option<Candidate>
    ensures left { (older : List (Option ℕ)) (first : Option ℕ) (ks : List ℕ) → IsChain (nexts rules.now.items) from ks → AreLeft bank.now rules.now.items older first key result (in_turn bank.now rules.now.items key [] ks) }
    ensures ranks { IfSome result (λ c. rank c ≤ program_rank from) }
{
    match program_from(bank, rules, key, from) {
        Some(number) => Some(Candidate::Program(number)),
        None => None,
    }
}

// This assumption, or the first program clause where there is none.
fn assumed_or_first(
    bank: &Bank,
    rules: &Vec<Rule>,
    index: &Index,
    call: &Call,
    assumed: Option<usize>,
) -> Option<Candidate>
    ensures left { (older : List (Option ℕ)) (ns ks : List ℕ) → IsChain older assumed ns → IsChain (nexts rules.now.items) (first_for (λ c. get nat_eq index.now c) call.now.head) ks → AreLeft bank.now rules.now.items older (first_for (λ c. get nat_eq index.now c) call.now.head) call.now.key result (in_turn bank.now rules.now.items call.now.key ns ks) }
    ensures ranks { IfSome result (λ c. rank c ≤ assumed_rank assumed) }
{
    match assumed {
        Some(number) => Some(Candidate::Assumed(number)),
        None => program_candidate(bank, rules, call.key, first_rule(index, call.head)),
    }
}

pub(crate) fn first_candidate(
    bank: &Bank,
    rules: &Vec<Rule>,
    index: &Index,
    newest: &Vec<Newest>,
    call: &Call,
) -> Option<Candidate>
    ensures { (older : List (Option ℕ)) (assumed : Option ℕ) (ns ks : List ℕ) → IsNewest newest.now.items call.now.place.assumed call.now.head assumed → IsChain older assumed ns → IsChain (nexts rules.now.items) (first_for (λ c. get nat_eq index.now c) call.now.head) ks → AreLeft bank.now rules.now.items older (first_for (λ c. get nat_eq index.now c) call.now.head) call.now.key result (in_turn bank.now rules.now.items call.now.key ns ks) }
{
    let assumed = newest_of(newest, call.place.assumed, call.head);
    assumed_or_first(bank, rules, index, call, assumed)
}

pub(crate) fn candidate_after(
    bank: &Bank,
    rules: &Vec<Rule>,
    index: &Index,
    assumptions: &Vec<Assumption>,
    call: &Call,
    candidate: Candidate,
) -> Option<Candidate>
    ensures next { (left : List Candidate) → AreLeft bank.now rules.now.items (links assumptions.now.items) (first_for (λ c. get nat_eq index.now c) call.now.head) call.now.key (Some candidate) left → (rest : List Candidate) × (left ≡ candidate ∷ rest) × AreLeft bank.now rules.now.items (links assumptions.now.items) (first_for (λ c. get nat_eq index.now c) call.now.head) call.now.key result rest }
    ensures less { ComesAfter candidate result }
{
    match candidate {
        Candidate::Assumed(number) => {
            let Some(assumption) = assumptions.get(number) else {
                return None;
            };
            let before = older(assumption.older, number);
            assumed_or_first(bank, rules, index, call, before)
        }
        Candidate::Program(number) => {
            let Some(rule) = rules.get(number) else {
                return None;
            };
            let behind = later(rule.next, number);
            program_candidate(bank, rules, call.key, behind)
        }
    }
}
