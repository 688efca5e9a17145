// What is seen of a head's arguments in the instructions alone: where in the head each register stands.

ghost use Rattle.std.specs.Prelude.{◌≡◌, ◌≤◌, ◌||◌, ◌&&◌, ℕ, IfOk, OnOk, Bool, Some, option_copied, length, nat_eq, nat_lt, take};
ghost use Rattle.std.specs.Ordering.{nat_cmp};
ghost use Rattle.std.specs.BTreeMap.{get};
ghost use Rattle.lp_code.specs.States.{member};
ghost use Rattle.lp_code.specs.declared.instruction.Instr.{Instr as On};
ghost use Rattle.lp_verify.specs.inner.Taken.{passed_by, before_neck, is_before, AreFirstTaken};

use crate::effect::is_behind_neck;
use lp_base::Memory;
use lp_code::Instr;
use std::alloc::Global;
use std::collections::BTreeMap;

// By register, the number of the first instruction that takes an argument of the head in which the register's term stands.
#[derive(Drop)]
pub(crate) struct Takings {
    first: BTreeMap<u16, usize>,
}

// How many instructions stand before the first NECK.
fn head_length(code: &[Instr]) -> usize
    ensures within { result ≤ length code.now }
    ensures are { take result code.now ≡ before_neck code.now }
{
    let mut count: usize = 0;
    for instr in code {
        let neck = is_behind_neck(false, instr);
        if neck {
            return count;
        }
        count = count.saturating_add(1);
    }
    count
}

fn earlier(first: Option<usize>, number: usize) -> usize
    ensures { (n : ℕ) → nat_lt result n ≡ (nat_lt number n || is_before n first) }
{
    match first {
        Some(first) => {
            if first < number {
                return first;
            }
            number
        }
        None => number,
    }
}

impl Takings {
    pub(crate) fn of(alloc: Global, code: &[Instr]) -> Result<Takings, Memory>
        ensures { IfOk result (λ takings. AreFirstTaken 0 (before_neck code.now) takings.first) }
    {
        let mut takings = Takings {
            first: BTreeMap::new(alloc),
        };
        let head = head_length(code);
        let mut number = head;
        while number > 0 {
            number = number.saturating_sub(1);
            takings.pass_one(code.get(number), number)?;
        }
        Ok(takings)
    }

    // The instruction of a register's term that was taken first.
    fn first(&self, register: u16) -> Option<usize>
        ensures { result ≡ get nat_cmp self.now.first register }
    {
        self.first.get(&register).copied()
    }

    // The register stands in an argument that this instruction takes.
    fn note(&mut self, register: u16, number: usize) -> Result<(), Memory>
        ensures { OnOk result ((x n : ℕ) → is_before n (get nat_cmp self.new.first x) ≡ ((nat_eq x register && nat_lt number n) || is_before n (get nat_cmp self.old.first x))) }
    {
        let first = earlier(self.first(register), number);
        self.first.insert(register, first)?;
        Ok(())
    }

    fn note_all(&mut self, registers: &[u16], number: usize) -> Result<(), Memory>
        ensures { OnOk result ((x n : ℕ) → is_before n (get nat_cmp self.new.first x) ≡ ((member x registers.now && nat_lt number n) || is_before n (get nat_cmp self.old.first x))) }
    {
        for register in registers {
            self.note(*register, number)?;
        }
        Ok(())
    }

    // What stands in an argument with the register that the instruction sets.
    fn pass(&mut self, instr: &Instr, number: usize) -> Result<(), Memory>
        ensures { OnOk result ((f : ℕ → ℕ → Bool) → ((x n : ℕ) → is_before n (get nat_cmp self.old.first x) ≡ f n x) → (x n : ℕ) → is_before n (get nat_cmp self.new.first x) ≡ passed_by instr.now number n (f n) x) }
    {
        match instr {
            Instr::Get(_, register) => self.note(*register, number),
            Instr::GetVar(_, register) => self.note(*register, number),
            Instr::PutAbs(made, body, _) => match self.first(*made) {
                Some(first) => self.note(*body, first),
                None => Ok(()),
            },
            Instr::PutApp(made, function, arguments) => match self.first(*made) {
                Some(first) => {
                    self.note_all(arguments.as_slice(), first)?;
                    self.note(*function, first)
                }
                None => Ok(()),
            },
            _ => Ok(()),
        }
    }

    fn pass_one(&mut self, instr: Option<&Instr>, number: usize) -> Result<(), Memory>
        ensures { OnOk result ((i : On) (f : ℕ → ℕ → Bool) → option_copied instr.entry ≡ Some i → ((x n : ℕ) → is_before n (get nat_cmp self.old.first x) ≡ f n x) → (x n : ℕ) → is_before n (get nat_cmp self.new.first x) ≡ passed_by i number n (f n) x) }
    {
        match instr {
            Some(instr) => self.pass(instr, number),
            None => Ok(()),
        }
    }

    // Whether the register's term stands in an argument that an earlier instruction takes.
    pub(crate) fn is_taken_before(&self, register: u16, number: usize) -> bool
        ensures { result ≡ is_before number (get nat_cmp self.now.first register) }
    {
        match self.first.get(&register) {
            Some(first) => *first < number,
            None => false,
        }
    }
}
