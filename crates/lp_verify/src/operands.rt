// The registers that an instruction reads and sets.
ghost use Rattle.std.specs.Prelude.{◌≡◌, IfOk};
ghost use Rattle.lp_code.specs.Operands.{types_read, terms_read, type_set, term_set};
ghost use Rattle.lp_verify.specs.Listed.{listed};

use lp_base::Memory;
use lp_code::Instr;
use std::alloc::Global;

// A type register, or a register, that is set.
pub(crate) fn type_set(instr: &Instr) -> Option<u16>
    ensures { listed result ≡ type_set instr.now }
{
    match instr {
        Instr::TyCon(made, _, _) | Instr::TyArr(made, _, _) | Instr::TyNew(made) => Some(*made),
        _ => None,
    }
}

pub(crate) fn term_set(instr: &Instr) -> Option<u16>
    ensures { listed result ≡ term_set instr.now }
{
    match instr {
        Instr::New(made, _)
        | Instr::PutConst(made, _, _)
        | Instr::PutInt(made, _)
        | Instr::PutStr(made, _)
        | Instr::PutIndex(made, _, _)
        | Instr::PutAbs(made, _, _)
        | Instr::PutApp(made, _, _)
        | Instr::GetVar(_, made)
        | Instr::Sigma(made, _)
        | Instr::All(made, _) => Some(*made),
        _ => None,
    }
}

// The type registers that are read, in order.
pub(crate) fn types_read(alloc: Global, instr: &Instr) -> Result<Vec<u16>, Memory>
    ensures { IfOk result (λ read. read.items ≡ types_read instr.now) }
{
    let read = match instr {
        Instr::TyCon(_, _, types)
        | Instr::PutConst(_, _, types)
        | Instr::GetConst(_, _, types)
        | Instr::Call(_, types, _)
        | Instr::Assume(_, types, _) => Vec::from_slice(alloc, types.as_slice())?,
        Instr::TyArr(_, from, to) => Vec::from_slice(alloc, &[*from, *to])?,
        Instr::New(_, of)
        | Instr::PutIndex(_, _, of)
        | Instr::PutAbs(_, _, of)
        | Instr::GetType(_, of)
        | Instr::Equal(of, _, _)
        | Instr::Is(of, _, _)
        | Instr::Sigma(_, of)
        | Instr::All(_, of) => Vec::from_slice(alloc, &[*of])?,
        _ => Vec::new(alloc),
    };
    Ok(read)
}

// The registers that are read, in order.
pub(crate) fn terms_read(alloc: Global, instr: &Instr) -> Result<Vec<u16>, Memory>
    ensures { IfOk result (λ read. read.items ≡ terms_read instr.now) }
{
    let read = match instr {
        Instr::PutAbs(_, body, _) => Vec::from_slice(alloc, &[*body])?,
        Instr::PutApp(_, function, arguments) => {
            let mut read = Vec::new(alloc);
            read.push(*function)?;
            read.extend_from_slice(arguments.as_slice())?;
            read
        }
        Instr::Get(_, of) | Instr::CallTerm(of) => Vec::from_slice(alloc, &[*of])?,
        Instr::Call(_, _, terms) | Instr::Assume(_, _, terms) => {
            Vec::from_slice(alloc, terms.as_slice())?
        }
        Instr::Equal(_, left, right)
        | Instr::Is(_, left, right)
        | Instr::Less(left, right)
        | Instr::Greater(left, right)
        | Instr::AtMost(left, right)
        | Instr::AtLeast(left, right) => Vec::from_slice(alloc, &[*left, *right])?,
        _ => Vec::new(alloc),
    };
    Ok(read)
}
