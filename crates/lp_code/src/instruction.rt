// Instructions, and their lengths in bytes.
ghost use Rattle.std.specs.Prelude.{◌≡◌, ◌<◌, ◌^◌, ◌+◌, ◌*◌, length as length_in};
ghost use Rattle.lp_code.specs.Length.{length_of, Fits};

/// An instruction. Operands stand in this order: a register that is set, then registers that are read, constants and kinds by number; `types` and
/// `terms` below are lists of type registers and of registers. A record's instructions up to `Neck` match its head, those behind it are its body.
/// What each denotes stands in specs/Steps, and when it may stand in specs/Rules.
#[derive(Drop)]
pub enum Instr {
    /// A kind on types: the type register, the kind, its arguments.
    TyCon(u16, u32, Vec<u16>),
    /// An arrow: the type register, from, to.
    TyArr(u16, u16, u16),
    /// A type variable of the clause.
    TyNew(u16),
    /// A variable of the clause, of this type.
    New(u16, u16),
    /// A constant with types for its type variables.
    PutConst(u16, u32, Vec<u16>),
    PutInt(u16, i64),
    PutStr(u16, Vec<u8>),
    /// A bound index, of this type.
    PutIndex(u16, u16, u16),
    /// An abstraction over index 0 of a register, with the type of the index.
    PutAbs(u16, u16, u16),
    /// A register applied to others, of which there is one or more.
    PutApp(u16, u16, Vec<u16>),
    /// A type argument of the head, by its number.
    GetType(u8, u16),
    /// An argument of the head, a variable of the clause at its first place.
    GetVar(u8, u16),
    /// An argument of the head, as it stands in a register.
    Get(u8, u16),
    /// An argument of the head, a constant.
    GetConst(u8, u32, Vec<u16>),
    GetInt(u8, i64),
    GetStr(u8, Vec<u8>),
    /// The end of the head.
    Neck,
    /// A goal with a constant as head: its types and arguments.
    Call(u32, Vec<u16>, Vec<u16>),
    /// A goal known at run time, or with another head.
    CallTerm(u16),
    /// `=` and `is` at a type.
    Equal(u16, u16, u16),
    Is(u16, u16, u16),
    Less(u16, u16),
    Greater(u16, u16),
    AtMost(u16, u16),
    AtLeast(u16, u16),
    Cut,
    /// A variable, of this type, for the rest of its block.
    Sigma(u16, u16),
    /// A block under a new eigenconstant, of this type.
    All(u16, u16),
    EndAll,
    /// A block under the clauses of these records, which start with these types and terms.
    Assume(Vec<u32>, Vec<u16>, Vec<u16>),
    EndAssume,
    /// Two blocks of which one holds; the left one has so many bytes, its `Jump` counted.
    Either(u32),
    /// The end of a left block; the right one has so many bytes.
    Jump(u32),
    /// The end of the record.
    Proceed,
    /// A block that does not hold.
    Not,
    EndNot,
}

// The bytes of a list of registers, behind a leading part.
fn listed(lead: u32, registers: &[u16]) -> u32
    requires lead { lead < 2 ^ 30 }
    requires registers { length_in registers.now < 2 ^ 16 }
    ensures { result ≡ lead + 2 * length_in registers.now }
{
    lead + 2 * (registers.len() as u32)
}

/// The bytes of the instruction in an object: its number, and its operands with 2 bytes for a register, a constant and a kind. Offsets of code count by it.
pub fn length(instr: &Instr) -> u32
    requires { Fits instr.now }
    ensures { result ≡ length_of instr.now }
{
    match instr {
        Instr::TyCon(_, _, types) => listed(6, types.as_slice()),
        Instr::PutConst(_, _, types) => listed(6, types.as_slice()),
        Instr::PutApp(_, _, terms) => listed(6, terms.as_slice()),
        Instr::GetConst(_, _, types) => listed(5, types.as_slice()),
        Instr::Call(_, types, terms) => listed(listed(5, types.as_slice()), terms.as_slice()),
        Instr::Assume(records, types, terms) => {
            let captured = listed(listed(7, types.as_slice()), terms.as_slice());
            captured + 4 * (records.len() as u32)
        }
        Instr::PutStr(_, text) => 5 + text.len() as u32,
        Instr::GetStr(_, text) => 4 + text.len() as u32,
        Instr::PutInt(_, _) => 11,
        Instr::GetInt(_, _) => 10,
        Instr::TyArr(_, _, _) | Instr::PutIndex(_, _, _) | Instr::PutAbs(_, _, _) => 7,
        Instr::Equal(_, _, _) | Instr::Is(_, _, _) => 7,
        Instr::New(_, _) | Instr::Sigma(_, _) | Instr::All(_, _) => 5,
        Instr::Less(_, _) | Instr::Greater(_, _) => 5,
        Instr::AtMost(_, _) | Instr::AtLeast(_, _) => 5,
        Instr::Either(_) | Instr::Jump(_) => 5,
        Instr::GetType(_, _) | Instr::GetVar(_, _) | Instr::Get(_, _) => 4,
        Instr::TyNew(_) | Instr::CallTerm(_) => 3,
        Instr::Neck | Instr::Cut | Instr::Proceed => 1,
        Instr::EndAll | Instr::EndAssume | Instr::Not | Instr::EndNot => 1,
    }
}
