// The key of a head's first argument, as the instructions alone show it.
ghost use Rattle.std.specs.Prelude.{◌≡◌, ℕ, IfOk, OnOk, List, Option, None};
ghost use Rattle.lp_calculus.specs.Term.{Atom};
ghost use Rattle.lp_code.specs.Groups.{plain_key, looked_key};
ghost use Rattle.lp_code.specs.Denote.{keys_behind, with_key, first_key};
ghost use Rattle.lp_code.specs.declared.instruction.Instr.{Instr as On};
ghost use Rattle.lp_verify.specs.inner.Keys.{same_plain_key, IsKeyOf, AreKeys, IsTaken};

use lp_base::Memory;
use lp_code::{Instr, Key, KeyRef};
use std::alloc::Global;
use std::collections::BTreeMap;

// Whether the keys are the same one.
pub(crate) fn is_key(key: &Key, other: KeyRef<'_>) -> bool
    ensures { result ≡ same_plain_key (plain_key key.now) (looked_key other.entry) }
{
    match key {
        Key::None => matches!(other, KeyRef::None),
        Key::Const(constant) => match other {
            KeyRef::Const(found) => *constant == found,
            _ => false,
        },
        Key::Int(integer) => match other {
            KeyRef::Int(found) => *integer == found,
            _ => false,
        },
        Key::Text(text) => match other {
            KeyRef::Text(found) => text.as_slice() == found,
            _ => false,
        },
    }
}

// The key of what stands in a register.
fn key_in<'a>(keys: &BTreeMap<u16, KeyRef<'a>>, register: u16) -> KeyRef<'a>
    ensures { (f : ℕ → Option Atom) → AreKeys f keys.now → IsKeyOf (looked_key result) (f register) }
{
    match keys.get(&register) {
        Some(key) => *key,
        None => KeyRef::None,
    }
}

fn put_key<'a>(
    keys: &mut BTreeMap<u16, KeyRef<'a>>,
    made: u16,
    key: KeyRef<'a>,
) -> Result<(), Memory>
    ensures { OnOk result ((f : ℕ → Option Atom) (k : Option Atom) → AreKeys f keys.old → IsKeyOf (looked_key key.entry) k → AreKeys (with_key made k f) keys.new) }
{
    keys.insert(made, key)?;
    Ok(())
}

// The keys behind an instruction: its register has the key of what it puts there.
fn pass<'a>(keys: &mut BTreeMap<u16, KeyRef<'a>>, instr: &'a Instr) -> Result<(), Memory>
    ensures { OnOk result ((f : ℕ → Option Atom) → AreKeys f keys.old → AreKeys (keys_behind f instr.now) keys.new) }
{
    match instr {
        Instr::PutConst(made, constant, _) => put_key(keys, *made, KeyRef::Const(*constant)),
        Instr::PutInt(made, integer) => put_key(keys, *made, KeyRef::Int(*integer)),
        Instr::PutStr(made, text) => put_key(keys, *made, KeyRef::Text(text.as_slice())),
        Instr::PutApp(made, function, _) => {
            let key = key_in(keys, *function);
            put_key(keys, *made, key)
        }
        Instr::New(made, _) => put_key(keys, *made, KeyRef::None),
        Instr::PutIndex(made, _, _) => put_key(keys, *made, KeyRef::None),
        Instr::PutAbs(made, _, _) => put_key(keys, *made, KeyRef::None),
        Instr::Sigma(made, _) => put_key(keys, *made, KeyRef::None),
        Instr::All(made, _) => put_key(keys, *made, KeyRef::None),
        _ => Ok(()),
    }
}

// The key of the argument that an instruction takes, if it ends the search for it.
fn taken_key<'a>(keys: &BTreeMap<u16, KeyRef<'a>>, instr: &'a Instr) -> Option<KeyRef<'a>>
    ensures { (f : ℕ → Option Atom) (is : List On) → AreKeys f keys.now → IsTaken f instr.now is result }
{
    match instr {
        Instr::Neck | Instr::GetVar(_, _) => Some(KeyRef::None),
        Instr::Get(_, register) => Some(key_in(keys, *register)),
        Instr::GetConst(_, constant, _) => Some(KeyRef::Const(*constant)),
        Instr::GetInt(_, integer) => Some(KeyRef::Int(*integer)),
        Instr::GetStr(_, text) => Some(KeyRef::Text(text.as_slice())),
        _ => None,
    }
}

// The key of the head's first argument as it stands.
pub(crate) fn first_key<'a>(alloc: Global, code: &'a Vec<Instr>) -> Result<KeyRef<'a>, Memory>
    ensures { IfOk result (λ key. IsKeyOf (looked_key key) (first_key (λ r. None) code.now.items)) }
{
    let mut keys = BTreeMap::new(alloc);
    for instr in code {
        if let Some(key) = taken_key(&keys, instr) {
            return Ok(key);
        }
        pass(&mut keys, instr)?;
    }
    Ok(KeyRef::None)
}
