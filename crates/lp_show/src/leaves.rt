ghost use Rattle.std.specs.Prelude.{◌≡◌, ◌<◌, ◌^◌, ◌∷◌, [], ◌++◌, suc, OnOk, codes, decimal};
ghost use Rattle.std.specs.Fmt.{signed_decimal};
ghost use Rattle.lp_model.specs.Shown.{constant_text, entry_in, escaped, place_of};
ghost use Rattle.lp_show.specs.Named.{all, IsReady};

use crate::names::Names;
use indexmap::IndexSet;
use itoa::Buffer;
use lp_base::Memory;

pub(crate) fn push_number(number: u64, out: &mut Vec<u8>) -> Result<(), Memory>
    ensures { OnOk result (out.new.items ≡ out.old.items ++ decimal number) }
{
    let mut buffer = Buffer::new();
    out.extend_from_slice(buffer.format(number).as_bytes())?;
    Ok(())
}

pub(crate) fn push_integer(number: i64, out: &mut Vec<u8>) -> Result<(), Memory>
    ensures { OnOk result (out.new.items ≡ out.old.items ++ signed_decimal number) }
{
    let mut buffer = Buffer::new();
    out.extend_from_slice(buffer.format(number).as_bytes())?;
    Ok(())
}

pub(crate) fn push_eigen(level: u64, out: &mut Vec<u8>) -> Result<(), Memory>
    ensures { OnOk result (out.new.items ≡ out.old.items ++ (codes "#" ++ decimal level)) }
{
    out.extend_from_slice(b"#")?;
    push_number(level, out)
}

// The place of a variable, or behind the last one.
fn place_in(seen: &IndexSet<u64>, id: u64) -> usize
    ensures place { result ≡ place_of id seen.now.keys }
    ensures low { result < 2 ^ 63 }
{
    let count = seen.len();
    match seen.get_index_of(&id) {
        Some(place) => place,
        None => count,
    }
}

/// Writes a variable, by its place among the others.
pub(crate) fn push_variable(seen: &IndexSet<u64>, id: u64, out: &mut Vec<u8>) -> Result<(), Memory>
    ensures { OnOk result (out.new.items ≡ out.old.items ++ (codes "_" ++ decimal (suc (place_of id seen.now.keys)))) }
{
    out.extend_from_slice(b"_")?;
    push_number(place_in(seen, id) as u64 + 1, out)
}

// Writes a byte of a string.
fn push_escaped(byte: u8, out: &mut Vec<u8>) -> Result<(), Memory>
    ensures { OnOk result (out.new.items ≡ out.old.items ++ escaped (byte ∷ [])) }
{
    if byte == b'\\' {
        out.extend_from_slice(b"\\\\")?;
        return Ok(());
    }
    if byte == b'"' {
        out.extend_from_slice(b"\\\"")?;
        return Ok(());
    }
    if byte == b'\n' {
        out.extend_from_slice(b"\\n")?;
        return Ok(());
    }
    if byte == b'\t' {
        out.extend_from_slice(b"\\t")?;
        return Ok(());
    }
    out.push(byte)?;
    Ok(())
}

// Writes the bytes of a string.
fn push_bytes(bytes: &[u8], out: &mut Vec<u8>) -> Result<(), Memory>
    ensures { OnOk result (out.new.items ≡ out.old.items ++ escaped bytes.now) }
{
    let mut at = 0;
    'bytes: while at < bytes.len() {
        push_escaped(bytes[at], out)?;
        at += 1;
    }
    Ok(())
}

/// Writes a string as it stands in a text.
pub(crate) fn push_string(bytes: &[u8], out: &mut Vec<u8>) -> Result<(), Memory>
    ensures { OnOk result (out.new.items ≡ out.old.items ++ (codes "\"" ++ (escaped bytes.now ++ codes "\""))) }
{
    out.extend_from_slice(b"\"")?;
    push_bytes(bytes, out)?;
    out.extend_from_slice(b"\"")?;
    Ok(())
}

/// Writes a constant by itself: a hidden one with its number, an operator in parentheses.
pub(crate) fn push_constant(
    names: &Names<'_>,
    constant: u32,
    out: &mut Vec<u8>,
) -> Result<(), Memory>
    requires { IsReady names.now }
    ensures { OnOk result (out.new.items ≡ out.old.items ++ constant_text (entry_in (all names.now) constant)) }
{
    let known = names.entry(constant);
    if known.hidden != 0 {
        out.extend_from_slice(known.name)?;
        out.extend_from_slice(b"$")?;
        return push_number(known.hidden as u64, out);
    }
    if known.fixity.is_none() {
        out.extend_from_slice(known.name)?;
        return Ok(());
    }
    out.extend_from_slice(b"(")?;
    out.extend_from_slice(known.name)?;
    out.extend_from_slice(b")")?;
    Ok(())
}
