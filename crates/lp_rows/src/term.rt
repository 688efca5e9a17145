// Terms that are written behind their parts, and what they reduce to within limits.
ghost use Rattle.std.specs.Prelude.{◌≡◌, ◌<◌, ◌^◌, length, true};
ghost use Rattle.lp_term.specs.Nodes.{tree};
ghost use Rattle.lp_term.specs.Spine.{LooseBelow};

use lp_base::Memory;
use lp_term::{
    Bank, TermId, TermRefusal, TypeNode, beta_normal, head_reduce, normal_form, put_abstraction,
    put_applied, put_arrow, put_constructor, put_eigen, put_index,
};
use std::alloc::Global;

fn last(stack: &mut Vec<TermId>) -> Result<TermId, Memory> {
    stack.pop().ok_or(Memory)
}

// A term on itself, twenty times over.
fn doubled(bank: &mut Bank, leaf: TermId) -> Result<TermId, Memory> {
    let mut term = leaf;
    for _ in 0..20 {
        term = put_applied(bank, term, term)?;
    }
    Ok(term)
}

// The term of a text: a digit is an index, `e` an eigenconstant, `\` an abstraction over the last term, `@` the last but one on the last,
// and `d` doubles the last.
fn put(alloc: Global, bank: &mut Bank, text: &[u8]) -> Result<TermId, Memory> {
    let mut stack = Vec::new(alloc);
    for sign in text.iter().copied() {
        let made = match sign {
            b'e' => put_eigen(bank, 1)?,
            b'\\' => {
                let body = last(&mut stack)?;
                put_abstraction(bank, body)?
            }
            b'@' => {
                let argument = last(&mut stack)?;
                let head = last(&mut stack)?;
                put_applied(bank, head, argument)?
            }
            b'd' => {
                let leaf = last(&mut stack)?;
                doubled(bank, leaf)?
            }
            _ => put_index(bank, sign.wrapping_sub(b'0') as u64)?,
        };
        stack.push(made)?;
    }
    last(&mut stack)
}

// Whether the reductions take the term.
pub(crate) fn is_taken(bank: &Bank, term: TermId) -> bool
    ensures within { result ≡ true → term.0 < length bank.now.terms }
    ensures loose { result ≡ true → LooseBelow (2 ^ 32) 0 (tree bank.now term.0) }
{
    if term.0 >= bank.term_count() {
        return false;
    }
    bank.is_known_below(term, 4_294_967_296)
}

#[derive(Clone, Copy)]
enum Reduction {
    Head,
    Beta,
    Form,
}

use Reduction::{Beta, Form, Head};

// What becomes of the term of a text: the limit that refuses it, or none.
fn reduced(
    alloc: Global,
    by: Reduction,
    text: &[u8],
    contractions: u64,
    nodes: u64,
) -> Result<(), TermRefusal> {
    let mut bank = Bank::new(alloc);
    let term = put(alloc, &mut bank, text)?;
    if !is_taken(&bank, term) {
        return Err(TermRefusal::Memory);
    }
    let _result = match by {
        Head => head_reduce(alloc, &mut bank, term, contractions)?,
        Beta => beta_normal(alloc, &mut bank, term, contractions, nodes)?,
        Form => normal_form(alloc, &mut bank, term, contractions, nodes)?,
    };
    Ok(())
}

#[test]
fn terms_reduce(rt: HostRuntime) {
    // 2 * 3 is 6, which has two abstractions, six uses of f, and x
    let product: &[u8] = b"110@@\\\\1110@@@\\\\0@@\\";
    let endless: &[u8] = b"00@\\00@\\@";
    let redex: &[u8] = b"10@\\\\e@";
    for (by, text, contractions, nodes, want) in [
        (Form, b"e".as_slice(), 0, 1, None),
        (Form, b"e2@1@0@\\\\\\", 0, 1, None),
        (Form, b"e10@\\@\\", 0, 1, None),
        (Form, b"ee0@\\@d", 0, 2_097_152, None),
        (Form, b"ee0@\\@d", 0, 2_097_151, Some(2_097_151)),
        (Form, redex, 1, 1, None),
        (Form, redex, 0, 7, Some(0)),
        (Beta, product, 5, 9, None),
        (Beta, product, 5, 8, Some(8)),
        (Beta, b"ed", 0, 1_048_576, None),
        (Beta, b"ed", 0, 1_048_575, Some(1_048_575)),
        (Head, redex, 1, 0, None),
        (Head, endless, 0, 0, Some(0)),
        (Head, endless, 1000, 0, Some(1000)),
    ] {
        let got = match reduced(rt.alloc(), by, text, contractions, nodes) {
            Ok(()) => Ok(None),
            Err(TermRefusal::Deep(limit)) => Ok(Some(limit)),
            Err(TermRefusal::Memory) => Err(Memory),
        };
        assert!(rt; got == Ok(want));
    }
}

// Whether the type i -> i has its node.
fn types_have_nodes(alloc: Global) -> Result<bool, Memory> {
    let mut bank = Bank::new(alloc);
    let i = put_constructor(&mut bank, 7, &[])?;
    let f = put_arrow(&mut bank, i, i)?;
    match bank.type_node(f) {
        TypeNode::Arrow(a, b) => Ok(a == i && b == i),
        _ => Ok(false),
    }
}

#[test]
fn types_are_kept(rt: HostRuntime) {
    assert!(rt; types_have_nodes(rt.alloc()) == Ok(true));
}
