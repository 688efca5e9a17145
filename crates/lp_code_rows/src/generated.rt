// Codes of clauses and queries, as numbers.

mod build;
mod numbers;

use build::{term_of, type_of};
use lp_base::{Memory, Place, Spot};
use lp_code::Code;
use lp_gen::{GenRefusal, generate, generate_query};
use lp_model::{Clause, Declared, Goal, Typed};
use lp_term::{Bank, TypeId};
use numbers::numbers_of;
use std::alloc::Global;

// Types and terms are made in `bank`.
#[derive(Drop)]
struct Maker {
    alloc: Global,
    bank: Bank,
    constants: Vec<Declared>,
}

impl Maker {
    fn new(alloc: Global) -> Maker {
        Maker {
            alloc,
            bank: Bank::new(alloc),
            constants: Vec::new(alloc),
        }
    }

    fn declare(&mut self, type_vars: u8, scheme: &[u8]) -> Result<(), Memory> {
        let scheme = type_of(self.alloc, &mut self.bank, scheme)?;
        self.constants.push(Declared {
            shown: Vec::new(self.alloc),
            type_vars,
            scheme,
        })?;
        Ok(())
    }

    fn types(&mut self, texts: &[&[u8]]) -> Result<Vec<TypeId>, Memory> {
        let mut types = Vec::new(self.alloc);
        for text in texts.iter().copied() {
            types.push(type_of(self.alloc, &mut self.bank, text)?)?;
        }
        Ok(types)
    }

    fn atom(&mut self, text: &[u8]) -> Result<Goal, Memory> {
        Ok(Goal::Atom(term_of(self.alloc, &mut self.bank, text)?))
    }

    fn clause(
        &mut self,
        type_vars: u32,
        vars: &[&[u8]],
        head: &[u8],
        body: Vec<Goal>,
    ) -> Result<Clause, Memory> {
        Ok(Clause {
            type_vars,
            vars: self.types(vars)?,
            head: term_of(self.alloc, &mut self.bank, head)?,
            body,
        })
    }

    fn fact(&mut self, type_vars: u32, vars: &[&[u8]], head: &[u8]) -> Result<Clause, Memory> {
        self.clause(type_vars, vars, head, Vec::new(self.alloc))
    }

    fn code(&self, clause: Clause) -> Result<Code, GenRefusal> {
        let clauses = vec![in self.alloc; clause]?;
        generate(
            self.alloc,
            &self.bank,
            self.constants.as_slice(),
            clauses.as_slice(),
        )
    }
}

// q a
fn a_fact(alloc: Global) -> Result<Code, GenRefusal> {
    let mut maker = Maker::new(alloc);
    maker.declare(0, b"i")?;
    maker.declare(0, b"io>")?;
    let clause = maker.fact(0, &[], b"ba@")?;
    maker.code(clause)
}

fn with_append(alloc: Global) -> Result<Maker, Memory> {
    let mut maker = Maker::new(alloc);
    maker.declare(1, b"AlAlAlo>>>")?;
    Ok(maker)
}

// append nil L L
fn append_nil(alloc: Global) -> Result<Code, GenRefusal> {
    let mut maker = with_append(alloc)?;
    let clause = maker.fact(1, &[b"Al"], b"PN00%")?;
    maker.code(clause)
}

// append (X :: L1) L2 (X :: L3) :- append L1 L2 L3
fn append(alloc: Global) -> Result<Code, GenRefusal> {
    let mut maker = with_append(alloc)?;
    let body = vec![in alloc; maker.atom(b"P123%")?]?;
    let clause = maker.clause(1, &[b"A", b"Al", b"Al", b"Al"], b"PC01#2C03#%", body)?;
    maker.code(clause)
}

// of (abs M) (arr A B) :- pi x\ (of x A => of (M x) B)
fn abstractions(alloc: Global) -> Result<Code, GenRefusal> {
    let mut maker = Maker::new(alloc);
    maker.declare(0, b"ii>i>")?;
    maker.declare(0, b"ttt>>")?;
    maker.declare(0, b"ito>>")?;
    let assumed = maker.fact(0, &[], b"c02#")?;
    let goal = maker.atom(b"c10@3#")?;
    let assume = Goal::Assume(vec![in alloc; assumed]?, vec![in alloc; goal]?);
    let of = type_of(alloc, &mut maker.bank, b"i")?;
    let body = vec![in alloc; Goal::All(of, vec![in alloc; assume]?)]?;
    let clause = maker.clause(0, &[b"ii>", b"t", b"t"], b"ca0@b12##", body)?;
    maker.code(clause)
}

// a :- (b ; !), sigma x\ (c x, not (c x))
fn blocks(alloc: Global) -> Result<Code, GenRefusal> {
    let mut maker = Maker::new(alloc);
    maker.declare(0, b"o")?;
    maker.declare(0, b"o")?;
    maker.declare(0, b"io>")?;
    let left = vec![in alloc; maker.atom(b"b")?]?;
    let either = Goal::Either(left, vec![in alloc; Goal::Cut]?);
    let denied = vec![in alloc; maker.atom(b"c0@")?]?;
    let inner = vec![in alloc; maker.atom(b"c0@")?, Goal::Not(denied)]?;
    let of = type_of(alloc, &mut maker.bank, b"i")?;
    let body = vec![in alloc; either, Goal::Some(of, inner)]?;
    let clause = maker.clause(0, &[], b"a", body)?;
    maker.code(clause)
}

// b X :- (pi Y\ a (x\ Y) (x\ Y) :- (a (x\ x) (x\ Y) :- X (x\ Y)) => a (x\ x) (x\ Y)) => X (x\ x)
fn nested(alloc: Global) -> Result<Code, GenRefusal> {
    let mut maker = Maker::new(alloc);
    maker.declare(0, b"ii>ii>o>>")?;
    maker.declare(0, b"ii>o>o>")?;
    let goal = maker.atom(b"11\\@")?;
    let deepest = maker.clause(0, &[], b"a0\\1\\#", vec![in alloc; goal]?)?;
    let goal = maker.atom(b"a0\\1\\#")?;
    let inside = Goal::Assume(vec![in alloc; deepest]?, vec![in alloc; goal]?);
    let assumed = maker.clause(0, &[b"i"], b"a1\\1\\#", vec![in alloc; inside]?)?;
    let goal = maker.atom(b"00\\@")?;
    let assume = Goal::Assume(vec![in alloc; assumed]?, vec![in alloc; goal]?);
    let clause = maker.clause(0, &[b"ii>o>"], b"b0@", vec![in alloc; assume]?)?;
    maker.code(clause)
}

// F = (x\ x), over a variable F
fn asked(alloc: Global) -> Result<Code, GenRefusal> {
    let mut maker = Maker::new(alloc);
    let body = vec![in alloc; maker.atom(b"E00\\#")?]?;
    let of = type_of(alloc, &mut maker.bank, b"ii>")?;
    let at = Place { line: 1, column: 1 };
    let spot = Spot {
        file: 0,
        from: 0,
        to: 1,
        at,
    };
    let query = Typed {
        type_vars: 0,
        vars: vec![in alloc; (spot, of)]?,
        formula: term_of(alloc, &mut maker.bank, b"E00\\#")?,
    };
    generate_query(
        alloc,
        &maker.bank,
        maker.constants.as_slice(),
        &query,
        body.as_slice(),
    )
}

fn is_code(alloc: Global, got: Result<Code, GenRefusal>, want: &[u32]) -> bool {
    let mut numbers = Vec::new(alloc);
    match got {
        Ok(code) => numbers_of(&mut numbers, &code).is_ok() && numbers.as_slice() == want,
        Err(_) => false,
    }
}

#[test]
fn codes(rt: HostRuntime) {
    let alloc = rt.alloc();
    let fact = [1, 33, 0, 0, 0, 0, 32, 14, 0, 32, 0, 17, 34];
    assert!(rt; is_code(alloc, a_fact(alloc), &fact));
    let nil = [
        1, 32, 0, 0, 1, 1, 15, 3, 0, 11, 0, 0, 14, 0, 15, 1, 0, 12, 1, 0, 13, 2, 0, 17, 34,
    ];
    assert!(rt; is_code(alloc, append_nil(alloc), &nil));
    let rule = [
        1, 32, 0, 0, 3, 8, 14, 3, 0, 11, 0, 0, 5, 4, 14, 1, 0, 4, 0, 0, 1, 1, 3, 1, 0, 4, 1, 1, 10,
        5, 4, 2, 0, 1, 13, 0, 5, 12, 1, 2, 5, 6, 14, 1, 0, 1, 2, 3, 1, 0, 4, 3, 2, 10, 7, 6, 2, 0,
        3, 13, 2, 7, 17, 18, 32, 1, 0, 3, 1, 2, 3, 34,
    ];
    assert!(rt; is_code(alloc, append(alloc), &rule));
    let typed = [
        1, 34, 0, 0, 6, 9, 32, 5, 3, 32, 0, 1, 0, 8, 0, 1, 1, 8, 0, 2, 2, 0, 1, 4, 0, 2, 10, 4, 3,
        1, 0, 13, 0, 4, 5, 5, 33, 0, 1, 3, 9, 0, 4, 1, 3, 1, 4, 9, 0, 4, 2, 4, 10, 6, 5, 2, 1, 2,
        13, 1, 6, 17, 1, 5, 8, 0, 28, 7, 5, 30, 1, 0, 2, 7, 1, 10, 8, 0, 1, 7, 18, 34, 0, 2, 8, 2,
        31, 29, 34, 0, 34, 0, 2, 0, 2, 0, 13, 0, 0, 13, 1, 1, 17, 34,
    ];
    assert!(rt; is_code(alloc, abstractions(alloc), &typed));
    let sides = [
        1, 32, 0, 0, 1, 1, 0, 17, 32, 10, 18, 33, 0, 0, 33, 1, 26, 1, 0, 8, 0, 27, 0, 0, 18, 34, 0,
        1, 0, 35, 18, 34, 0, 1, 0, 36, 34,
    ];
    assert!(rt; is_code(alloc, blocks(alloc), &sides));
    let equation = [
        1, 0, 0, 0, 8, 3, 0, 1, 0, 8, 0, 1, 1, 8, 0, 2, 2, 0, 1, 4, 0, 2, 17, 1, 3, 8, 0, 1, 4, 8,
        0, 2, 5, 3, 4, 1, 6, 8, 0, 8, 1, 0, 6, 1, 7, 8, 0, 9, 2, 1, 7, 20, 5, 0, 2, 34,
    ];
    assert!(rt; is_code(alloc, asked(alloc), &equation));
    let inside = [
        1, 33, 0, 0, 2, 4, 0, 12, 0, 0, 17, 30, 1, 0, 1, 0, 1, 0, 8, 0, 8, 1, 0, 0, 1, 1, 8, 0, 9,
        2, 1, 1, 10, 3, 0, 1, 2, 19, 3, 31, 34, 0, 32, 0, 1, 6, 7, 0, 1, 0, 8, 0, 4, 1, 0, 1, 1, 8,
        0, 9, 2, 1, 1, 13, 0, 2, 1, 2, 8, 0, 9, 3, 1, 2, 13, 1, 3, 17, 30, 2, 0, 2, 1, 0, 1, 3, 8,
        0, 8, 4, 0, 3, 1, 4, 8, 0, 9, 5, 4, 4, 1, 5, 8, 0, 9, 6, 1, 5, 18, 32, 0, 2, 5, 6, 31, 34,
        0, 32, 0, 2, 4, 7, 0, 1, 0, 8, 0, 8, 2, 0, 0, 1, 1, 8, 0, 9, 3, 2, 1, 13, 0, 3, 1, 2, 8, 0,
        9, 4, 0, 2, 13, 1, 4, 17, 1, 3, 8, 0, 9, 5, 0, 3, 10, 6, 1, 1, 5, 19, 6, 34,
    ];
    assert!(rt; is_code(alloc, nested(alloc), &inside));
}
