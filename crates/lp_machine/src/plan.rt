// What is known of an image before queries run on it. It is made once for all of them.
ghost use Rattle.lp_code.specs.Length.{AllFit};

use crate::rows::Rows;
use crate::standings::{Standings, has_negation};
use itoa::Buffer;
use lp_base::Memory;
use lp_code::{Image, Key, Record, RecordHead};
use lp_standard::FIRST_CONSTANT;
use lp_verify::Verified;
use std::alloc::Global;

/// The program records that a constant heads: the first one, how many there are, and whether one of them has no key.
#[derive(Clone, Copy)]
pub(crate) struct Predicate {
    pub(crate) first: u32,
    pub(crate) last: u32,
    pub(crate) count: u32,
    pub(crate) is_open: bool,
}

// Which program records each constant heads, and what constants are called.
#[derive(Drop)]
struct Predicates {
    // By constant.
    of: Vec<Option<Predicate>>,
    // For each program record the next one of the same constant.
    next: Vec<Option<u32>>,
    // The names of hidden constants.
    names: Vec<Vec<u8>>,
}

/// What is known of an image before queries run on it.
#[derive(Drop)]
pub struct Plan {
    pub(crate) rows: Rows,
    predicates: Predicates,
    // Where some goal of the image is negated.
    pub(crate) standings: Option<Standings>,
}

// A record comes behind the last one of its constant.
fn put_behind(next: &mut Vec<Option<u32>>, last: u32, number: u32) {
    if let Some(place) = next.get_mut(last as usize) {
        *place = Some(number);
    }
}

// Whether a record is a candidate whatever the first argument is.
fn has_no_key(key: &Key) -> bool {
    match key {
        Key::None => true,
        _ => false,
    }
}

impl Predicates {
    // A program record joins those of its constant.
    fn put_record(&mut self, record: &Record, number: u32) -> Result<(), Memory> {
        self.next.push(None)?;
        if let (true, Some(RecordHead::Const(constant))) = (record.program, record.head) {
            self.put_clause(constant, number, has_no_key(&record.key));
        }
        Ok(())
    }

    fn put_clause(&mut self, constant: u32, number: u32, is_open: bool) {
        let Some(at) = constant.checked_sub(FIRST_CONSTANT) else {
            return;
        };
        let Some(slot) = self.of.get_mut(at as usize) else {
            return;
        };
        let one = Predicate {
            first: number,
            last: number,
            count: 1,
            is_open,
        };
        let joined = match *slot {
            None => one,
            Some(predicate) => {
                put_behind(&mut self.next, predicate.last, number);
                Predicate {
                    last: number,
                    count: predicate.count.saturating_add(1),
                    is_open: predicate.is_open || is_open,
                    ..predicate
                }
            }
        };
        *slot = Some(joined);
    }

    // The names of the image's constants that are hidden.
    fn put_names(&mut self, alloc: Global, image: &Image) -> Result<(), Memory> {
        for constant in &image.constants {
            let mut name = Vec::new(alloc);
            if constant.hidden != 0 {
                let mut buffer = Buffer::new();
                name.extend_from_slice(constant.name.as_slice())?;
                name.push(b'$')?;
                name.extend_from_slice(buffer.format(constant.hidden).as_bytes())?;
            }
            self.names.push(name)?;
            self.of.push(None)?;
        }
        Ok(())
    }

    fn put_all(&mut self, alloc: Global, image: &Image) -> Result<(), Memory> {
        self.put_names(alloc, image)?;
        let mut number: u32 = 0;
        for record in &image.code.records {
            self.put_record(record, number)?;
            number = number.saturating_add(1);
        }
        Ok(())
    }

    fn of_image(alloc: Global, image: &Image) -> Result<Predicates, Memory> {
        let mut predicates = Predicates {
            of: Vec::new(alloc),
            next: Vec::new(alloc),
            names: Vec::new(alloc),
        };
        predicates.put_all(alloc, image)?;
        Ok(predicates)
    }
}

// What the image's negated goals and assumed clauses speak of, where some goal is negated.
fn standings_of(alloc: Global, image: &Image) -> Result<Option<Standings>, Memory>
    requires { AllFit image.now.code.records.items }
{
    if !has_negation(image.code.records.as_slice()) {
        return Ok(None);
    }
    let standings = Standings::of(alloc, &image.code)?;
    Ok(Some(standings))
}

impl Plan {
    /// What is known of an image.
    pub fn of(alloc: Global, image: &Verified) -> Result<Plan, Memory>
        requires { AllFit image.now.image.code.records.items }
    {
        let of = image.image();
        let rows = Rows::of(alloc, of.code.records.as_slice())?;
        let predicates = Predicates::of_image(alloc, of)?;
        let standings = standings_of(alloc, of)?;
        Ok(Plan {
            rows,
            predicates,
            standings,
        })
    }

    pub(crate) fn predicate(&self, constant: u32) -> Option<Predicate> {
        let at = constant.checked_sub(FIRST_CONSTANT)? as usize;
        match self.predicates.of.get(at) {
            Some(found) => *found,
            None => None,
        }
    }

    /// The next program record of the same constant.
    pub(crate) fn next(&self, record: u32) -> Option<u32> {
        match self.predicates.next.get(record as usize) {
            Some(next) => *next,
            None => None,
        }
    }

    /// The name of a hidden constant by its place among the declared ones; empty for a global one.
    pub(crate) fn hidden_name(&self, place: usize) -> &[u8] {
        match self.predicates.names.get(place) {
            Some(name) => name.as_slice(),
            None => &[],
        }
    }
}
