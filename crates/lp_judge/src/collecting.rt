// The certificates of the answers of a search.

use lp_base::{MAX_IMAGE_BYTES, Memory};
use lp_cert::{CertFault, write_cert};
use lp_model::{Answer, Certificate, Ending, Event};
use lp_plain::Search;
use lp_prove::certificate;
use lp_term::{Bank, TermRefusal};
use lp_watch::{Counter, Crowd};
use std::alloc::{AllocFailed, Global};

/// Why there is no file of certificates.
#[derive(Clone, Copy, Debug, PartialEq, Eq, Drop)]
pub(crate) enum Stopped {
    /// A normal form is too large.
    Deep,
    /// The certificates take more bytes than a file of them has.
    Long,
    Memory,
}

impl From<Memory> for Stopped {
    ghost use Rattle.std.specs.Prelude.{◌≡◌};
    ghost use Rattle.lp_judge.specs.declared.collecting.Stopped.TheVariants as stopped;

    ghost from_gives = { λ _ e. e ≡ stopped.Memory };

    fn from(_: Memory) -> Stopped {
        Stopped::Memory
    }
}

impl<T: Drop> From<AllocFailed<T>> for Stopped {
    ghost use Rattle.std.specs.Prelude.{◌≡◌};
    ghost use Rattle.lp_judge.specs.declared.collecting.Stopped.TheVariants as stopped;

    ghost from_gives = { λ _ e. e ≡ stopped.Memory };

    fn from(_: AllocFailed<T>) -> Stopped {
        Stopped::Memory
    }
}

/// The certificates of a search's answers without residual pairs, in order, as the bytes of a file; how many answers there are, and how the search ended.
#[derive(Drop)]
pub(crate) struct Collected {
    pub(crate) bytes: Vec<u8>,
    pub(crate) answers: u64,
    pub(crate) ending: Ending,
}

// The certificates so far in their bank, how many bytes they take in a file, and how many answers there were.
#[derive(Drop)]
struct Found {
    alloc: Global,
    bank: Bank,
    certificates: Vec<Certificate>,
    size: u64,
    answers: u64,
}

// How many bytes a file has before the first certificate.
const START: u64 = 10;

fn spelled(alloc: Global, certificates: &[Certificate], bank: &Bank) -> Result<Vec<u8>, Stopped> {
    match write_cert(alloc, certificates, bank) {
        Ok(bytes) => Ok(bytes),
        Err(CertFault::Limit(_)) => Err(Stopped::Long),
        Err(_) => Err(Stopped::Memory),
    }
}

fn certified(alloc: Global, search: &Search, bank: &mut Bank) -> Result<Certificate, Stopped> {
    match certificate(alloc, search, bank) {
        Ok(made) => Ok(made),
        Err(TermRefusal::Deep(_)) => Err(Stopped::Deep),
        Err(TermRefusal::Memory) => Err(Stopped::Memory),
    }
}

impl Found {
    fn new(alloc: Global) -> Found {
        Found {
            alloc,
            bank: Bank::new(alloc),
            certificates: Vec::new(alloc),
            size: START,
            answers: 0,
        }
    }

    // How many bytes the certificate from this place on takes.
    fn size_from(&self, place: usize) -> Result<u64, Stopped> {
        let Some(last) = self.certificates.get(place..) else {
            return Err(Stopped::Memory);
        };
        let bytes = spelled(self.alloc, last, &self.bank)?;
        Ok((bytes.len() as u64).saturating_sub(START))
    }

    // One certificate more, where there is room for it.
    fn keep(&mut self, made: Certificate) -> Result<(), Stopped> {
        let place = self.certificates.len();
        self.certificates.push(made)?;
        self.size = self.size.saturating_add(self.size_from(place)?);
        if self.size > MAX_IMAGE_BYTES {
            return Err(Stopped::Long);
        }
        Ok(())
    }

    // One answer more. One with residual pairs has no certificate.
    fn take(&mut self, search: &Search, answer: &Answer) -> Result<(), Stopped> {
        self.answers = self.answers.saturating_add(1);
        if !answer.pairs.is_empty() {
            return Ok(());
        }
        let made = certified(self.alloc, search, &mut self.bank)?;
        self.keep(made)
    }

    fn end(&self, ending: Ending) -> Result<Collected, Stopped> {
        Ok(Collected {
            bytes: spelled(self.alloc, self.certificates.as_slice(), &self.bank)?,
            answers: self.answers,
            ending,
        })
    }
}

/// Searches to the end, and makes the certificate of each answer as it is found.
pub(crate) fn collect(alloc: Global, mut search: Search) -> Result<Collected, Stopped> {
    let mut found = Found::new(alloc);
    let mut nobody: Vec<Counter> = Vec::new(alloc);
    let mut crowd = Crowd::silent(alloc, &mut nobody);
    'events: for _ in 0..u64::MAX {
        match search.next(&mut crowd)? {
            Event::Answer(answer) => found.take(&search, &answer)?,
            Event::Ended(ending) => return found.end(ending),
        }
    }
    Err(Stopped::Memory)
}
