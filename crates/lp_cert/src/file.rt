// Files of certificates.
ghost use Rattle.std.specs.Prelude.{◌≡◌, ◌≤◌, ◌<◌, [], All, List, map, length, OnOk, IfOk, IfErr, Ok};
ghost use Rattle.std.specs.List.{flat_map};
ghost use Rattle.lp_term.specs.Nodes.{Nodes, Extends};
ghost use Rattle.lp_bytes.specs.Reading.{Gives, Comes, Passes, left_of, each_at};
ghost use Rattle.lp_bytes.specs.Writing.{text_of, more};
ghost use Rattle.lp_cert.specs.Arities.{counts_of, counts_in};
ghost use Rattle.lp_cert.specs.Certified as certified;
ghost use Rattle.lp_cert.specs.Certified.{certificate_of};
ghost use Rattle.lp_cert.specs.Reading.{version_at, certificate_at, certificates_of};
ghost use Rattle.lp_cert.specs.Refusing.{Tells, IsLimit};
ghost use Rattle.lp_cert.specs.Spellable.{AreCertificates};
ghost use Rattle.lp_cert.specs.Standing.{IsCertificateInside};
ghost use Rattle.lp_cert.specs.Spelling.{spelled_certificate, spelled_certificates};

use crate::arities::Arities;
use crate::fault::CertFault;
use crate::nodes::{read_proof, write_proof};
use crate::terms::{read_terms, write_terms};
use crate::types::{read_types, write_types};
use lp_base::Memory;
use lp_bytes::{Fault, ReadError, Reader, Writer};
use lp_model::Certificate;
use lp_module::Assembled;
use lp_term::Bank;
use std::alloc::Global;

#[tactic(auto, unfolding(crate::specs::Reading::version_at))]
fn read_version(reader: &mut Reader<'_>) -> Result<(), ReadError>
    ensures { Passes result (left_of reader.new) (version_at (left_of reader.old)) }
{
    let version = reader.two()?;
    if version == 1 {
        return Ok(());
    }
    Err(ReadError::Fault(Fault::BadVersion(version)))
}

#[tactic(auto, unfolding(crate::specs::Reading::certificate_at))]
fn read_certificate(
    alloc: Global,
    reader: &mut Reader<'_>,
    arities: &Arities<'_>,
    bank: &mut Bank,
) -> Result<Certificate, ReadError>
    ensures kept { Extends bank.old bank.new }
    ensures inside { IfOk result (IsCertificateInside bank.new) }
    ensures read { (b : Nodes) → Extends bank.new b → Gives (certificate_of b) result (left_of reader.new) (certificate_at (counts_of arities.now) (left_of reader.old)) }
{
    let count = reader.four()?;
    let types = read_types(alloc, reader, arities, bank, count)?;
    let count = reader.four()?;
    let values = read_terms(alloc, reader, arities, bank, count)?;
    let proof = read_proof(alloc, reader, arities, bank)?;
    Ok(Certificate {
        types,
        values,
        proof,
    })
}

// So many certificates.
fn read_certificates(
    alloc: Global,
    reader: &mut Reader<'_>,
    arities: &Arities<'_>,
    bank: &mut Bank,
    count: u32,
) -> Result<Vec<Certificate>, ReadError>
    ensures kept { Extends bank.old bank.new }
    ensures inside { IfOk result (λ cs. All (IsCertificateInside bank.new) cs.items) }
    ensures read { (b : Nodes) → Extends bank.new b → Gives (λ cs. map (certificate_of b) cs.items) result (left_of reader.new) (each_at (λ before. certificate_at (counts_of arities.now)) [] count (left_of reader.old)) }
{
    let mut certificates = Vec::new(alloc);
    for _ in 0..count {
        let certificate = read_certificate(alloc, reader, arities, bank)?;
        certificates.push(certificate)?;
    }
    Ok(certificates)
}

#[tactic(auto, unfolding(crate::specs::Reading::certificates_of))]
fn read_file(
    alloc: Global,
    bytes: &[u8],
    arities: &Arities<'_>,
    bank: &mut Bank,
) -> Result<Vec<Certificate>, ReadError>
    ensures kept { Extends bank.old bank.new }
    ensures inside { IfOk result (λ cs. All (IsCertificateInside bank.new) cs.items) }
    ensures read { Comes (λ cs. map (certificate_of bank.new) cs.items) result (certificates_of (counts_of arities.now) bytes.now) }
{
    let mut reader = Reader::begin(bytes)?;
    reader.magic(b"LPCT")?;
    read_version(&mut reader)?;
    let count = reader.four()?;
    let certificates = read_certificates(alloc, &mut reader, arities, bank, count)?;
    reader.end()?;
    Ok(certificates)
}

// The same over the kinds and constants of a program.
fn read_over(
    alloc: Global,
    bytes: &[u8],
    names: &Assembled,
    bank: &mut Bank,
) -> Result<Vec<Certificate>, CertFault>
    ensures kept { Extends bank.old bank.new }
    ensures inside { IfOk result (λ cs. All (IsCertificateInside bank.new) cs.items) }
    ensures exact { Tells (λ read. map (certificate_of bank.new) read.items) result (certificates_of (counts_in names.now) bytes.now) }
{
    let arities = Arities::of(names);
    match read_file(alloc, bytes, &arities, bank) {
        Ok(certificates) => Ok(certificates),
        Err(error) => Err(CertFault::from(error)),
    }
}

/// The certificates that the bytes spell, over the kinds and constants of a program, their types and terms put into the bank; or the first fault in
/// the order of the bytes.
pub fn read_cert(
    alloc: Global,
    bytes: &[u8],
    names: &Assembled,
    bank: &mut Bank,
) -> Result<Vec<Certificate>, CertFault>
    ensures kept { Extends bank.old bank.new }
    // What is read stands in the bank.
    ensures inside { IfOk result (λ cs. All (IsCertificateInside bank.new) cs.items) }
    // What is read is spelled so, and over the kinds and constants of the program.
    ensures found { IfOk result (λ cs. (length bytes.now ≤ 16777216) × AreCertificates (counts_in names.now) (map (certificate_of bank.new) cs.items) × (bytes.now ≡ spelled_certificates (map (certificate_of bank.new) cs.items))) }
    // What is spelled so is read, unless memory runs out.
    ensures only { (cs : List certified.Certificate) → length bytes.now ≤ 16777216 → AreCertificates (counts_in names.now) cs → bytes.now ≡ spelled_certificates cs → Tells (λ read. map (certificate_of bank.new) read.items) result (Ok cs) }
    // Which fault it is: that there are too many bytes before all others, and else the first one from left to right.
    ensures exact { Tells (λ read. map (certificate_of bank.new) read.items) result (certificates_of (counts_in names.now) bytes.now) }
{
    read_over(alloc, bytes, names, bank)
}

fn write_certificate(
    alloc: Global,
    writer: &mut Writer,
    bank: &Bank,
    certificate: &Certificate,
) -> Result<(), Memory>
    ensures { OnOk result (text_of writer.new ≡ more (text_of writer.old) (spelled_certificate (certificate_of bank.now certificate.now))) }
{
    writer.low_four(certificate.types.len() as u64)?;
    write_types(alloc, writer, bank, certificate.types.as_slice())?;
    writer.low_four(certificate.values.len() as u64)?;
    write_terms(alloc, writer, bank, certificate.values.as_slice())?;
    write_proof(alloc, writer, bank, certificate.proof.as_slice())
}

fn write_certificates(
    alloc: Global,
    writer: &mut Writer,
    bank: &Bank,
    certificates: &[Certificate],
) -> Result<(), Memory>
    ensures { OnOk result (text_of writer.new ≡ more (text_of writer.old) (flat_map spelled_certificate (map (certificate_of bank.now) certificates.now))) }
{
    for certificate in certificates {
        write_certificate(alloc, writer, bank, certificate)?;
    }
    Ok(())
}

/// The bytes that spell the certificates, whose numbers stand in the bank. `Limit` where these are more than a file may have.
pub fn write_cert(
    alloc: Global,
    certificates: &[Certificate],
    bank: &Bank,
) -> Result<Vec<u8>, CertFault>
    // The one spelling, of which a number that does not fit its field gives its lowest bytes.
    ensures spelled { IfOk result (λ bytes. (bytes.items ≡ spelled_certificates (map (certificate_of bank.now) certificates.now)) × (length bytes.items ≤ 16777216)) }
    // There are too many bytes, unless memory ran out.
    ensures many { IfErr result (λ fault. IsLimit fault (16777216 < length (spelled_certificates (map (certificate_of bank.now) certificates.now)))) }
{
    let mut writer = Writer::new(alloc);
    writer.put(b"LPCT")?;
    writer.two(1)?;
    writer.low_four(certificates.len() as u64)?;
    write_certificates(alloc, &mut writer, bank, certificates)?;
    match writer.finish() {
        Ok(bytes) => Ok(bytes),
        Err(limit) => Err(CertFault::Limit(limit)),
    }
}
