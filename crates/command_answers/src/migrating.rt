//! Certificates that are written anew.

ghost use Rattle.std.specs.Prelude.{◌≡◌, IfOk};
ghost use Rattle.cert_format.specs.Certificates.{cert_at};
ghost use Rattle.command_answers.specs.Inputs.{IsCertificate};
ghost use Rattle.command_answers.specs.Migrating.{TellsMigration};
ghost use Rattle.command_answers.specs.Status.{IsOfWork};
ghost use Rattle.command_answers.specs.Tellings.{Tells, telling_of};
ghost use Rattle.number_bits.specs.Bits.{most_of};

use crate::status::Status;
use crate::told::{Outputs, Told, refused};
use cert_format::{Cert, to_json};
use exact_fraction::{Exact, Frac};
use line_text::Text;
use long_fraction::Frac1023;
use market_inputs::{InputStop, read_certificate};
use market_model::Memory;
use number_bits::NumberBits;
use std::alloc::Global;

/// What a certificate that was read comes to.
fn migrated<N: Exact>(alloc: Global, certificate: &Cert<N>) -> Result<Told, Memory>
    ensures status { IfOk result (λ told. IsOfWork told.status) }
    ensures migrates { IfOk result (λ told. TellsMigration (cert_at N.value certificate.now) (telling_of told)) }
{
    let written = to_json(alloc, certificate)?;
    let mut text = Text::new(alloc);
    text.word(b"migrated\n")?;
    Ok(Told {
        status: Status::Done,
        text: text.into_bytes(),
        outputs: Outputs::certified(Some(written)),
    })
}

/// What the whole bytes of a certificate come to by one type of numbers.
fn migrate_by<N: Exact>(alloc: Global, certificate: &[u8]) -> Result<Told, Memory>
    ensures status { IfOk result (λ told. IsOfWork told.status) }
    ensures tells { IfOk result (λ told. Tells (IsCertificate N.bound certificate.now) TellsMigration (telling_of told)) }
{
    match read_certificate::<N>(alloc, certificate) {
        Ok(read) => migrated(alloc, &read),
        Err(InputStop::Refused(refusal)) => refused(alloc, &refusal),
        Err(InputStop::Memory) => Err(Memory),
    }
}

/// What the whole bytes of a certificate come to, of whatever version, that is to be written anew. Its numbers may have so many bits.
pub fn migrate_told(alloc: Global, certificate: &[u8], bits: NumberBits) -> Result<Told, Memory>
    ensures status { IfOk result (λ told. IsOfWork told.status) }
    ensures tells { IfOk result (λ told. Tells (IsCertificate (most_of bits) certificate.now) TellsMigration (telling_of told)) }
{
    match bits {
        NumberBits::Bits127 => migrate_by::<Frac>(alloc, certificate),
        NumberBits::Bits1023 => migrate_by::<Frac1023>(alloc, certificate),
    }
}
