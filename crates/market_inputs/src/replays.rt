//! The steps of a table of edits, and the certificate of a text.

ghost use Rattle.std.specs.Prelude.{◌≡◌, IfOk};
ghost use Rattle.cert_format.specs.Certificates.{RowsAreDistinct, cert_at};
ghost use Rattle.edit_table.specs.EditTable.{AreSteps};
ghost use Rattle.refusal_text.specs.declared.refusals.Input.TheVariants as input;
ghost use Rattle.refusal_text.specs.declared.refusals.Refusal.TheVariants as refusal;
ghost use Rattle.market_inputs.specs.Files.{sized};
ghost use Rattle.market_inputs.specs.Replaying.{IsReadAs, certificate_in, steps_in};
ghost use Rattle.market_inputs.specs.Steps.{Is};
ghost use Rattle.market_inputs.specs.Stops.{IsToldAs};

use crate::lengths::check_length;
use crate::stops::InputStop;
use cert_format::{Cert, read_json};
use edit_table::{Steps, steps};
use exact_fraction::Exact;
use refusal_text::Input;
use std::alloc::Global;

/// The edits and clears of a table.
pub fn edit_steps(alloc: Global, bytes: &[u8]) -> Result<Steps, InputStop>
    ensures told { IsToldAs (Is (steps_in (sized (refusal.TooLong input.Edits) bytes.now))) result }
    ensures kept { IfOk result AreSteps }
{
    check_length(bytes, Input::Edits)?;
    Ok(steps(alloc, bytes)?)
}

/// The certificate that a text stands for, of numbers within the bound of a type.
pub fn read_certificate<N: Exact>(alloc: Global, bytes: &[u8]) -> Result<Cert<N>, InputStop>
    ensures told { IsReadAs N.value (certificate_in N.bound (sized (refusal.TooLong input.Certificate) bytes.now)) result }
    ensures distinct { IfOk result (λ cert. RowsAreDistinct (cert_at N.value cert)) }
{
    check_length(bytes, Input::Certificate)?;
    Ok(read_json(alloc, bytes)?)
}
