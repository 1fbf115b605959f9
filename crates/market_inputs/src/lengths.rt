//! Files that are too long.

ghost use Rattle.std.specs.Prelude.{◌≡◌, Ok, Err, OnOk, IfErr};
ghost use Rattle.refusal_text.specs.declared.refusals.Refusal.TheVariants as refusal;
ghost use Rattle.market_inputs.specs.Files.{sized};

use crate::stops::InputStop;
use refusal_text::{Input, Refusal};

/// The most bytes of a file.
pub const MOST_FILE: usize = 33_554_432;

/// Stops at a file that is too long.
pub(crate) fn check_length(bytes: &[u8], file: Input) -> Result<(), InputStop>
    ensures short { OnOk result (sized (refusal.TooLong file) bytes.now ≡ Ok bytes.now) }
    ensures long { IfErr result (λ stop. (stop ≡ InputStop.Refused (refusal.TooLong file)) × (sized (refusal.TooLong file) bytes.now ≡ Err (refusal.TooLong file))) }
{
    if bytes.len() > MOST_FILE {
        return Err(InputStop::Refused(Refusal::TooLong(file)));
    }
    Ok(())
}
