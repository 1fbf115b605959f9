//! What a command comes to.

ghost use Rattle.std.specs.Prelude.{◌≡◌, IfOk};
ghost use Rattle.command_answers.specs.Status.{IsOfWork};
ghost use Rattle.command_answers.specs.Tellings.{certified, refusal_of, tabled, telling_of, uncertified};

use crate::status::Status;
use plain_list::Memory;
use refusal_text::{Refusal, refusal_text};
use std::alloc::Global;

/// What a command has to write to files, whatever stands for each: its bytes, the name of its file. They are written in this order.
#[derive(Clone, Copy, Debug, Drop)]
pub struct Outputs<T> {
    /// The table of shift factors that was made.
    pub ptdf: Option<T>,
    /// The table of outage factors that was made.
    pub lodf: Option<T>,
    /// The certificate of what was cleared last, or one that is written anew.
    pub certificate: Option<T>,
}

impl<T> Outputs<T> {
    /// A certificate alone, where there is one.
    pub fn certified(certificate: Option<T>) -> Outputs<T>
        ensures { result ≡ certified certificate }
    {
        Outputs {
            ptdf: None,
            lodf: None,
            certificate,
        }
    }

    /// A table of shift factors, and one of outage factors where there is one.
    pub fn tabled(ptdf: T, lodf: Option<T>) -> Outputs<T>
        ensures { result ≡ tabled ptdf lodf }
    {
        Outputs {
            ptdf: Some(ptdf),
            lodf,
            certificate: None,
        }
    }
}

/// A status, the text that goes with it, and the bytes that there are for files.
#[derive(Drop)]
pub struct Told {
    pub status: Status,
    pub text: Vec<u8>,
    pub outputs: Outputs<Vec<u8>>,
}

/// What a command comes to by numbers of one type, and whether one of these became too large: in what is told, or on the way to the first prices
/// of an answer, which then has its own.
#[derive(Drop)]
pub(crate) struct Attempt {
    pub told: Told,
    pub is_passed: bool,
}

/// A status and its text, with nothing for a file.
pub(crate) fn uncertified(status: Status, text: Vec<u8>) -> Told
    ensures status { result.status ≡ status }
    ensures telling { telling_of result ≡ uncertified status text.items }
{
    Told {
        status,
        text,
        outputs: Outputs::certified(None),
    }
}

/// The line that refuses a file.
pub(crate) fn refused(alloc: Global, refusal: &Refusal) -> Result<Told, Memory>
    ensures status { IfOk result (λ told. IsOfWork told.status) }
    ensures telling { IfOk result (λ told. telling_of told ≡ refusal_of refusal.now) }
{
    let text = refusal_text(alloc, refusal)?;
    Ok(uncertified(Status::Refused, text))
}
