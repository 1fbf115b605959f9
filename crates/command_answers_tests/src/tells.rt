//! What a command told, compared whole.

use command_answers::{Status, Told};

/// Whether a command ended with a status and a text.
pub(crate) fn tells(told: Told, status: Status, text: &[u8]) -> bool {
    told.status == status && told.text.as_slice() == text
}
