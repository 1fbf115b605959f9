//! A dictionary: rows of coefficients rewritten so that each basic variable is a combination of the other ones, with
//! the pivot that exchanges two of them. Exact, and generic over the type of its numbers.
#![tactic(auto)]

mod adding;
mod changes;
mod column;
mod dict;
mod index;
mod note;
mod place;
mod table;
mod zero;

pub use adding::AddStop;
pub use dict::Dict;
pub use note::Note;
pub use place::Place;
