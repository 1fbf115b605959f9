//! Laws of the words, each the contract of a function that does nothing.

ghost use Rattle.command_words.specs.Words.{LawOfChoices};

/// Each letter of a rating, each number of places and each number of bits, of those in the three lists, means what it says.
pub fn choices_mean_their_words()
    ensures { LawOfChoices }
{}
