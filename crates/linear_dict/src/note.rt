ghost use Rattle.std.specs.Prelude.{◌≡◌};
ghost use Rattle.linear_dict.specs.Notes.{noted, blank};

use exact_fraction::Exact;

/// What the layer above keeps of a variable. The dictionary only holds it.
#[derive(Clone, Copy, PartialEq, Debug)]
pub struct Note<N> {
    /// What a unit of the variable is worth.
    pub price: N,
    pub low: N,
    pub high: N,
    pub value: N,
    /// What the objective gains for a unit of an other variable.
    pub reduced: N,
    /// Whether an other variable stands at its high bound, and not at its low one.
    pub at_high: bool,
}

/// The note of a variable that is new: zeros.
pub(crate) fn blank_note<N: Exact>() -> Note<N>
    ensures { noted N.value result ≡ blank }
{
    let zero = N::of_parts(0, 1);
    Note {
        price: zero,
        low: zero,
        high: zero,
        value: zero,
        reduced: zero,
        at_high: false,
    }
}
