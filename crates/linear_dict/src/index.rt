// The index of variables in ascending order of their names.
ghost use Rattle.std.specs.Prelude.{◌≡◌, ℕ, ◌<◌, length, map, slice_index, IfOk};
ghost use Rattle.std.specs.List.{Contains};
ghost use Rattle.std.specs.List.Sorted.{IsStrictlyIncreasing};
ghost use Rattle.std.specs.Result.{OnErr};
ghost use Rattle.linear_dict.specs.Places.{place_in};
ghost use Rattle.linear_dict.specs.Indexes.{name_of, AddsVariable};

use crate::note::Note;
use crate::place::Place;
use exact_fraction::Exact;
use plain_list::Memory;

/// A variable: where it stands in the table now and in the rows as put in, and what is noted of it.
#[derive(Clone, Copy)]
pub(crate) struct Variable<N> {
    pub(crate) name: u32,
    pub(crate) place: Place,
    pub(crate) put: Place,
    pub(crate) note: Note<N>,
}

/// Where a name stands among names in ascending order.
pub(crate) fn rank(names: &[u32], name: u32) -> usize
    requires ascending { IsStrictlyIncreasing names.now }
    requires named { Contains names.now name }
    ensures within { result < length names.now }
    ensures place { result ≡ place_in names.now name }
{
    match names.binary_search(&name) {
        Ok(rank) => rank,
        Err(_) => unreachable!(),
    }
}

/// Puts a new variable, and its name in the list of names, where its name belongs.
pub(crate) fn add_variable<N: Exact>(
    names: &mut Vec<u32>,
    variables: &mut Vec<Variable<N>>,
    variable: Variable<N>,
) -> Result<(), Memory>
    requires ascending { IsStrictlyIncreasing (map name_of variables.old.items) }
    requires named { names.old.items ≡ map name_of variables.old.items }
    requires absent { ¬ (Contains (map name_of variables.old.items) variable.name) }
    ensures added { IfOk result (λ _. AddsVariable variables.old.items variable variables.new.items) }
    ensures same { OnErr result (variables.new.items ≡ variables.old.items) }
    ensures named { names.new.items ≡ map name_of variables.new.items }
{
    match names.reserve(1) {
        Ok(()) => {}
        Err(_) => return Err(Memory),
    }
    match names.binary_search(&variable.name) {
        Ok(_) => unreachable!(),
        Err(rank) => match variables.insert(rank, variable) {
            Ok(()) => match names.insert(rank, variable.name) {
                Ok(()) => Ok(()),
                Err(_) => unreachable!(),
            },
            Err(_) => Err(Memory),
        },
    }
}
