//! Offsets by branch.

ghost use Rattle.std.specs.Prelude.{◌≡◌, ◌==◌, IfSome};
ghost use Rattle.market_data.specs.Participants.{IsDatum};
ghost use Rattle.factor_tables.specs.Offsets.{offset_at};

use indexmap::IndexMap;
use std::marker::Model;

/// The offsets of branches that shift phases, in 10^-9 MW: what flows over such a branch where nothing is put in anywhere. Contracts
/// see it as the list of its records, also of those that are not used.
#[derive(Drop)]
pub struct Offsets {
    pub(crate) by_row: IndexMap<u32, i64>,
}

impl Model for Offsets {
    ghost use Rattle.std.specs.Prelude.{List};
    ghost use Rattle.factor_tables.specs.Offsets.{OffsetEntry, AreOffsets};

    ghost Value = { List OffsetEntry };

    ghost view = { λ offsets. offsets.by_row.entries };

    ghost invariant = { λ offsets. AreOffsets offsets.by_row.entries };
}

impl Offsets {
    /// The offset of a branch's row, where it has a record.
    pub fn offset(&self, branch: u32) -> Option<i64>
        ensures datum { IfSome result IsDatum }
        ensures is { result ≡ offset_at self.now branch }
    {
        self.by_row.get(&branch).copied()
    }
}
