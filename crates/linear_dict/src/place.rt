/// Where a variable stands in the table.
#[derive(Clone, Copy, PartialEq, Eq, Debug)]
pub enum Place {
    /// A basic variable, at this row place.
    Row(usize),
    /// An other variable, at this column place.
    Column(usize),
}
