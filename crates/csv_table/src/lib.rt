//! Tables of comma-separated records under a fixed header.
//!
//! The text is read as the `csv` crate reads it by default, in the style of RFC 4180:
//!
//! - Commas part cells, and line ends (`\n`, `\r` or `\r\n`) part records. A line with nothing on it is no record.
//! - A cell in double quotes may hold commas, line ends and, doubled, quotes. Blanks round a cell belong to it.
//! - No text is refused for its quotes: one within an unquoted cell is a byte of the cell, and one that is never closed takes the
//!   rest of the text into its cell.
//! - A byte order mark at the start of the text is dropped.
//!
//! A cell is bytes, and what they mean is left to the reader of each table.
#![tactic(auto)]

ghost use Rattle.std.specs.Prelude.{◌≡◌, ◌<◌, ◌≤◌, ◌+◌, ◌++◌, ◌∷◌, ◌^◌, unsigned_abs, IfOk, IfErr, IfSome, map, drop, length, get_or, List, ℕ, []};
ghost use Rattle.csv.specs.Records.{fields_of, partial_of};
ghost use Rattle.record_reading.specs.Records.{Record, cell_of};
ghost use Rattle.csv_table.specs.Table.{frame_of, header_line, is_over, number_in, same_record, table_of};
ghost use Rattle.csv_table.specs.Records.{IsFlat, IsPushStop, IsRecordsStop, first_of, records_in};

use csv::{ByteRecord, ReaderBuilder};
use plain_list::Memory;
use record_reading::{FrameFault, Why};
use scaled_decimal::read;
use std::alloc::{AllocError, Global};
use std::marker::Model;

/// Why the records of a text were not all read.
#[derive(Debug, Drop)]
enum RecordsStop {
    /// The reader was refused memory, or its source failed.
    Reader(csv::Error),
    /// A record has another width than the first.
    Width { line: usize },
    /// The list of cells was refused memory.
    Memory,
}

/// The records of a text, all of one width: their cells, one record after the other.
#[derive(Drop)]
struct Records {
    cells: ByteRecord,
    width: usize,
    count: usize,
}

// The bytes of a record's cell, the first being 0, and no bytes beyond the last.
fn field(cells: &ByteRecord, col: usize) -> &[u8]
    ensures { result.now ≡ cell_of (fields_of cells.now) col }
{
    match cells.get(col) {
        Some(field) => field,
        None => &[],
    }
}

// Adds the cells of a record at the end. After an error some of them may stand there.
fn append(cells: &mut ByteRecord, more: &ByteRecord) -> Result<(), AllocError>
    requires { partial_of cells.old ≡ [] }
    ensures cells { IfOk result (λ _. fields_of cells.new ≡ fields_of cells.old ++ fields_of more.now) }
    ensures partial { IfOk result (λ _. partial_of cells.new ≡ []) }
    ensures small { IfOk result (λ _. length (fields_of cells.new) < 2 ^ 64) }
{
    for col in 0..more.len() {
        cells.push_field(field(more, col))?;
    }
    let _count = cells.len();
    Ok(())
}

impl Records {
    // No records.
    fn new(alloc: Global) -> Records
        ensures flat { IsFlat result }
        ensures none { result.count ≡ 0 }
    {
        Records {
            cells: ByteRecord::new(alloc),
            width: 0,
            count: 0,
        }
    }

    // Adds a record at the end, where it has the width of the others.
    fn push(&mut self, more: &ByteRecord) -> Result<(), RecordsStop>
        requires flat { IsFlat self.old }
        requires small { self.old.count + 2 < 2 ^ 64 }
        ensures flat { IfOk result (λ _. IsFlat self.new) }
        ensures count { IfOk result (λ _. self.new.count ≡ self.old.count + 1) }
        ensures records { IfOk result (λ _. records_in self.new ≡ records_in self.old ++ fields_of more.now ∷ []) }
        ensures stop { IfErr result (IsPushStop self.old (fields_of more.now)) }
    {
        if self.count == 0 {
            self.width = more.len();
        } else if more.len() != self.width {
            return Err(RecordsStop::Width {
                line: self.count + 1,
            });
        }
        if append(&mut self.cells, more).is_err() {
            return Err(RecordsStop::Memory);
        }
        self.count += 1;
        Ok(())
    }

    // The bytes of a cell, and no bytes beyond the width.
    fn cell(&self, place: usize, col: usize) -> &[u8]
        requires flat { IsFlat self.now }
        requires place { place < self.now.count }
        ensures { result.now ≡ cell_of (get_or (records_in self.now) place []) col }
    {
        if col < self.width {
            field(&self.cells, place * self.width + col)
        } else {
            &[]
        }
    }

    // Whether the cells of the first record are these names.
    fn is_header(&self, header: &[&str]) -> bool
        requires flat { IsFlat self.now }
        requires some { 0 < self.now.count }
        ensures { result ≡ same_record (first_of (records_in self.now)) (map (λ f. f.now) header.now) }
    {
        if self.width != header.len() {
            return false;
        }
        for (col, name) in header.iter().enumerate() {
            if self.cell(0, col) != name.as_bytes() {
                return false;
            }
        }
        true
    }
}

// All records of a text, the header first, where they are of one width.
fn records_of(alloc: Global, bytes: &[u8]) -> Result<Records, RecordsStop>
    ensures flat { IfOk result IsFlat }
    ensures ok { IfOk result (λ records. records_in records ≡ table_of bytes.now) }
    ensures err { IfErr result (IsRecordsStop (table_of bytes.now)) }
{
    let mut reader = ReaderBuilder::new()
        .has_headers(false)
        .flexible(true)
        .from_reader(alloc, bytes);
    let mut records = Records::new(alloc);
    let mut record = ByteRecord::new(alloc);
    'records: for _ in 0..usize::MAX {
        match reader.read_byte_record(&mut record) {
            Ok(true) => records.push(&record)?,
            Ok(false) => return Ok(records),
            Err(error) => return Err(RecordsStop::Reader(error)),
        }
    }
    Err(RecordsStop::Memory)
}

/// The records under a table's header, each as wide as the header. Contracts see it as the list of these records.
#[derive(Drop)]
pub struct Table {
    records: Records,
}

impl Model for Table {
    ghost Value = { List Record };

    ghost view = { λ table. drop 1 (records_in table.records) };

    ghost invariant = { λ table. IsFlat table.records × (0 < table.records.count) };
}

impl Table {
    /// How many records there are under the header.
    pub fn len(&self) -> usize
        ensures count { result ≡ length self.now }

        // So that a record's line, its place + 2, is a `usize`.
        ensures small { result + 2 < 2 ^ 64 }
    {
        self.records.count - 1
    }

    /// The bytes of a cell with its quotes undone, records and columns counted from 0: the record at place `place` stands on line `place` + 2.
    /// A column beyond the table's width is empty.
    pub fn cell(&self, place: usize, col: usize) -> &[u8]
        requires { place < length self.now }
        ensures { result.now ≡ cell_of (get_or self.now place []) col }
    {
        self.records.cell(place + 1, col)
    }

    /// The number of units of `10^-places` that the decimal in a cell is, records and columns counted from 0.
    pub fn number(&self, place: usize, col: usize, places: u8) -> Result<i64, FrameFault>
        requires place { place < length self.now }
        requires line { place + 2 < 2 ^ 64 }
        requires col { col + 1 < 2 ^ 64 }
        requires places { places ≤ 18 }
        ensures small { IfOk result (λ number. unsigned_abs number < 2 ^ 63) }
        ensures is { result ≡ number_in (place + 2) (get_or self.now place []) col places }
    {
        match read(self.cell(place, col), places) {
            Ok(number) => Ok(number),
            Err(why) => Err(FrameFault::Cell {
                line: place + 2,
                col: col + 1,
                why: Why::Decimal(why),
            }),
        }
    }
}

// Whether a number of records is above a limit.
fn is_above(count: usize, most: Option<usize>) -> bool
    ensures { result ≡ is_over most count }
{
    match most {
        Some(most) => count > most,
        None => false,
    }
}

// The records under the header, where the first of some records is the header, and they are not too many.
fn under_header(records: Records, header: &[&str], most: Option<usize>) -> Result<Table, FrameFault>
    requires { IsFlat records }
    ensures is { result ≡ frame_of (map (λ name. name.now) header.now) most (records_in records) }
    ensures few { IfOk result (λ table. IfSome most (λ most. length table ≤ most)) }
{
    if records.count == 0 || !records.is_header(header) {
        return Err(FrameFault::Header);
    }
    let count = records.count - 1;
    if is_above(count, most) {
        return Err(FrameFault::TooMany { count });
    }
    Ok(Table { records })
}

/// Reads the table of a text that has this header and at most `most` records under it, or tells the first fault of its frame.
/// With no `most` any number of records will do.
pub fn read_table(
    alloc: Global,
    bytes: &[u8],
    header: &[&str],
    most: Option<usize>,
) -> Result<Result<Table, FrameFault>, Memory>
    ensures is { IfOk result (λ read. read ≡ frame_of (map (λ name. name.now) header.now) most (table_of bytes.now)) }
    ensures few { IfOk result (λ read. IfOk read (λ table. IfSome most (λ most. length table ≤ most))) }
{
    match records_of(alloc, bytes) {
        Ok(records) => Ok(under_header(records, header, most)),
        Err(RecordsStop::Width { line }) => Ok(Err(FrameFault::Width { line })),
        Err(_) => Err(Memory),
    }
}

/// The text of a table that has this header and no records: the line of its cells, with commas between.
pub fn header_line(alloc: Global, header: &[&str]) -> Result<Vec<u8>, AllocError>
    ensures { IfOk result (λ bytes. bytes.items ≡ header_line (map (λ name. name.now) header.now)) }
{
    let mut line = header.join(alloc, ",")?;
    line.push_str("\n")?;
    Ok(line.into_bytes())
}
