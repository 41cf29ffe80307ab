//! The cells of an array as a comma-separated text gives them.

ghost use Rattle.std.specs.Prelude.{◌≡◌, ◌<◌, ◌≤◌, ◌∷◌, ◌++◌};
ghost use Rattle.sz_script.specs.Terms.{ℕ, List, [], true, length, map, get_or, Err, IfOk, OnOk};
ghost use Rattle.sz_script.specs.Terms.{MatchResult, list_all, error_kind, fields_of, Reads};
ghost use Rattle.sz_script.specs.Terms.{records_in, table_in, first_values, IsTable, fault_of};
ghost use Rattle.sz_script.specs.Records.{value_in, value_of, is_value};

use crate::command::LineFault;
use crate::layers;
use crate::refusal::Refusal;
use csv::{ByteRecord, Error, ErrorKind, ReaderBuilder};
use std::alloc::{AllocError, Global};
use sz_spec::{Array, Value};

/// The most cells that an array has.
const CELL_LIMIT: usize = 1_048_576;

/// The array of a comma-separated text. Takes time in proportion to the text, and memory for its
/// longest record and for no more cells than an array has.
pub fn array_of(alloc: Global, text: &[u8]) -> Result<Array, LineFault>
    ensures { Reads (table_in (records_in text.now)) result }
{
    let mut cells = Vec::new(alloc);
    match read_rows(alloc, text, &mut cells) {
        Ok(width) => make_array(cells, width),
        Err(fault) => Err(fault),
    }
}

/// Reads the records of a text into their first cells, and answers how many fields each has: 0
/// where there is no record.
fn read_rows(alloc: Global, text: &[u8], cells: &mut Vec<Value>) -> Result<usize, LineFault>
    requires { cells.old.items ≡ [] }
    ensures { MatchResult result (λ width. IsTable (records_in text.now) width cells.new.items)
        (λ fault. Reads (table_in (records_in text.now)) (Err fault)) }
{
    let reader = ReaderBuilder::new()
        .has_headers(false)
        .from_reader(alloc, text);
    let mut width = 0;
    for record in reader.into_byte_records() {
        match record {
            Ok(record) => {
                width = record.len();
                if !push_fields(cells, &record)? {
                    return Err(LineFault::Refused(Refusal::BadCells));
                }
            }
            Err(error) => return Err(fault_of(&error)),
        }
    }
    Ok(width)
}

/// Why a text is not read: two of its records differ in length, or there is no memory. A fault of
/// what is under the reader is told as no memory, since no contract says that bytes have none.
fn fault_of(error: &Error) -> LineFault
    ensures { result ≡ fault_of (error_kind error.now) }
{
    match error.kind() {
        ErrorKind::Io(_) => LineFault::NoMemory,
        ErrorKind::OutOfMemory => LineFault::NoMemory,
        _ => LineFault::Refused(Refusal::BadCells),
    }
}

/// Appends the values of a record to the first ones, or answers false where a field is none.
fn push_fields(cells: &mut Vec<Value>, row: &ByteRecord) -> Result<bool, AllocError>
    requires { length cells.old.items ≤ 1048577 }
    ensures tested { IfOk result (λ done. done ≡ list_all is_value (fields_of row.now)) }
    ensures pushed { IfOk result (λ done. done ≡ true → cells.new.items
        ≡ first_values (cells.old.items ++ map value_of (fields_of row.now))) }
{
    for index in 0..row.len() {
        let Some(value) = value_at(row, index) else {
            return Ok(false);
        };
        push_first(cells, value)?;
    }
    Ok(true)
}

/// What a field of a record holds.
fn value_at(row: &ByteRecord, index: usize) -> Option<Value>
    requires { index < length (fields_of row.now) }
    ensures { result ≡ value_in (get_or (fields_of row.now) index []) }
{
    match row.get(index) {
        Some(field) => value_of(field),
        None => None,
    }
}

/// Appends a value to the first ones.
fn push_first(cells: &mut Vec<Value>, value: Value) -> Result<(), AllocError>
    requires { length cells.old.items ≤ 1048577 }
    ensures { OnOk result (cells.new.items ≡ first_values (cells.old.items ++ value ∷ [])) }
{
    if cells.len() <= CELL_LIMIT {
        cells.push(value)?;
    }
    Ok(())
}

/// What a field holds: nothing where it has no bytes, and else the number of its digits, which a
/// minus may stand before, where that is an i64.
fn value_of(field: &[u8]) -> Option<Value>
    ensures { result ≡ value_in field.now }
{
    if field.is_empty() {
        return Some(None);
    }
    if field[0] == b'+' {
        return None;
    }
    match str::from_utf8(field) {
        Ok(text) => match text.parse::<i64>() {
            Ok(number) => Some(Some(number)),
            Err(_) => None,
        },
        Err(_) => None,
    }
}

/// The array of the first cells of some records, each of this many fields.
fn make_array(cells: Vec<Value>, width: usize) -> Result<Array, LineFault>
    ensures { (rows : List (List (List ℕ))) → IsTable rows width cells.items
        → Reads (table_in rows) result }
{
    if width == 0 {
        return Err(LineFault::Refused(Refusal::BadCells));
    }
    if cells.len() > CELL_LIMIT {
        return Err(LineFault::Refused(Refusal::TooManyCells));
    }
    let Some(shape) = layers::make_shape(1, cells.len() / width, width) else {
        return Err(LineFault::Refused(Refusal::BadCells));
    };
    match Array::make(shape, cells) {
        Some(array) => Ok(array),
        None => Err(LineFault::Refused(Refusal::BadCells)),
    }
}
