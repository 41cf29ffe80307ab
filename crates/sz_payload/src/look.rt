//! What a look reads: the operator, its entries, and the index of these.

use crate::owner::Owner;
use sz_spec::OpAt;
use sz_tables::EntryTable;

/// Entries of an operator that has payloads, and their index, lent to a look.
#[derive(Drop)]
pub(crate) struct Look<'a> {
    pub at: &'a OpAt,
    pub table: &'a EntryTable,
    pub owner: &'a Owner,
}
