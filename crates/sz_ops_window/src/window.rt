//! Windows of rows and columns.

/// Rows and columns, from the first of each to before the second.
#[derive(Clone, Copy)]
pub(crate) struct Window {
    pub(crate) top: u32,
    pub(crate) bottom: u32,
    pub(crate) left: u32,
    pub(crate) right: u32,
}
