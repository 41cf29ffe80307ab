//! A look through rows of a table: what a row adds to an image, and a look through all rows, for
//! what no index was made for.
//!
//! Rows that follow one another mostly share sets. So a look keeps what its last row showed
//! ([`Seen`]), and a set is not tested again, nor added again, right after it was.

ghost use Rattle.std.specs.Prelude.{◌≡◌, ◌<◌};
ghost use Rattle.sz_tables.specs.Terms.{length, true, Some, None, IfSome, holds, Cell, any_cell};
ghost use Rattle.sz_tables.specs.Terms.{has, with_those, extent_before, extent_after};
ghost use Rattle.sz_tables.specs.Terms.{image_between, full_stands, pairings, row_at, set_at};
ghost use Rattle.sz_tables.specs.Terms.{near_sets, far_sets, near_number, far_number, pair_adds};
ghost use Rattle.sz_tables.specs.Terms.{pairing_at, HasSeen};

use crate::region_table::RegionTable;
use sz_cells::CellBits;
use sz_spec::Dir;

/// What the rows that a look has taken showed. It holds for one look alone, and is made anew for
/// the next.
#[derive(Clone, Copy)]
pub struct Seen {
    tested: Option<Tested>,
    /// The number of the set that was added last.
    added: Option<u32>,
}

/// The number of the set that was tested last, and whether it has an asked cell.
#[derive(Clone, Copy)]
struct Tested {
    number: u32,
    meets: bool,
}

impl Seen {
    /// Nothing yet.
    pub fn nothing() -> Seen
        ensures { result ≡ record { tested = None; added = None } }
    {
        Seen {
            tested: None,
            added: None,
        }
    }
}

impl RegionTable {
    /// Adds the image of a set of cells under the region pairs, row by row. Takes no memory.
    ///
    /// Costs a test of each row's set, of rows that follow one another with one set a single test.
    pub fn scan(&self, dir: Dir, input: u32, from: &CellBits, to: &mut CellBits)
        requires input { input < length self.now.ins }
        requires from { from.now.extent ≡ extent_before dir self.now.out self.now.ins input }
        requires to { to.old.extent ≡ extent_after dir self.now.out self.now.ins input }
        ensures { let t = self.now in to.new ≡ with_those to.old
            (has (image_between dir t.out t.ins input (full_stands (pairings t) input) from.now)) }
    {
        to.shape(); // the set as it was is that of its cells
        let mut seen = Seen::nothing();
        for row in 0..self.len() {
            self.take_row(dir, input, row, from, &mut seen, to);
        }
    }

    /// Adds what the region pair of a row adds to the image of a set of cells. Takes no memory.
    ///
    /// Costs a test of the set from which the look starts, and the runs of the one to which it
    /// leads: none of these where the row before has the same set.
    pub fn take_row(
        &self,
        dir: Dir,
        input: u32,
        row: u32,
        from: &CellBits,
        seen: &mut Seen,
        to: &mut CellBits,
    )
        requires row { row < length self.now.rows }
        requires input { input < length self.now.ins }
        requires from { from.now.extent ≡ extent_before dir self.now.out self.now.ins input }
        requires to { to.old.extent ≡ extent_after dir self.now.out self.now.ins input }
        requires seen { HasSeen dir input self.now from.now to.old seen.old }
        ensures to { to.new
            ≡ with_those to.old (pair_adds dir input from.now (pairing_at self.now row)) }
        ensures seen { HasSeen dir input self.now from.now to.new seen.new }
    {
        to.shape(); // the set as it was is that of its cells
        self.len(); // each row names sets of the table
        let near = self.near_number(dir, input, row);
        let tested = self.tested(dir, input, near, from, seen.tested);
        seen.tested = Some(tested);
        if tested.meets {
            let far = self.far_number(dir, input, row);
            self.add_once(dir, input, far, seen.added, to);
            seen.added = Some(far);
        }
    }

    /// Whether the set of a number has an asked cell, which is known where it was tested last.
    fn tested(
        &self,
        dir: Dir,
        input: u32,
        number: u32,
        from: &CellBits,
        last: Option<Tested>,
    ) -> Tested
        requires input { input < length self.now.ins }
        requires number { number < length (near_sets dir input self.now) }
        requires from { from.now.extent ≡ extent_before dir self.now.out self.now.ins input }
        requires last { IfSome last (λ s.
            s.meets ≡ any_cell (has (set_at (near_sets dir input self.now) s.number)) from.now) }
        ensures number { result.number ≡ number }
        ensures meets { result.meets
            ≡ any_cell (has (set_at (near_sets dir input self.now) number)) from.now }
    {
        match last {
            Some(tested) if tested.number == number => tested,
            _ => Tested {
                number,
                meets: self.near_meets(dir, input, number, from),
            },
        }
    }

    /// Adds the cells of the set of a number, which are there where it was added last.
    fn add_once(&self, dir: Dir, input: u32, number: u32, last: Option<u32>, to: &mut CellBits)
        requires input { input < length self.now.ins }
        requires number { number < length (far_sets dir input self.now) }
        requires to { to.old.extent ≡ extent_after dir self.now.out self.now.ins input }
        requires last { IfSome last (λ n. (x : Cell) → holds to.old.extent x ≡ true
            → has (set_at (far_sets dir input self.now) n) x ≡ true → has to.old x ≡ true) }
        ensures { to.new
            ≡ with_those to.old (has (set_at (far_sets dir input self.now) number)) }
    {
        to.shape(); // the set as it was is that of its cells
        if let Some(known) = last {
            if known == number {
                return;
            }
        }
        self.add_far(dir, input, number, to);
    }

    /// The number of a row's set from which a look starts.
    fn near_number(&self, dir: Dir, input: u32, row: u32) -> u32
        requires row { row < length self.now.rows }
        requires input { input < length self.now.ins }
        ensures value { result ≡ near_number dir input (row_at self.now.rows row) }
        ensures within { result < length (near_sets dir input self.now) }
    {
        self.len(); // each row names sets of the table
        match dir {
            Dir::Back => self.out_number(row),
            Dir::Forward => self.number_of(row, input),
        }
    }

    /// The number of a row's set to which a look leads.
    fn far_number(&self, dir: Dir, input: u32, row: u32) -> u32
        requires row { row < length self.now.rows }
        requires input { input < length self.now.ins }
        ensures value { result ≡ far_number dir input (row_at self.now.rows row) }
        ensures within { result < length (far_sets dir input self.now) }
    {
        self.len(); // each row names sets of the table
        match dir {
            Dir::Back => self.number_of(row, input),
            Dir::Forward => self.out_number(row),
        }
    }

    /// Whether the set of a number from which a look starts has an asked cell.
    fn near_meets(&self, dir: Dir, input: u32, number: u32, from: &CellBits) -> bool
        requires input { input < length self.now.ins }
        requires number { number < length (near_sets dir input self.now) }
        requires from { from.now.extent ≡ extent_before dir self.now.out self.now.ins input }
        ensures { result
            ≡ any_cell (has (set_at (near_sets dir input self.now) number)) from.now }
    {
        match dir {
            Dir::Back => self.out_set_meets(number, from),
            Dir::Forward => self.in_set_meets(input, number, from),
        }
    }

    /// Adds the cells of the set of a number to which a look leads.
    fn add_far(&self, dir: Dir, input: u32, number: u32, to: &mut CellBits)
        requires input { input < length self.now.ins }
        requires number { number < length (far_sets dir input self.now) }
        requires to { to.old.extent ≡ extent_after dir self.now.out self.now.ins input }
        ensures { to.new
            ≡ with_those to.old (has (set_at (far_sets dir input self.now) number)) }
    {
        match dir {
            Dir::Back => self.add_in_set(input, number, to),
            Dir::Forward => self.add_out_set(number, to),
        }
    }
}
