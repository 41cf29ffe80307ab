//! The array and the version that a refresh makes.
ghost use Rattle.std.specs.Prelude.{◌≡◌, ◌<◌};
ghost use Rattle.sz_catalogue.specs.Terms.{true, false, length, slice_set, IfOk, OnOk, OnErr};
ghost use Rattle.sz_catalogue.specs.Terms.{arc_value, Grid, Version, Holdings, next_number};
ghost use Rattle.sz_catalogue.specs.Terms.{has_no_version, version_of, has_no_room_to_set};
ghost use Rattle.sz_catalogue.specs.Terms.{has_no_room_to_refresh, has_input, base_at, base_on};
ghost use Rattle.sz_catalogue.specs.Terms.{version_on, IsInOrder, with_array, with_refreshed};

use super::Catalogue;
use crate::lists::BaseArrays;
use crate::memory::{another_flow, another_owner, own_name, share};
use crate::version::{BaseArray, HeldVersion};
use std::sync::Arc;
use sz_cells::NoMemory;
use sz_spec::Array;

impl Catalogue {
    /// Holds an array as the next version of the name that an input of a version has, and under the
    /// next number that version on it, not awaited; and gives the number. The array has the shape
    /// of that base array, and there is room for both. Without memory nothing is changed.
    ///
    /// Takes time in the flow, in the base arrays, and in the logarithm of what is held.
    pub fn add_refreshed(&mut self, version: u32, input: u32, array: Array) -> Result<u32, NoMemory>
        requires there { has_no_version self.old version ≡ false }
        requires input { has_input (version_of self.old version) input ≡ true }
        requires shape { array.extent
            ≡ (base_at (version_of self.old version) input).array.extent }
        requires arrays { has_no_room_to_set self.old version input ≡ false }
        requires versions { has_no_room_to_refresh self.old version input ≡ false }
        ensures number { IfOk result (λ n. n ≡ next_number self.old) }
        ensures held { OnOk result (self.new ≡ with_refreshed self.old version input array) }
        ensures err { OnErr result (self.new ≡ self.old) }
    {
        let owner = share(self.alloc, array)?;
        self.share_refreshed(version, input, owner)
    }

    /// Holds an array that has other owners too as the next version of the name that an input of a
    /// version has, and under the next number that version on it, as `add_refreshed`.
    pub fn share_refreshed(
        &mut self,
        version: u32,
        input: u32,
        owner: Arc<Array>,
    ) -> Result<u32, NoMemory>
        requires there { has_no_version self.old version ≡ false }
        requires input { has_input (version_of self.old version) input ≡ true }
        requires shape { (arc_value owner).extent
            ≡ (base_at (version_of self.old version) input).array.extent }
        requires arrays { has_no_room_to_set self.old version input ≡ false }
        requires versions { has_no_room_to_refresh self.old version input ≡ false }
        ensures number { IfOk result (λ n. n ≡ next_number self.old) }
        ensures held { OnOk result
            (self.new ≡ with_refreshed self.old version input (arc_value owner)) }
        ensures err { OnErr result (self.new ≡ self.old) }
    {
        let number = self.next_number() as u32;
        let further = self.version_on(version, input, &owner)?;
        let name = own_name(self.alloc, self.input_name(version, input))?;
        self.hold(name.as_str(), owner)?;
        match self.add(number, further) {
            Ok(()) => Ok(number),
            Err(NoMemory) => {
                self.let_go(name.as_str());
                Err(NoMemory)
            }
        }
    }

    /// A version once more, on an array in the place of an input's.
    fn version_on(
        &self,
        number: u32,
        input: u32,
        array: &Arc<Array>,
    ) -> Result<HeldVersion, NoMemory>
        requires there { has_no_version self.now number ≡ false }
        requires input { has_input (version_of self.now number) input ≡ true }
        ensures { IfOk result (λ v. v
            ≡ version_on self.now (version_of self.now number) input (arc_value array.now)) }
    {
        let Some(run) = self.versions.get(number) else {
            unreachable!()
        };
        let old = run.version();
        Ok(HeldVersion {
            flow_name: own_name(self.alloc, old.flow_name.as_str())?,
            flow: another_flow(&old.flow)?,
            base: self.base_on(&old.base, input, array)?,
            lists: old.lists.copy(self.alloc)?,
            awaited: false,
        })
    }

    /// Base arrays once more, with an array in the place of an input's.
    fn base_on(
        &self,
        base: &BaseArrays,
        input: u32,
        array: &Arc<Array>,
    ) -> Result<BaseArrays, NoMemory>
        requires input { input < length base.now }
        ensures { IfOk result (λ b. (v : Version) → v.base ≡ base.now
            → b ≡ slice_set base.now input (base_on self.now v input (arc_value array.now))) }
    {
        let old = &base.as_slice()[input as usize];
        let name = own_name(self.alloc, old.name.as_str())?;
        let version = self.arrays.next_version(name.as_str()) as u32;
        let array = another_owner(array)?;
        let mut all = base.copy(self.alloc)?;
        all.set(
            input,
            BaseArray {
                name,
                version,
                array,
            },
        );
        Ok(all)
    }

    /// The name that the base array of an input has.
    fn input_name(&self, number: u32, input: u32) -> &str
        requires there { has_no_version self.now number ≡ false }
        requires input { has_input (version_of self.now number) input ≡ true }
        ensures { result.now ≡ (base_at (version_of self.now number) input).name }
    {
        let Some(run) = self.versions.get(number) else {
            unreachable!()
        };
        let base = run.version().base.as_slice();
        let only = &base[input as usize];
        only.name.as_str()
    }

    /// Lets go of the array that came last.
    fn let_go(&mut self, name: &str)
        requires last { (c : Holdings) × (g : Grid) × IsInOrder c
            × (self.old ≡ with_array c name.now g) }
        ensures { (c : Holdings) (g : Grid) → IsInOrder c → self.old ≡ with_array c name.now g
            → self.new ≡ c }
    {
        let size = self.arrays.take_back(name);
        self.cells -= u64::from(size);
    }
}
