//! The accesses of a run by the regions that they reach.
ghost use Rattle.std.specs.Prelude.{◌≡◌, ◌+◌, ◌*◌, ◌<◌, ℕ, [], ◌++◌, ◌∷◌, cond, List, length, true, OnOk, Contains};
ghost use Rattle.rma_types.specs.declared.accesses.Access.{Access as AccessValue};
ghost use Rattle.access_index.specs.Indexes.{BelongsTo, HasAccesses, IsLast, IsSound, KeepsListed, with_access};
ghost use Rattle.access_index.specs.Indexes.{AreFound, access_at, block_group, window_group};
ghost use Rattle.access_index.specs.Lists.{classes_in, ordinals_in, region_eq};
ghost use Rattle.access_index.specs.Regions.{is_update as is_update_cast, cast_of as cast_by};
ghost use Rattle.access_index.specs.declared.regions.Group.{Group as GroupValue};
ghost use Rattle.access_index.specs.declared.regions.Region.{Region as RegionValue};

use crate::lists::{put_class, put_ordinal};
use crate::regions::{Class, Group, Region, cast_of, class_in_block, class_in_window, is_update};
use rma_types::{Access, Items, NoMemory};
use std::alloc::Global;
use std::collections::HashMap;

/// The accesses of a run by the regions that they reach, each as its ordinal among those of its rank. The accesses of a
/// rank come in the order of its log; those of different ranks come in any order.
///
/// An access is listed once for each block that it reaches, and an update once more for its window.
#[derive(Drop)]
pub struct AccessIndex {
    alloc: Global,
    counts: [u32; 256],
    regions: Items<Region>,
    classes: HashMap<Region, Items<Class>>,
    ordinals: HashMap<Group, Items<u32>>,
}

impl AccessIndex {
    /// No accesses.
    pub fn new(alloc: Global) -> AccessIndex
        ensures { HasAccesses result (λ _. []) }
    {
        AccessIndex {
            alloc,
            counts: [0; 256],
            regions: Items::new(alloc),
            classes: HashMap::new(alloc),
            ordinals: HashMap::new(alloc),
        }
    }

    /// The regions that accesses reach.
    pub fn regions(&self) -> &[Region]
        ensures { result.now ≡ self.now.regions }
    {
        self.regions.as_slice()
    }

    /// The classes of the accesses that reach a region.
    pub fn classes(&self, region: Region) -> &[Class]
        ensures { result.now ≡ classes_in self.now.classes region }
    {
        match self.classes.get(&region) {
            Some(classes) => classes.as_slice(),
            None => &[],
        }
    }

    /// The accesses of a group, each as its ordinal among those of its rank.
    pub fn ordinals(&self, group: Group) -> &[u32]
        ensures { result.now ≡ ordinals_in self.now.ordinals group }
    {
        match self.ordinals.get(&group) {
            Some(ordinals) => ordinals.as_slice(),
            None => &[],
        }
    }

    /// One region more.
    fn put_region(&mut self, region: Region) -> Result<(), NoMemory>
        ensures regions { OnOk result (self.new.regions ≡ self.old.regions ++ region ∷ []) }
        ensures classes { self.new.classes ≡ self.old.classes }
        ensures ordinals { self.new.ordinals ≡ self.old.ordinals }
        ensures counts { self.new.counts ≡ self.old.counts }
    {
        match self.regions.push(region) {
            Ok(()) => Ok(()),
            Err(_) => Err(NoMemory),
        }
    }

    /// One class more of a region.
    fn note(&mut self, region: Region, class: Class) -> Result<(), NoMemory>
        ensures found { OnOk result (AreFound self.old → AreFound self.new) }
        ensures classes { OnOk result ((other : RegionValue) → classes_in self.new.classes other ≡
            cond (region_eq region other) (classes_in self.old.classes region ++ class ∷ [])
            (classes_in self.old.classes other)) }
        ensures ordinals { self.new.ordinals ≡ self.old.ordinals }
        ensures counts { self.new.counts ≡ self.old.counts }
    {
        if put_class(self.alloc, &mut self.classes, region, class)? {
            self.put_region(region)?;
        }
        Ok(())
    }

    /// One access more of a group, the last of its rank.
    fn put(&mut self, group: Group, ordinal: u32) -> Result<(), NoMemory>
        ensures sound { OnOk result ((rows : ℕ → List AccessValue) → IsSound self.old rows →
            BelongsTo rows group ordinal → IsLast rows group ordinal → IsSound self.new rows) }
        ensures keeps { OnOk result (KeepsListed self.old self.new) }
        ensures listed { OnOk result (Contains (ordinals_in self.new.ordinals group) ordinal) }
        ensures counts { self.new.counts ≡ self.old.counts }
    {
        if put_ordinal(self.alloc, &mut self.ordinals, group, ordinal)? {
            self.note(group.region, group.class)?;
        }
        Ok(())
    }

    /// The last access of its rank in each block that it reaches.
    fn put_blocks(&mut self, rank: u8, access: &Access, ordinal: u32) -> Result<(), NoMemory>
        requires { 0 < access.now.len }
        ensures sound { OnOk result ((rows : ℕ → List AccessValue) → IsSound self.old rows →
            ((block : ℕ) → access.now.lo < 4 * block + 4 → 4 * block < access.now.lo + access.now.len →
            BelongsTo rows (block_group block rank access.now) ordinal) →
            length (rows rank) ≡ ordinal + 1 → IsSound self.new rows) }
        ensures keeps { OnOk result (KeepsListed self.old self.new) }
        ensures listed { OnOk result ((block : ℕ) → access.now.lo < 4 * block + 4 →
            4 * block < access.now.lo + access.now.len →
            Contains (ordinals_in self.new.ordinals (block_group block rank access.now)) ordinal) }
        ensures counts { self.new.counts ≡ self.old.counts }
    {
        let lo = u64::from(access.lo);
        let end = lo + u64::from(access.len);
        for block in lo / 4..(end + 3) / 4 {
            let region = Region::Block {
                target: access.target,
                block,
            };
            let class = class_in_block(block, rank, access);
            self.put(Group { region, class }, ordinal)?;
        }
        Ok(())
    }

    /// The last access of its rank in its window, where it is an update.
    fn put_window(&mut self, rank: u8, access: &Access, ordinal: u32) -> Result<(), NoMemory>
        ensures sound { OnOk result ((rows : ℕ → List AccessValue) → IsSound self.old rows →
            (is_update_cast (cast_by access.now.kind) ≡ true →
            BelongsTo rows (window_group rank access.now) ordinal) →
            length (rows rank) ≡ ordinal + 1 → IsSound self.new rows) }
        ensures keeps { OnOk result (KeepsListed self.old self.new) }
        ensures listed { OnOk result (is_update_cast (cast_by access.now.kind) ≡ true →
            Contains (ordinals_in self.new.ordinals (window_group rank access.now)) ordinal) }
        ensures counts { self.new.counts ≡ self.old.counts }
    {
        if is_update(cast_of(access.kind)) {
            let region = Region::Window {
                target: access.target,
                window: access.window,
            };
            let class = class_in_window(rank, access);
            self.put(Group { region, class }, ordinal)?;
        }
        Ok(())
    }

    /// One access more of a rank, where it has a byte.
    fn put_access(&mut self, rank: u8, access: &Access, ordinal: u32) -> Result<(), NoMemory>
        ensures sound { OnOk result ((rows : ℕ → List AccessValue) → IsSound self.old rows →
            access_at rows rank ordinal ≡ access.now → length (rows rank) ≡ ordinal + 1 → IsSound self.new rows) }
        ensures keeps { OnOk result (KeepsListed self.old self.new) }
        ensures listed { OnOk result ((rows : ℕ → List AccessValue) →
            access_at rows rank ordinal ≡ access.now →
            (group : GroupValue) → group.class.rank ≡ rank → BelongsTo rows group ordinal →
            Contains (ordinals_in self.new.ordinals group) ordinal) }
        ensures counts { self.new.counts ≡ self.old.counts }
    {
        if access.len > 0 {
            self.put_blocks(rank, access, ordinal)?;
            self.put_window(rank, access, ordinal)?;
        }
        Ok(())
    }

    /// The next access of a rank, in the order of its log. After an error the index has only a part of the access.
    pub fn see(&mut self, rank: u8, access: &Access) -> Result<(), NoMemory>
        ensures { OnOk result ((rows : ℕ → List AccessValue) → HasAccesses self.old rows →
            HasAccesses self.new (with_access rows rank access.now)) }
    {
        let ordinal = self.counts[rank as usize];
        let next = ordinal.checked_add(1).ok_or(NoMemory)?;
        self.put_access(rank, access, ordinal)?;
        self.counts[rank as usize] = next;
        Ok(())
    }
}
