//! One more of a list, by the key of the list.
ghost use Rattle.std.specs.Prelude.{◌≡◌, ◌≢◌, ◌++◌, ◌∷◌, [], cond, false, IfOk};
ghost use Rattle.access_index.specs.Lists.{classes_in, group_eq, ordinals_in, region_eq};
ghost use Rattle.access_index.specs.declared.regions.Group.{Group as GroupValue};
ghost use Rattle.access_index.specs.declared.regions.Region.{Region as RegionValue};

use crate::regions::{Class, Group, Region};
use rma_types::{Items, NoMemory};
use std::alloc::Global;
use std::collections::HashMap;

/// One more class of a region. It tells whether it is the first.
pub(crate) fn put_class(
    alloc: Global,
    table: &mut HashMap<Region, Items<Class>>,
    region: Region,
    class: Class,
) -> Result<bool, NoMemory>
    ensures listed { IfOk result (λ first. (other : RegionValue) → classes_in table.new other ≡
        cond (region_eq region other) (classes_in table.old region ++ class ∷ []) (classes_in table.old other)) }
    ensures first { IfOk result (λ first. first ≡ false → classes_in table.old region ≢ []) }
{
    match table.get_mut(&region) {
        Some(classes) => {
            let first = classes.is_empty();
            match classes.push(class) {
                Ok(()) => Ok(first),
                Err(_) => Err(NoMemory),
            }
        }
        None => {
            let mut classes = Items::new(alloc);
            if classes.push(class).is_err() {
                return Err(NoMemory);
            }
            match table.insert(region, classes) {
                Ok(_) => Ok(true),
                Err(_) => Err(NoMemory),
            }
        }
    }
}

/// One more access of a group. It tells whether it is the first.
pub(crate) fn put_ordinal(
    alloc: Global,
    table: &mut HashMap<Group, Items<u32>>,
    group: Group,
    ordinal: u32,
) -> Result<bool, NoMemory>
    ensures listed { IfOk result (λ first. (other : GroupValue) → ordinals_in table.new other ≡
        cond (group_eq group other) (ordinals_in table.old group ++ ordinal ∷ []) (ordinals_in table.old other)) }
    ensures first { IfOk result (λ first. first ≡ false → ordinals_in table.old group ≢ []) }
{
    match table.get_mut(&group) {
        Some(ordinals) => {
            let first = ordinals.is_empty();
            match ordinals.push(ordinal) {
                Ok(()) => Ok(first),
                Err(_) => Err(NoMemory),
            }
        }
        None => {
            let mut ordinals = Items::new(alloc);
            if ordinals.push(ordinal).is_err() {
                return Err(NoMemory);
            }
            match table.insert(group, ordinals) {
                Ok(_) => Ok(true),
                Err(_) => Err(NoMemory),
            }
        }
    }
}
