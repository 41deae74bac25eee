//! What holds pending accesses one after another.
ghost use Rattle.std.specs.Prelude.{◌≡◌, ◌<◌, ◌++◌, [], ◌∷◌, List, length, slice_get, slice_set, Some, IfSome};
ghost use Rattle.std.specs.Prelude.{OnOk, OnErr};
ghost use Rattle.std.specs.List.{position, remove, All};
ghost use Rattle.delivery_queue.specs.declared.begun.Begun.{Begun as BegunOne};
ghost use Rattle.delivery_queue.specs.Blocks.{accesses_of};
ghost use Rattle.delivery_queue.specs.Marked.{IsMarked};
ghost use Rattle.delivery_queue.specs.Soughts.{is_sought};

use crate::begun::Begun;
use crate::marks::Marks;
use crate::sought::Sought;
use rank_rules::PendingAccess;
use rma_types::NoMemory;
use std::alloc::Global;

/// Some pending accesses in the order of their Issues, and marks that each of them has.
pub(crate) trait Part: Drop {
    ghost use Rattle.std.specs.Prelude.{List};
    ghost use Rattle.delivery_queue.specs.declared.begun.Begun.{Begun as BegunOne};

    /// The accesses.
    ghost ones: { Self → List BegunOne };

    /// No access.
    fn new(alloc: Global) -> Self
        ensures { ones result ≡ [] };

    fn len(&self) -> usize
        ensures { result ≡ length (ones self.now) };

    /// Whether a further access is to stand in another part.
    fn is_full(&self) -> bool;

    /// Marks that each access has.
    fn marks(&self) -> Marks
        ensures { All (λ (one : BegunOne). IsMarked result one.access) (ones self.now) };

    /// The place of the first access that is sought.
    fn first(&self, sought: &Sought) -> Option<usize>
        ensures place { result ≡ position (is_sought sought.now) (accesses_of (ones self.now)) }
        ensures within { IfSome result (λ at. at < length (ones self.now)) };

    fn at(&self, at: usize) -> Begun
        requires { at < length (ones self.now) }
        ensures { slice_get (ones self.now) at ≡ Some result };

    /// One access more, of which nothing is touched. `Err` changes nothing.
    fn push(&mut self, access: PendingAccess) -> Result<(), NoMemory>
        ensures ok { OnOk result (ones self.new ≡ ones self.old ++
            record { access = access; touched = 0 } ∷ []) }
        ensures err { OnErr result (ones self.new ≡ ones self.old) };

    /// One access goes.
    fn remove(&mut self, at: usize)
        requires { at < length (ones self.old) }
        ensures { ones self.new ≡ remove (ones self.old) at };

    /// So many elements of an access are touched.
    fn touch(&mut self, at: usize, count: u32)
        requires { at < length (ones self.old) }
        ensures { (one : BegunOne) → slice_get (ones self.old) at ≡ Some one →
            ones self.new ≡ slice_set (ones self.old) at (record { access = one.access; touched = count }) };
}
