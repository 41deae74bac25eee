//! A rank's pending accesses and live requests.
ghost use Rattle.std.specs.Prelude.{◌≡◌, ◌<◌, ◌≤◌, ◌+◌, ◌++◌, [], ◌∷◌, length, slice_get, slice_index, true, false};
ghost use Rattle.std.specs.Prelude.{Some, IfSome, IfOk, OnOk, OnErr, MatchBool};
ghost use Rattle.call_rules.specs.WellFormed.{IsWrittenCall};
ghost use Rattle.delivery_queue.specs.Queues.{no_accesses, issued, with_access, with_touched, without_access, Delivers};
ghost use Rattle.delivery_queue.specs.Queues.{DeliversWhole, IsDeliverable};
ghost use Rattle.cell_face.specs.Faces.{Rose, Keeps};
ghost use Rattle.rank_rules.specs.Pending.{awaited, way as way_of};
ghost use Rattle.rank_rules.specs.Requests.{is_live_request, with_request, without_request};

use crate::begun::Begun;
use crate::blocks::Block;
use crate::deliveries::touch_pending;
use crate::groups::Group;
use crate::parts::Part;
use crate::waits::awaited_by;
use crate::walks::Walk;
use crate::ways::way;
use cell_face::Memory;
use rank_rules::PendingAccess;
use rma_record::Keep;
use rma_types::{Access, Call, Layout, NoMemory};
use std::alloc::Global;
use std::marker::Model;

/// What a delivery came to: whether the access is done, and how many of its elements were touched.
#[derive(Clone, Copy, Debug, PartialEq, Eq)]
pub struct Delivery {
    /// All elements are touched, and the access is pending no more; else an attempt on the next element came too late.
    pub done: bool,
    /// 0 to 256.
    pub touches: u32,
}

/// The accesses of a rank that are issued and not yet wholly touched, in the order of their Issues, and its live
/// requests, q0 to q63.
#[derive(Debug, Drop)]
pub struct Pending {
    /// The accesses, in groups of groups of blocks.
    ones: Group<Group<Block>>,
    /// The way to the access that was delivered last, as far as it is known.
    walk: Walk,
    /// The number of the call that made the live request of each name.
    requests: [Option<u32>; 64],
}

impl Model for Pending {
    ghost use Rattle.delivery_queue.specs.Blocks.{accesses_of, touched_of};
    ghost use Rattle.delivery_queue.specs.Queues.{Queue};
    ghost use Rattle.delivery_queue.specs.Walked.{IsWalked};

    ghost Value = { Queue };

    ghost view = { λ it. record {
      pending = accesses_of it.ones;
      touched = touched_of it.ones;
      requests = it.requests;
    } };

    ghost invariant = { λ it. IsWalked (accesses_of it.ones) it.walk };
}

impl Pending {
    /// No access and no request.
    pub fn new(alloc: Global) -> Result<Pending, NoMemory>
        ensures { IfOk result (λ pending. pending ≡ no_accesses) }
    {
        Ok(Pending {
            ones: Group::new(alloc),
            walk: Walk::none(alloc),
            requests: [None; 64],
        })
    }

    /// Whether a request of this name, below 64, is live.
    pub fn is_live(&self, req: u8) -> bool
        requires { req < 64 }
        ensures { result ≡ is_live_request self.now.requests req }
    {
        self.requests[usize::from(req)].is_some()
    }

    /// The number of pending accesses.
    pub fn count(&self) -> usize
        ensures { result ≡ length self.now.pending }
    {
        self.ones.len()
    }

    /// The place of the access to which the one at a place gives way in the end, directly or through others; its own
    /// where it gives way to none.
    pub fn way(&self, at: usize) -> usize
        requires { at < length self.now.pending }
        ensures end { result ≡ way_of self.now.pending at }
        ensures not_after { result ≤ at }
    {
        way(&self.ones, self.walk.beyond(at))
    }

    /// Ends the live request of this name.
    pub fn end_request(&mut self, req: u8)
        requires name { req < 64 }
        requires live { is_live_request self.old.requests req ≡ true }
        ensures { self.new ≡ record self.old { requests = without_request self.old.requests req } }
    {
        self.requests[usize::from(req)] = None;
    }

    /// An access stands at the end, and nothing of it is touched. `Err` changes nothing.
    fn push(&mut self, one: PendingAccess) -> Result<(), NoMemory>
        ensures added { OnOk result (self.new ≡ record {
          pending = self.old.pending ++ one ∷ [];
          touched = self.old.touched ++ 0 ∷ [];
          requests = self.old.requests;
        }) }
        ensures unchanged { OnErr result (self.new ≡ self.old) }
    {
        self.ones.push(one)?;
        Ok(())
    }

    /// An access is issued: it stands at the end, unless it has no bytes; `index` is that of its Issue item. Where a
    /// request is named, below 64 and not live, it is live from now on.
    pub fn issue(
        &mut self,
        call: u32,
        index: u32,
        access: &Access,
        fetches: bool,
        req: Option<u8>,
    ) -> Result<(), NoMemory>
        requires name { IfSome req (λ name. name < 64) }
        requires free { IfSome req (λ name. is_live_request self.old.requests name ≡ false) }
        ensures added { OnOk result (self.new ≡
            with_access self.old (issued call index access.now fetches) req) }
        ensures unchanged { OnErr result (self.new ≡ self.old) }
    {
        let one = PendingAccess {
            index,
            number: call,
            access: *access,
            fetches,
        };
        if 0 < one.access.len {
            self.push(one)?;
        }
        if let Some(name) = req {
            self.requests[usize::from(name)] = Some(call);
        }
        Ok(())
    }

    /// The place of the access that must be delivered next before the first item of the call, after giving way; none
    /// where none must.
    pub fn next_for(&self, call: &Call) -> Option<usize>
        requires { IsWrittenCall call.now }
        ensures next { result ≡ awaited self.now.requests call.now self.now.pending }
        ensures within { IfSome result (λ at. at < length self.now.pending) }
    {
        match self.ones.first(&awaited_by(&self.requests, call)) {
            Some(at) => {
                self.walk.await_from(at);
                Some(self.way(at))
            }
            None => None,
        }
    }

    /// The access at a place is pending no more.
    pub(crate) fn remove(&mut self, at: usize)
        requires { at < length self.old.pending }
        ensures { self.new ≡ without_access self.old at }
    {
        self.walk.remove(&mut self.ones, at);
    }

    /// So many elements of the access at a place are touched.
    fn keep_touched(&mut self, at: usize, count: u32)
        requires { at < length self.old.pending }
        ensures { self.new ≡ with_touched self.old at count }
    {
        self.ones.touch(at, count);
    }

    /// The access at a place, and how many of its elements are touched.
    fn begun(&self, at: usize) -> Begun
        requires { at < length self.now.pending }
        ensures access { slice_get self.now.pending at ≡ Some result.access }
        ensures touched { result.touched ≡ slice_index self.now.touched at }
    {
        self.ones.at(at)
    }

    /// The access at a place.
    pub fn access_at(&self, at: usize) -> PendingAccess
        requires { at < length self.now.pending }
        ensures { slice_get self.now.pending at ≡ Some result }
    {
        self.begun(at).access
    }

    /// Delivers the access at a place: it makes room for the touches that are left of it, and makes them in the order
    /// of its elements. The access is done, and pending no more, unless an attempt came too late, which never comes
    /// over a memory that tells its cells.
    pub fn deliver<M: Memory, L: Keep>(
        &mut self,
        at: usize,
        mem: &mut M,
        layout: &Layout,
        calls: &[Call],
        log: &mut L,
    ) -> Result<Delivery, NoMemory>
        requires at { at < length self.old.pending }
        requires deliverable { IsDeliverable self.old at layout.now calls.now (M.face mem.old)
            (L.free log.old) }
        ensures delivered { IfOk result (λ delivery.
            Delivers self.old self.new at delivery.done layout.now calls.now
            (M.face mem.old) (M.face mem.new) (M.knows mem.new) (L.kept log.old) (L.kept log.new)) }
        ensures count { IfOk result (λ delivery.
            length (L.kept log.new) ≡ length (L.kept log.old) + delivery.touches) }
        ensures few { IfOk result (λ delivery. delivery.touches ≤ 256) }
        ensures told { IfOk result (λ delivery. IfSome (M.face mem.old).told (λ cells.
            (delivery.done ≡ true) × DeliversWhole self.old at layout.now calls.now cells
            (M.face mem.new).told (L.kept log.old) (L.kept log.new))) }
        ensures moved { IfOk result (λ delivery. MatchBool delivery.done
            ((M.face mem.new).moves ≡ (M.face mem.old).moves) (Rose (M.face mem.old).moves (M.face mem.new).moves)) }
        ensures known { Keeps (M.knows mem.old) (M.knows mem.new) }
        ensures free_below { L.free log.new ≤ L.free log.old }
        ensures home { L.home log.new ≡ L.home log.old }
        ensures unchanged { OnErr result (self.new ≡ self.old) }
        ensures kept { OnErr result (L.kept log.new ≡ L.kept log.old) }
        ensures unwritten { OnErr result (mem.new ≡ mem.old) }
    {
        let Begun {
            access: one,
            touched: from,
        } = self.begun(at);
        let Some(call) = calls.get(one.number as usize) else {
            unreachable!()
        };
        let progress = touch_pending(&one, from, mem, layout, call, log)?;
        let touches = progress.next - from;
        if progress.moved {
            self.keep_touched(at, progress.next);
            Ok(Delivery {
                done: false,
                touches,
            })
        } else {
            self.remove(at);
            Ok(Delivery {
                done: true,
                touches,
            })
        }
    }
}
