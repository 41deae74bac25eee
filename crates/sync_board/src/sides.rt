//! What one rank has done on one window, in counts and tables (MPI 3.1, section 11.5.2).
ghost use Rattle.std.specs.Prelude.{◌≡◌, ℕ, ◌+◌, nat_lt, List, [], ◌∷◌, ◌++◌, length, take, IfSome, OnOk, OnErr};
ghost use Rattle.sync_board.specs.Sides.{CountsGroups, Done, IsGroup, IsRaised, Keeps, with_post, with_start};
ghost use Rattle.sync_board.specs.Sides.{with_complete, with_wait};
ghost use Rattle.sync_board.specs.Tables.{HasNoSide};

use crate::grown::Idle;
use rma_types::NoMemory;
use std::alloc::Global;

/// The posts, starts, completes and waits of one rank on one window, counted.
///
/// Of each pair of ranks it has the count that the other rank's calls are compared with: so a start and a wait
/// look at one count for each member of their group.
#[derive(Debug, Drop)]
pub(crate) struct Side {
    pub(crate) posts: u32,
    pub(crate) waits: u32,
    pub(crate) completes: u32,
    /// For each rank, how many of this rank's posts, of its starts and of its completed starts name it.
    pub(crate) posted_to: [u32; 16],
    pub(crate) started_to: [u32; 16],
    pub(crate) completed_to: [u32; 16],
    /// The group of the last post.
    pub(crate) last_post: [bool; 16],
    /// The groups of the starts.
    pub(crate) starts: Vec<[bool; 16]>,
}

/// The counts, each raised by one where the group has its rank; none where a count stands at its type's end.
pub(crate) fn raised(counts: &[u32; 16], named: &[bool; 16]) -> Option<[u32; 16]>
    ensures { IfSome result (IsRaised counts.now named.now) }
{
    let mut raised = *counts;
    for rank in 0..16 {
        if named[rank] {
            raised[rank] = raised[rank].checked_add(1)?;
        }
    }
    Some(raised)
}

impl Side {
    /// A rank that has done nothing.
    fn new(alloc: Global) -> Side
        ensures { (d : Done) → HasNoSide d → Keeps d result }
    {
        Side {
            posts: 0,
            waits: 0,
            completes: 0,
            posted_to: [0; 16],
            started_to: [0; 16],
            completed_to: [0; 16],
            last_post: [false; 16],
            starts: Vec::new(alloc),
        }
    }

    /// The rank is posted, from its post to its wait or true testwin.
    pub(crate) fn is_posted(&self) -> bool
        ensures { (d : Done) → Keeps d self.now → result ≡ nat_lt d.waits (length d.posts) }
    {
        self.waits < self.posts
    }

    /// One post more, to a group.
    pub(crate) fn post(&mut self, group: &[bool; 16]) -> Result<(), NoMemory>
        ensures ok { OnOk result ((d : Done) (members : List ℕ) →
            IsGroup group.now members → Keeps d self.old → Keeps (with_post d members) self.new) }
        ensures err { OnErr result ((d : Done) → Keeps d self.old → Keeps d self.new) }
    {
        let posts = self.posts.checked_add(1).ok_or(NoMemory)?;
        let posted_to = raised(&self.posted_to, group).ok_or(NoMemory)?;
        self.posts = posts;
        self.posted_to = posted_to;
        self.last_post = *group;
        Ok(())
    }

    /// The counts of completed starts with one start more: it is completed at once where a complete of its number came
    /// before it.
    fn completed_with_start(&self, group: &[bool; 16]) -> Option<[u32; 16]>
        ensures { IfSome result (λ counts. (d : Done) (members : List ℕ) →
            IsGroup group.now members → Keeps d self.now →
            CountsGroups counts (take d.completes (d.starts ++ members ∷ []))) }
    {
        if self.starts.len() < self.completes as usize {
            raised(&self.completed_to, group)
        } else {
            Some(self.completed_to)
        }
    }

    /// The counts of completed starts with one complete more.
    fn completed_with_complete(&self) -> Option<[u32; 16]>
        ensures { IfSome result (λ counts. (d : Done) →
            Keeps d self.now → CountsGroups counts (take (d.completes + 1) d.starts)) }
    {
        let at = self.completes as usize;
        if at < self.starts.len() {
            raised(&self.completed_to, &self.starts[at])
        } else {
            Some(self.completed_to)
        }
    }

    /// One start more, to a group.
    pub(crate) fn start(&mut self, group: &[bool; 16]) -> Result<(), NoMemory>
        ensures ok { OnOk result ((d : Done) (members : List ℕ) →
            IsGroup group.now members → Keeps d self.old → Keeps (with_start d members) self.new) }
        ensures err { OnErr result ((d : Done) → Keeps d self.old → Keeps d self.new) }
    {
        let started_to = raised(&self.started_to, group).ok_or(NoMemory)?;
        let completed_to = self.completed_with_start(group).ok_or(NoMemory)?;
        match self.starts.push(*group) {
            Ok(()) => {}
            Err(_) => return Err(NoMemory),
        }
        self.started_to = started_to;
        self.completed_to = completed_to;
        Ok(())
    }

    /// One complete more: it completes the start of its number, where there is one.
    pub(crate) fn complete(&mut self) -> Result<(), NoMemory>
        ensures ok { OnOk result ((d : Done) → Keeps d self.old →
            Keeps (with_complete d) self.new) }
        ensures err { OnErr result ((d : Done) → Keeps d self.old → Keeps d self.new) }
    {
        let completes = self.completes.checked_add(1).ok_or(NoMemory)?;
        let completed_to = self.completed_with_complete().ok_or(NoMemory)?;
        self.completes = completes;
        self.completed_to = completed_to;
        Ok(())
    }

    /// One wait or true testwin more.
    pub(crate) fn wait(&mut self) -> Result<(), NoMemory>
        ensures ok { OnOk result ((d : Done) → Keeps d self.old → Keeps (with_wait d) self.new) }
        ensures err { OnErr result ((d : Done) → Keeps d self.old → Keeps d self.new) }
    {
        self.waits = self.waits.checked_add(1).ok_or(NoMemory)?;
        Ok(())
    }
}

impl Idle for Side {
    ghost is_idle = { λ side. (d : Done) → HasNoSide d → Keeps d side };

    fn idle(alloc: Global) -> Side {
        Side::new(alloc)
    }
}
