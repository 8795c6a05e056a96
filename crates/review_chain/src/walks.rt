//! The chain of a change, and what has to be looked up to find it.
ghost use Rattle.std.specs.Prelude.{◌≡◌, ◌≤◌, ◌==◌, ℕ, List, Option, None, IfOk, IfErr, IfSome, IfNone, option_map};
ghost use Rattle.review_chain.specs.Parts.{HasWalked, IsDecided, IsWanted};
ghost use Rattle.review_chain.specs.Steps.{IsFault, before, before_change, before_known, want_of, wanted};
ghost use Rattle.review_chain.specs.{Walks.IsChain, Walks.patch_set_fault, inner.Words.before_of};

use crate::links::{Link, Links, Standing};
use review_words::{ChangeNo, CommitName, PatchNo, State};
use std::alloc::{AllocError, AllocFailed, Global};

/// Why a change has no chain.
#[derive(Clone, Copy, PartialEq, Eq)]
pub enum ChainFault {
    /// A link is the commit of an older patch set.
    Outdated,
    /// A link is the current commit of an abandoned change.
    Abandoned,
    /// A link is the current commit of a change in work in progress.
    Wip,
    /// Before 100 changes there is a further link.
    TooLong,
    /// No branch has these links: a parent is nowhere, or a merged change's current commit isn't in the branch.
    Broken,
    /// Something isn't known that [`wanted`] names.
    Unknown,
    /// There was no memory for the chain.
    Memory,
}

impl From<AllocError> for ChainFault {
    ghost use Rattle.std.specs.Prelude.{◌≡◌};
    ghost use Rattle.review_chain.specs.declared.walks.ChainFault.TheVariants.{Memory};

    ghost from_gives = { λ _ e. e ≡ Memory };

    fn from(_error: AllocError) -> ChainFault {
        ChainFault::Memory
    }
}

impl<T: Drop> From<AllocFailed<T>> for ChainFault {
    ghost use Rattle.std.specs.Prelude.{◌≡◌};
    ghost use Rattle.review_chain.specs.declared.walks.ChainFault.TheVariants.{Memory};

    ghost from_gives = { λ _ e. e ≡ Memory };

    fn from(_error: AllocFailed<T>) -> ChainFault {
        ChainFault::Memory
    }
}

/// What has to be looked up.
#[derive(PartialEq, Eq, Drop)]
pub enum LookUp {
    /// The link of a change.
    Change(ChangeNo),
    /// What a commit is to the branch.
    Commit(CommitName),
}

/// What stands before the first change of a walk.
#[derive(Drop)]
enum Step {
    AtBase,
    At(ChangeNo),
    AtFault(ChainFault),
    AtUnknown(LookUp),
}

// What is wrong with a patch set of a change as a link.
fn patch_set_fault(patch: PatchNo, link: &Link) -> Option<ChainFault>
    ensures { result ≡ patch_set_fault patch link.now }
{
    if patch.get() as usize != link.patch {
        return Some(ChainFault::Outdated);
    }
    match link.state {
        State::Abandoned => Some(ChainFault::Abandoned),
        _ if link.wip => Some(ChainFault::Wip),
        State::Merged => Some(ChainFault::Broken),
        State::New => None,
    }
}

// What stands before, where it is a patch set of a change.
fn before_change<L: Links>(links: &L, change: ChangeNo, patch: PatchNo) -> Result<Step, AllocError>
    ensures { IfOk result (λ step. before_of step ≡ before_change change patch ((L.known links.now).link change)) }
{
    let Some(link) = links.link(change)? else {
        return Ok(Step::AtUnknown(LookUp::Change(change)));
    };
    match patch_set_fault(patch, &link) {
        None => Ok(Step::At(change)),
        Some(fault) => Ok(Step::AtFault(fault)),
    }
}

// What stands before a walk of so many changes whose first has a parent that is this to the branch.
fn before_known<L: Links>(links: &L, count: usize, parent: Standing) -> Result<Step, AllocError>
    ensures { IfOk result (λ step. before_of step ≡ before_known (L.known links.now) count parent) }
{
    match parent {
        Standing::InBranch => Ok(Step::AtBase),
        Standing::Nowhere => Ok(Step::AtFault(ChainFault::Broken)),
        Standing::PatchSet { change, patch } => {
            if count == 100 {
                return Ok(Step::AtFault(ChainFault::TooLong));
            }
            before_change(links, change, patch)
        }
    }
}

// What stands before a walk of so many changes that begins at a change.
fn before<L: Links>(links: &L, count: usize, first: ChangeNo) -> Result<Step, AllocError>
    ensures { IfOk result (λ step. before_of step ≡ before (L.known links.now) count first) }
{
    let Some(link) = links.link(first)? else {
        return Ok(Step::AtUnknown(LookUp::Change(first)));
    };
    match links.standing(&link.parent)? {
        None => Ok(Step::AtUnknown(LookUp::Commit(link.parent))),
        Some(parent) => before_known(links, count, parent),
    }
}

/// The chain of a change, ancestors first and the change last, or its fault: the name of its bad link, that something isn't known, or want of
/// memory. A change has at most one chain or bad link (`only_one_chain`), and where all is known one of the two (`each_has_one`).
pub fn chain<L: Links>(
    alloc: Global,
    links: &L,
    change: ChangeNo,
) -> Result<Vec<ChangeNo>, ChainFault>
    ensures chain { IfOk result (λ walk. IsChain (L.known links.now) walk.items change) }
    ensures fault { IfErr result (IsFault (L.known links.now) change) }
{
    let mut walk = Vec::new(alloc);
    walk.push(change)?;
    let mut first = change;
    'back: loop {
        match before(links, walk.len(), first)? {
            Step::AtBase => return Ok(walk),
            Step::AtFault(fault) => return Err(fault),
            Step::AtUnknown(_) => return Err(ChainFault::Unknown),
            Step::At(earlier) => {
                walk.insert(0, earlier)?;
                first = earlier;
            }
        }
    }
}

/// Where the look for the chain of a change has come to: a walk to it.
#[derive(Clone, Copy, PartialEq, Eq)]
pub struct Walked {
    /// The change whose chain is looked for.
    pub change: ChangeNo,
    /// The change at which the walk begins.
    pub first: ChangeNo,
    /// How many changes the walk has, from 1 to 100.
    pub count: usize,
}

impl Walked {
    /// The walk of the change alone.
    pub fn new(change: ChangeNo) -> Walked
        ensures { result ≡ record { change = change; first = change; count = 1 } }
    {
        Walked {
            change,
            first: change,
            count: 1,
        }
    }
}

/// What has to be looked up next to find the chain of a change, going on from a walk to it; what [`wanted`] answers, wherever the walk begins.
/// It leaves a walk to the change, from which the next look may go on. An error is want of memory, and leaves one too. How long the walk is
/// is not promised: only speed depends on it.
pub fn wanted_on<L: Links>(links: &L, walked: &mut Walked) -> Result<Option<LookUp>, AllocError>
    ensures change { walked.new.change ≡ walked.old.change }
    ensures walked { HasWalked (L.known links.now) walked.old → HasWalked (L.known links.now) walked.new }
    ensures is { HasWalked (L.known links.now) walked.old → IfOk result (λ found. option_map want_of found ≡ wanted (L.known links.now) walked.old.change) }
{
    while walked.count <= 100 {
        match before(links, walked.count, walked.first)? {
            Step::AtBase => return Ok(None),
            Step::AtFault(_) => return Ok(None),
            Step::AtUnknown(wanted) => return Ok(Some(wanted)),
            Step::At(earlier) => {
                walked.first = earlier;
                walked.count += 1;
            }
        }
    }
    Ok(None)
}

/// What has to be looked up next to find the chain of a change, or none where the links decide its chain or its bad link. After at most 200
/// look-ups nothing is wanted (`look_ups_end`). An error is want of memory.
pub fn wanted<L: Links>(links: &L, change: ChangeNo) -> Result<Option<LookUp>, AllocError>
    ensures is { IfOk result (λ found. option_map want_of found ≡ wanted (L.known links.now) change) }
    ensures some { IfOk result (λ found. IfSome found (λ w. (walk : List ℕ) × IsWanted (L.known links.now) walk change (want_of w))) }
    ensures none { IfOk result (λ found. IfNone found (IsDecided (L.known links.now) change)) }
{
    let mut walked = Walked::new(change);
    wanted_on(links, &mut walked)
}
