//! The locks of a statement: those of its forms' rows, on each relation that these reach.
ghost use Rattle.std.specs.Prelude.{◌≡◌, ◌++◌, ◌∷◌, [], ℕ, List, IfOk, map};
ghost use Rattle.std.specs.List.{flat_map};
ghost use Rattle.sql_locks.specs.Reach.{along_of, hopped, start_of, sources_of, targets_of, begins_at, ends_at, ArePathLocks, AreLocks};

use crate::catalog::{Link, LinkKind};
use crate::edges::closure;
use crate::forms::{Along, Form, Hop, Part, Start};
use modes_core::Mode;
use std::alloc::{AllocError, Global};

/// A form in which a statement reaches a relation.
#[derive(Clone, Copy)]
pub struct Act {
    pub form: Form,
    /// The number of the relation that the form is about.
    pub target: usize,
    /// The number of the other relation that the form names, if it names one.
    pub other: Option<usize>,
    /// Whether the statement says `ONLY`, and so leaves children and partitions alone.
    pub is_only: bool,
}

/// A lock on a relation.
#[derive(Clone, Copy)]
pub struct Lock {
    /// The number of the locked relation in the catalog.
    pub relation: usize,
    pub mode: Mode,
}

impl Act {
    /// The relation of this act at which a path begins whose row says `start`, if the act has that relation.
    fn start(&self, start: Start) -> Option<usize>
        ensures { result ≡ start_of start self.now }
    {
        match start {
            Start::Target => Some(self.target),
            Start::Other => self.other,
        }
    }
}

/// What a path really goes along where its row says `along`: nothing where `is_only` is true, as for a
/// statement that says `ONLY`, but `along` itself for `Along::Stored` and wherever `is_only` is false.
fn along_gone(along: Along, is_only: bool) -> Along
    ensures { result ≡ along_of along is_only }
{
    match (along, is_only) {
        (Along::Family, true) => Along::Nothing,
        (Along::Sources, true) => Along::Nothing,
        (Along::Referring, true) => Along::Nothing,
        _ => along,
    }
}

/// The locks of `act` by `links`, in the order of `parts`, which are those of the row of its form: the mode
/// of each part on each relation that the path of the part reaches.
pub fn locks_of(
    alloc: Global,
    links: &[Link],
    act: &Act,
    parts: &'static [Part],
) -> Result<Vec<Lock>, AllocError>
    ensures { IfOk result (λ locks. AreLocks links.now act.now parts.now locks.items) }
{
    let mut locks = Vec::new(alloc);
    for part in parts {
        let more = part_locks(alloc, links, act, part)?;
        locks.extend_from_slice(more.as_slice())?;
    }
    Ok(locks)
}

/// The locks that `part`, one part of the row of a form, has for `act` by `links`.
fn part_locks(
    alloc: Global,
    links: &[Link],
    act: &Act,
    part: &Part,
) -> Result<Vec<Lock>, AllocError>
    ensures { IfOk result (λ locks. ArePathLocks links.now act.now part.now
        (start_of part.now.path.start act.now) locks.items) }
{
    let mut locks = Vec::new(alloc);
    let Some(start) = act.start(part.path.start) else {
        return Ok(locks);
    };
    let along = along_gone(part.path.along, act.is_only);
    let found = closure(alloc, links, along, start)?;
    let reached = hop_all(alloc, links, part.path.hop, &found)?;
    push_locks(&mut locks, &reached, part.mode)?;
    Ok(locks)
}

/// Adds to `locks` a lock of `mode` on each relation of `reached`.
fn push_locks(locks: &mut Vec<Lock>, reached: &Vec<usize>, mode: Mode) -> Result<(), AllocError>
    ensures { IfOk result (λ done. locks.new.items ≡
        locks.old.items ++ map (λ x. record { relation = x; mode = mode }) reached.now.items) }
{
    for relation in reached {
        locks.push(Lock {
            relation: *relation,
            mode,
        })?;
    }
    Ok(())
}

/// Where the last step of a path, `hop`, leads by `links` from the relations of `found`.
fn hop_all(
    alloc: Global,
    links: &[Link],
    hop: Hop,
    found: &Vec<usize>,
) -> Result<Vec<usize>, AllocError>
    ensures { IfOk result (λ reached. reached.items ≡ flat_map (hopped links.now hop) found.now.items) }
{
    let mut reached = Vec::new(alloc);
    for number in found {
        let ends = hop_from(alloc, links, hop, *number)?;
        reached.extend_from_slice(ends.as_slice())?;
    }
    Ok(reached)
}

/// Where the last step of a path, `hop`, leads by `links` from the relation `number`.
fn hop_from(
    alloc: Global,
    links: &[Link],
    hop: Hop,
    number: usize,
) -> Result<Vec<usize>, AllocError>
    ensures { IfOk result (λ ends. ends.items ≡ hopped links.now hop number) }
{
    match hop {
        Hop::Stay => alone(alloc, number),
        Hop::Indexes => targets(alloc, links, LinkKind::Index, number),
        Hop::Table => sources(alloc, links, LinkKind::Index, number),
        Hop::Key => targets(alloc, links, LinkKind::Key, number),
        Hop::Default => targets(alloc, links, LinkKind::Default, number),
        Hop::Referred => targets(alloc, links, LinkKind::Refers, number),
        Hop::Referring => sources(alloc, links, LinkKind::Refers, number),
        Hop::Owned => targets(alloc, links, LinkKind::Owns, number),
    }
}

/// A list of the relation `number` alone.
fn alone(alloc: Global, number: usize) -> Result<Vec<usize>, AllocError>
    ensures { IfOk result (λ ends. ends.items ≡ number ∷ []) }
{
    let mut ends = Vec::new(alloc);
    ends.push(number)?;
    Ok(ends)
}

/// The relations to which `links` of `kind` lead from `number`.
fn targets(
    alloc: Global,
    links: &[Link],
    kind: LinkKind,
    number: usize,
) -> Result<Vec<usize>, AllocError>
    ensures { IfOk result (λ ends. ends.items ≡ targets_of kind number links.now) }
{
    links
        .iter()
        .filter(|link| link.begins_at(kind, number))
        .map(|link| link.to)
        .collect(alloc)
}

/// The relations from which `links` of `kind` lead to `number`.
fn sources(
    alloc: Global,
    links: &[Link],
    kind: LinkKind,
    number: usize,
) -> Result<Vec<usize>, AllocError>
    ensures { IfOk result (λ ends. ends.items ≡ sources_of kind number links.now) }
{
    links
        .iter()
        .filter(|link| link.ends_at(kind, number))
        .map(|link| link.from)
        .collect(alloc)
}

impl Link {
    /// Whether this link is of `kind` and begins at the relation `number`.
    fn begins_at(&self, kind: LinkKind, number: usize) -> bool
        ensures { result ≡ begins_at kind number self.now }
    {
        self.kind == kind && self.from == number
    }

    /// Whether this link is of `kind` and ends at the relation `number`.
    fn ends_at(&self, kind: LinkKind, number: usize) -> bool
        ensures { result ≡ ends_at kind number self.now }
    {
        self.kind == kind && self.to == number
    }
}
