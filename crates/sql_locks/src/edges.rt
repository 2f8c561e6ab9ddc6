//! The relations that a path reaches along the links of a catalog.
ghost use Rattle.std.specs.Prelude.{◌≡◌, ◌≤◌, ℕ, IfOk, length, true, false, Contains, [], ◌∷◌};
ghost use Rattle.sql_locks.specs.Reach.{step_of, edges_of, IsClosure};
ghost use Rattle.sql_locks.specs.Follow.{IsFollowed};

use crate::catalog::{Link, LinkKind};
use crate::forms::Along;
use std::alloc::{AllocError, Global};

/// A step from one relation to another along a path.
#[derive(Clone, Copy)]
pub struct Edge {
    pub from: usize,
    pub to: usize,
}

impl Link {
    /// This link as a step of a path that goes along `along`, or none where such a path does not follow the
    /// link.
    fn step(&self, along: Along) -> Option<Edge>
        ensures { result ≡ step_of along self.now }
    {
        let onward = Edge {
            from: self.from,
            to: self.to,
        };
        let back = Edge {
            from: self.to,
            to: self.from,
        };
        match (along, self.kind) {
            (Along::Family, LinkKind::Child) => Some(onward),
            (Along::Sources, LinkKind::Child) => Some(onward),
            (Along::Sources, LinkKind::Reads) => Some(onward),
            (Along::Stored, LinkKind::Child) => Some(onward),
            (Along::Stored, LinkKind::Reads) => Some(onward),
            (Along::Stored, LinkKind::Stores) => Some(onward),
            (Along::Referring, LinkKind::Child) => Some(onward),
            (Along::Referring, LinkKind::Refers) => Some(back),
            _ => None,
        }
    }
}

/// All steps that `links` have for a path that goes along `along`.
fn edges(alloc: Global, links: &[Link], along: Along) -> Result<Vec<Edge>, AllocError>
    ensures { IfOk result (λ edges. edges.items ≡ edges_of along links.now) }
{
    links
        .iter()
        .filter_map(|link| link.step(along))
        .collect(alloc)
}

/// The relations that a path along `along` reaches from the relation `start` by `links`, with `start` itself.
pub fn closure(
    alloc: Global,
    links: &[Link],
    along: Along,
    start: usize,
) -> Result<Vec<usize>, AllocError>
    ensures { IfOk result (λ found. IsClosure (edges_of along links.now) start found.items) }
{
    let mut rest = edges(alloc, links, along)?;
    let mut found = Vec::new(alloc);
    found.push(start)?;
    'steps: while !rest.is_empty() {
        let before = rest.len();
        rest = follow(alloc, &mut found, &rest)?;
        if rest.len() == before {
            return Ok(found);
        }
    }
    Ok(found)
}

/// Adds to `found` the ends of those of `edges` that begin at a relation of `found`, and answers the other
/// edges.
fn follow(alloc: Global, found: &mut Vec<usize>, edges: &Vec<Edge>) -> Result<Vec<Edge>, AllocError>
    ensures { IfOk result (λ rest. IsFollowed found.old.items edges.now.items found.new.items rest.items) }
{
    let mut rest = Vec::new(alloc);
    for edge in edges {
        if !is_among(found, edge.from) {
            rest.push(*edge)?;
        } else if !is_among(found, edge.to) {
            found.push(edge.to)?;
        }
    }
    Ok(rest)
}

/// Whether `found` has the relation `number`.
fn is_among(found: &Vec<usize>, number: usize) -> bool
    ensures yes { result ≡ true → Contains found.now.items number }
    ensures no { result ≡ false → Contains found.now.items number → ⊥ }
{
    found.contains(&number)
}
