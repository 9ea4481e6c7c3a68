//! A chain, and the tags that stand in it.

ghost use Rattle.std.specs.Prelude.{◌≡◌, IfOk, map};
ghost use Rattle.rh_audit.specs.declared.link.Link.{Link};
ghost use Rattle.rh_audit.specs.Chains.{chain};
ghost use Rattle.rh_audit.specs.Links.{legs_of};
ghost use Rattle.rh_audit.specs.Kept.{AreTagsOf};
ghost use Rattle.rh_audit.specs.Reads.{legs_read};

use crate::chain::chain_of;
use crate::link::Link;
use crate::read_leg::ReadLeg;
use std::alloc::{AllocError, Global};
use std::marker::Model;

/// The legs of a chain.
#[derive(Drop)]
pub(crate) struct Chain<'a> {
    links: Vec<Link<'a>>,
    tags: Vec<u64>,
}

impl<'a> Model for Chain<'a> {
    ghost use mir.Syntax.{named};
    ghost use Rattle.std.specs.Prelude.{[], List};
    ghost use Rattle.std.specs.Coded.{codes};
    ghost use Rattle.rh_audit.specs.contracts.link.Link as link;
    ghost use Rattle.rh_audit.specs.declared.link.Link.{Link};
    ghost use Rattle.rh_audit.specs.Kept.{AreTagsOf};

    ghost Value = { List Link };

    ghost coded = { Prim.hlevel (
      codes,
      (link.the_row (record { mir = named 0; lft = [] })).coded,
    ) };

    ghost view = { λ a. a.links.items };

    ghost invariant = { λ a. AreTagsOf a.links.items a.tags.items };
}

/// The legs with their places where they stand.
fn links_of<'a>(alloc: Global, legs: &'a [ReadLeg<'a>]) -> Result<Vec<Link<'a>>, AllocError>
    ensures { IfOk result (λ links. legs_of links.items ≡ legs_read legs.now) }
{
    let mut links = Vec::with_capacity(alloc, legs.len())?;
    for leg in legs {
        links.push(leg.link())?;
    }
    Ok(links)
}

/// The tags of the legs, the least first.
fn sorted_tags(alloc: Global, links: &[Link<'_>]) -> Result<Vec<u64>, AllocError>
    ensures { IfOk result (λ tags. AreTagsOf links.now tags.items) }
{
    let mut tags = tags_of(alloc, links)?;
    tags.sort()?;
    Ok(tags)
}

/// The tags of the legs.
fn tags_of(alloc: Global, links: &[Link<'_>]) -> Result<Vec<u64>, AllocError>
    ensures { IfOk result (λ tags. tags.items ≡ map (λ link. link.tag) links.now) }
{
    let mut tags = Vec::with_capacity(alloc, links.len())?;
    for link in links {
        tags.push(link.tag)?;
    }
    Ok(tags)
}

impl<'a> Chain<'a> {
    ghost use Rattle.std.specs.Prelude.{◌≡◌, IfOk};
    ghost use Rattle.rh_audit.specs.Audits.{has};
    ghost use Rattle.rh_audit.specs.Chains.{chain};
    ghost use Rattle.rh_audit.specs.Links.{legs_of};
    ghost use Rattle.rh_audit.specs.Reads.{legs_read};

    /// The chain of the legs of a kind, which come in the order of their tags.
    ///
    /// Fails where there is no memory.
    pub(crate) fn new(alloc: Global, legs: &'a [ReadLeg<'a>]) -> Result<Chain<'a>, AllocError>
        ensures { IfOk result (λ found. legs_of found ≡ chain (legs_read legs.now)) }
    {
        let links = chain_of(alloc, links_of(alloc, legs)?.as_slice())?;
        let tags = sorted_tags(alloc, &links)?;
        Ok(Chain { links, tags })
    }

    /// The legs, in order.
    pub(crate) fn links(&self) -> &[Link<'a>]
        ensures { result.now ≡ self.now }
    {
        &self.links
    }

    /// Whether a tag stands in it.
    pub(crate) fn has(&self, tag: u64) -> bool
        ensures { result ≡ has tag (legs_of self.now) }
    {
        self.tags.as_slice().binary_search(&tag).is_ok()
    }
}
