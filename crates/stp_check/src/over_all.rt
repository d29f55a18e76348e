//! Over-all conditions by their members.

ghost use Rattle.std.specs.Prelude.{◌≡◌, ◌∷◌, [], map, IfOk};
ghost use Rattle.stp_check.specs.Members.{AreMembers};

use std::alloc::Global;
use stp_base::{List, Memory};
use stp_cond::Cond;
use stp_window::Lasting;

/// A step in which something has to hold, and the members of that, which are judged each by itself.
#[derive(Drop)]
pub(crate) struct OverAll<'a> {
    pub(crate) lasting: Lasting<'a>,
    pub(crate) members: List<Cond<'a>>,
    ghost are: { AreMembers lasting.inside.over.now members },
}

/// These formulas.
fn listed<'a>(alloc: Global, conds: &[Cond<'a>]) -> Result<List<Cond<'a>>, Memory>
    ensures { IfOk result (λ r. r ≡ conds.now) }
{
    let items = Vec::from_slice(alloc, conds)?;
    Ok(List::from_vec(items))
}

/// A formula alone.
fn alone<'a>(alloc: Global, cond: &Cond<'a>) -> Result<List<Cond<'a>>, Memory>
    ensures { IfOk result (λ r. r ≡ cond.now ∷ []) }
{
    let mut members = List::new(alloc);
    members.push(*cond)?;
    Ok(members)
}

/// The members of a conjunction, or another formula alone.
fn members_of<'a>(alloc: Global, cond: &Cond<'a>) -> Result<List<Cond<'a>>, Memory>
    ensures { IfOk result (AreMembers cond.now) }
{
    match cond {
        Cond::And(parts) => listed(alloc, parts),
        _ => alone(alloc, cond),
    }
}

/// A step with the members of what has to hold inside it.
fn over_all_of<'a>(alloc: Global, lasting: &Lasting<'a>) -> Result<OverAll<'a>, Memory>
    ensures { IfOk result (λ r. r.lasting ≡ lasting.now) }
{
    let members = members_of(alloc, lasting.inside.over)?;
    Ok(OverAll {
        lasting: *lasting,
        members,
    })
}

/// These steps, each with the members of what has to hold inside it.
pub(crate) fn over_alls_of<'a>(
    alloc: Global,
    spans: &[Lasting<'a>],
) -> Result<Vec<OverAll<'a>>, Memory>
    ensures { IfOk result (λ r. map (λ o. o.lasting) r.items ≡ spans.now) }
{
    let mut found = Vec::new(alloc);
    for span in spans {
        let one = over_all_of(alloc, span)?;
        found.push(one)?;
    }
    Ok(found)
}
