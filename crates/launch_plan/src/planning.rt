//! The plan of a launch.
ghost use Rattle.std.specs.Prelude.{◌≡◌, ◌≤◌, ◌<◌, ◌^◌, IfOk, length};
ghost use Rattle.argdata_codec.specs.Writing.{encoding};
ghost use Rattle.launch_values.specs.Documents.{IsDocument};
ghost use Rattle.launch_values.specs.Views.{shape_of};
ghost use Rattle.tree_model.specs.Grants.{AreGrants};
ghost use Rattle.launch_plan.specs.Tagged.{tagged};
ghost use Rattle.launch_plan.specs.Values.{value_of};
ghost use Rattle.launch_plan.specs.Plan.{parts_of, plan_of};
ghost use Rattle.lists.specs.Results.{Gives};

use crate::arguments::argument;
use crate::fault::PlanFault;
use crate::sizes::room_behind;
use crate::tagged_nodes::push_grants;
use abi_base::{GrantList, MOST_ARGDATA, MOST_DESCRIPTORS};
use argdata_codec::encode;
use file_tree::Tree;
use launch_yaml::{Doc, Node};
use lists::{Bytes, Stop};
use std::alloc::{AllocError, Global};

/// What a launch gives a program.
#[derive(Drop)]
pub struct Planned {
    /// The argument data, at most `MOST_ARGDATA` bytes.
    pub argdata: Bytes,
    /// The descriptors in the order of their numbers, at most `MOST_DESCRIPTORS`.
    pub grants: GrantList,
}

/// The plan that a document is, where a launch begins with this file tree, or its first fault: in the order of the
/// document, then too many descriptors, then too much argument data.
#[tactic(auto, unfolding(crate::specs::Plan::plan_of))]
pub fn plan(alloc: Global, doc: &Doc, tree: &Tree) -> Result<Planned, Stop<PlanFault>>
    requires { IsDocument (shape_of doc.now.root) }
    ensures plan { Gives parts_of result (plan_of tree.now (shape_of doc.now.root)) }
    // What a launch may give.
    ensures grants { IfOk result (λ planned. AreGrants tree.now planned.grants) }
    ensures small { IfOk result (λ planned. length planned.argdata ≤ MOST_ARGDATA) }
{
    let mut grants = GrantList::new(alloc);
    push_grants(&mut grants, tree, &doc.root)?;
    if grants.len() > MOST_DESCRIPTORS {
        return Err(Stop::At(PlanFault::TooMany));
    }
    // Argument data that is much too large isn't made.
    if room_behind(MOST_ARGDATA, &doc.root).is_none() {
        return Err(Stop::At(PlanFault::TooLarge));
    }
    let argdata = argdata(alloc, &doc.root)?;
    if argdata.len() > MOST_ARGDATA {
        return Err(Stop::At(PlanFault::TooLarge));
    }
    Ok(Planned { argdata, grants })
}

// The argument data of a document, however much it is.
fn argdata(alloc: Global, root: &Node) -> Result<Bytes, AllocError>
    requires document { IsDocument (shape_of root.now) }
    requires few { length (tagged (shape_of root.now)) ≤ MOST_DESCRIPTORS }
    ensures { IfOk result (λ argdata. argdata ≡ encoding (value_of 0 (shape_of root.now))) }
{
    let mut next = 0;
    encode(alloc, &argument(alloc, &mut next, root)?)
}
