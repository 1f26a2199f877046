//! What a launch text gives a program.
ghost use Rattle.std.specs.Prelude.{◌≡◌};
ghost use Rattle.launch_values.specs.Documents.{IsDocument};
ghost use Rattle.launch_values.specs.Views.{shape_of};
ghost use Rattle.launch_plan.specs.Plan.{parts_of, plan_of};
ghost use Rattle.launch_reading.specs.LaunchText.{with_plan, planned_text, of_file, of_plan, line_of_fault};
ghost use Rattle.lists.specs.Results.{Gives};

use file_tree::Tree;
use launch_plan::{PlanFault, Planned, plan};
use launch_yaml::{Doc, Fault, parse};
use lists::Stop;
use std::alloc::Global;

/// Why a launch text gives no plan.
#[derive(Clone, Copy, Drop)]
pub enum LaunchFault {
    /// It is no launch file: its first fault.
    Yaml(Fault),
    /// It is a launch file that is no plan.
    Plan(PlanFault),
}

impl LaunchFault {
    /// The line of the fault, where it has one.
    pub fn line(&self) -> Option<u32>
        ensures { result ≡ line_of_fault self.now }
    {
        match self {
            LaunchFault::Yaml(fault) => Some(fault.line),
            LaunchFault::Plan(
                PlanFault::UnknownTag(line)
                | PlanFault::BadFd(line)
                | PlanFault::BadFile(line)
                | PlanFault::UnknownRight(line)
                | PlanFault::NoSuchPath(line),
            ) => Some(*line),
            LaunchFault::Plan(_) => None,
        }
    }
}

// Why a text is no launch file, for a reader of launch texts.
fn of_file(stop: Stop<Fault>) -> Stop<LaunchFault>
    ensures { result ≡ of_file stop }
{
    match stop {
        Stop::At(fault) => Stop::At(LaunchFault::Yaml(fault)),
        Stop::Memory => Stop::Memory,
    }
}

// Why a document is no plan, for a reader of launch texts.
fn of_plan(stop: Stop<PlanFault>) -> Stop<LaunchFault>
    ensures { result ≡ of_plan stop }
{
    match stop {
        Stop::At(fault) => Stop::At(LaunchFault::Plan(fault)),
        Stop::Memory => Stop::Memory,
    }
}

// The argument data and the descriptors that a document gives.
fn plan_document(alloc: Global, doc: &Doc, tree: &Tree) -> Result<Planned, Stop<LaunchFault>>
    requires { IsDocument (shape_of doc.now.root) }
    ensures { Gives parts_of result (with_plan (plan_of tree.now (shape_of doc.now.root))) }
{
    match plan(alloc, doc, tree) {
        Ok(planned) => Ok(planned),
        Err(stop) => Err(of_plan(stop)),
    }
}

/// The argument data and the descriptors that a launch text gives where there is this file tree.
pub fn plan_text(alloc: Global, text: &[u8], tree: &Tree) -> Result<Planned, Stop<LaunchFault>>
    ensures { Gives parts_of result (planned_text tree.now text.now) }
{
    match parse(alloc, text) {
        Ok(doc) => plan_document(alloc, &doc, tree),
        Err(stop) => Err(of_file(stop)),
    }
}
