//! The launch that settings and inputs ask for.
ghost use Rattle.std.specs.Prelude.{◌≡◌, ◌≤◌, ℕ, List, length, All, IfOk, IfErr, option_map};
ghost use Rattle.std.specs.Option.{option_to_list};
ghost use Rattle.input_output.specs.Source.{Rose, IsWhole};
ghost use Rattle.tree_model.specs.Grants.{MayBegin};
ghost use Rattle.command_line.specs.Settings.{IsWithin, view};
ghost use Rattle.launch_reading.specs.Inputs.{AreRead, IsReadAs, IsUnread, IsUnreadOf, IsNoLaunch, IsNoLaunchOf};
ghost use Rattle.launch_reading.specs.Launch.{describes, input_limit, described_by, inputs_describe, settings_inputs, times_of, IsKnownAs, IsBuiltLaunch, AnswersDescribed};
ghost use Rattle.call_codec.specs.Bounded.{IsBounded};

use crate::launch_text::plan_text;
use crate::refusal::LaunchRefusal;
use abi_types::Times;
use command_line::LaunchSettings;
use elf_image::read_elf;
use input_output::{ReadFault, Source, read_whole};
use launch_plan::Planned;
use lists::{Bytes, Stop};
use run_types::{Constants, Launch};
use std::alloc::{AllocError, Global};
use tree_document::{TreeDocFault, read_tree};

// The name of standard input, which has the launch text.
const STANDARD_INPUT: &str = "-";

/// What was read of the inputs of a run.
#[derive(Drop)]
pub struct Inputs {
    /// The program's file.
    pub program: Bytes,
    /// The launch text.
    pub text: Bytes,
    /// The tree document; empty where none is asked for.
    pub tree: Bytes,
    /// What the program reads as standard input; empty where nothing is asked for.
    pub stdin: Bytes,
}

impl<'a> From<AllocError> for LaunchRefusal<'a> {
    ghost use Rattle.std.specs.Prelude.{◌≡◌};
    ghost use Rattle.launch_reading.specs.declared.refusal.LaunchRefusal.TheVariants.{Memory};

    ghost from_gives = { λ _ refusal. refusal ≡ Memory };

    fn from(_error: AllocError) -> LaunchRefusal<'a> {
        LaunchRefusal::Memory
    }
}

// Reads the whole input of this name.
fn read_input<'a, S: Source>(
    alloc: Global,
    source: &mut S,
    name: &'a str,
) -> Result<Bytes, LaunchRefusal<'a>>
    requires { S.may_read source.old name.now }
    ensures content_stays { (n : List ℕ) → S.content source.new n ≡ S.content source.old n }
    ensures may_read_stays { (n : List ℕ) → S.may_read source.old n → S.may_read source.new n }
    ensures faults_never_fall { S.faults source.old ≤ S.faults source.new }
    ensures within_limit { IfOk result (λ bytes. length bytes ≤ input_limit) }
    ensures ok { IfOk result (IsWhole (S.content source.old name.now)) }
    ensures err { IfErr result (IsUnread name.now (S.content source.old name.now) (Rose (S.faults source.old) (S.faults source.new))) }
{
    match read_whole(alloc, source, name) {
        Ok(bytes) => Ok(bytes),
        Err(Stop::At(ReadFault::Failed)) => Err(LaunchRefusal::Input(name)),
        Err(Stop::At(ReadFault::TooLong)) => Err(LaunchRefusal::TooLong(name)),
        Err(Stop::Memory) => Err(LaunchRefusal::Memory),
    }
}

// Reads the whole input of this name, where one is given.
fn read_optional<'a, S: Source>(
    alloc: Global,
    source: &mut S,
    name: Option<&'a str>,
) -> Result<Bytes, LaunchRefusal<'a>>
    requires { All (S.may_read source.old) (option_to_list (option_map (λ name. name.now) name)) }
    ensures content_stays { (n : List ℕ) → S.content source.new n ≡ S.content source.old n }
    ensures may_read_stays { (n : List ℕ) → S.may_read source.old n → S.may_read source.new n }
    ensures faults_never_fall { S.faults source.old ≤ S.faults source.new }
    ensures ok { IfOk result (IsReadAs (option_map (λ name. name.now) name.entry) (S.content source.old)) }
    ensures err { IfErr result (IsUnreadOf (option_map (λ name. name.now) name.entry) (S.content source.old) (Rose (S.faults source.old) (S.faults source.new))) }
{
    match name {
        None => Ok(Bytes::new(alloc)),
        Some(name) => read_input(alloc, source, name),
    }
}

// Reads the inputs of these settings, in their order.
fn read_inputs<'a, S: Source>(
    alloc: Global,
    settings: &LaunchSettings<'a>,
    source: &mut S,
) -> Result<Inputs, LaunchRefusal<'a>>
    requires { All (S.may_read source.old) (settings_inputs (view settings.now)) }
    ensures content_stays { (n : List ℕ) → S.content source.new n ≡ S.content source.old n }
    ensures may_read_stays { (n : List ℕ) → S.may_read source.old n → S.may_read source.new n }
    ensures faults_never_fall { S.faults source.old ≤ S.faults source.new }
    ensures ok { IfOk result (AreRead (view settings.now) (S.content source.old)) }
    ensures err { IfErr result (IsNoLaunchOf (settings_inputs (view settings.now)) (inputs_describe (view settings.now) (S.content source.old)) (Rose (S.faults source.old) (S.faults source.new))) }
{
    let program = read_input(alloc, source, settings.program)?;
    let text = read_input(alloc, source, STANDARD_INPUT)?;
    let tree = read_optional(alloc, source, settings.tree)?;
    let stdin = read_optional(alloc, source, settings.stdin)?;
    Ok(Inputs {
        program,
        text,
        tree,
        stdin,
    })
}

// The times of all nodes that a launch begins with.
fn times_of(settings: &LaunchSettings<'_>) -> Times
    ensures { result ≡ times_of (view settings.now) }
{
    Times {
        atim: settings.epoch,
        mtim: settings.epoch,
        ctim: settings.epoch,
    }
}

// The launch that settings and inputs describe.
#[tactic(auto, unfolding(crate::specs::Launch::described_by))]
fn launch_from<'a>(
    alloc: Global,
    settings: &LaunchSettings<'a>,
    inputs: Inputs,
) -> Result<Launch, LaunchRefusal<'a>>
    requires { length inputs.tree ≤ input_limit }
    ensures ok { IfOk result (λ launch. described_by (view settings.now) inputs ≡ describes launch) }
    ensures err { IfErr result (IsNoLaunch (described_by (view settings.now) inputs)) }
{
    let elf = match read_elf(alloc, inputs.program.as_slice()) {
        Ok(elf) => elf,
        Err(Stop::At(fault)) => return Err(LaunchRefusal::Program(fault)),
        Err(Stop::Memory) => return Err(LaunchRefusal::Memory),
    };
    let tree = match read_tree(alloc, inputs.tree.as_slice(), times_of(settings)) {
        Ok(tree) => tree,
        Err(Stop::At(TreeDocFault { byte })) => return Err(LaunchRefusal::Tree(byte)),
        Err(Stop::Memory) => return Err(LaunchRefusal::Memory),
    };
    match plan_text(alloc, inputs.text.as_slice(), &tree) {
        Ok(Planned { argdata, grants }) => Ok(Launch {
            elf,
            argdata,
            grants,
            tree,
            stdin: inputs.stdin,
            constants: Constants {
                key: settings.key,
                epoch: settings.epoch,
            },
            turns: settings.turns,
        }),
        Err(Stop::At(fault)) => Err(LaunchRefusal::LaunchText(fault)),
        Err(Stop::Memory) => Err(LaunchRefusal::Memory),
    }
}

/// The launch that settings and inputs describe. It reads the settings' inputs and no other: the program, standard input with
/// the launch text, the tree document and the program's standard input, where they are asked for, in this order.
///
/// A refusal is the first in this order: an input that could not be read or is too long, the program, the tree document,
/// the launch text. Where the source shows nothing of an input, only its bytes as they were read are looked at.
pub fn read_launch<'a, S: Source>(
    alloc: Global,
    settings: &LaunchSettings<'a>,
    source: &mut S,
) -> Result<Launch, LaunchRefusal<'a>>
    requires may_read { All (S.may_read source.old) (settings_inputs (view settings.now)) }
    requires within { IsWithin (view settings.now) }

    // What the source shows stays, and so does which names may be read.
    ensures content_stays { (n : List ℕ) → S.content source.new n ≡ S.content source.old n }
    ensures may_read_stays { (n : List ℕ) → S.may_read source.old n → S.may_read source.new n }
    ensures faults_never_fall { S.faults source.old ≤ S.faults source.new }

    // A launch is the one that is described, where anything is known of it, and in any case one of these settings.
    ensures ok { IfOk result (λ launch. IsKnownAs (inputs_describe (view settings.now) (S.content source.old)) (describes launch)) }
    ensures built { IfOk result (IsBuiltLaunch (view settings.now)) }
    ensures begins { IfOk result (λ launch. MayBegin launch.tree launch.grants) }
    ensures bounded { IfOk result IsBounded }

    // When each refusal comes.
    ensures err { IfErr result (IsNoLaunchOf (settings_inputs (view settings.now)) (inputs_describe (view settings.now) (S.content source.old)) (Rose (S.faults source.old) (S.faults source.new))) }

    // Where no fault was counted, what is described is answered, or lack of memory.
    ensures complete { ¬ Rose (S.faults source.old) (S.faults source.new) → AnswersDescribed (inputs_describe (view settings.now) (S.content source.old)) result }
{
    let inputs = read_inputs(alloc, settings, source)?;
    launch_from(alloc, settings, inputs)
}
