//! What an open of a path comes to: its plan says what is opened, and what is done to the file tree for it.
ghost use Rattle.std.specs.Prelude.{◌≡◌, ℕ, List, [], Some, true, option_copied, OnOk, OnErr};
ghost use Rattle.abi_base.specs.Rights.{meet_of};
ghost use Rattle.abi_types.specs.declared.node.NodeKind.TheVariants as kind;
ghost use Rattle.tree_model.specs.Changes.{is_absent};
ghost use Rattle.tree_model.specs.Tree.{Tree};
ghost use Rattle.kernel_model.specs.Families.FileChanges.{sized};
ghost use Rattle.kernel_model.specs.Families.FilePaths as paths;
ghost use Rattle.kernel_model.specs.Families.LastNames.{name_at};
ghost use Rattle.kernel_model.specs.Families.NameMaking.{with_node};
ghost use Rattle.kernel_model.specs.Families.Opening as model;
ghost use Rattle.entry_calls.specs.Done.{IsNew};
ghost use Rattle.entry_calls.specs.Plans.{change_of, kind_of, new_nodes_of, Plans};

use crate::failure::errno_of;
use crate::making::make_in;
use crate::places::{NamePlace, name_at};
use abi_types::flags::{O_CREAT, O_DIRECTORY, O_EXCL, O_TRUNC};
use abi_types::{
    Bytes, Descriptor, Errno, FdStat, Node, NodeKind, OPENED_RIGHTS, ObjId, OpenKind, OpenType,
    Rights,
};
use file_calls::{PathFault, lookup_mode, set_size, walked};
use file_tree::Tree;
use path_lookup::{End, WalkMode};
use right_rules::fits;
use std::alloc::{AllocError, Global};

/// What is opened, and what is done to the tree for it.
#[derive(Clone, Copy)]
pub enum OpenPlan {
    /// A file that is there, which loses its bytes first where it is to be truncated.
    File { node: ObjId, truncates: bool },
    /// A directory that is there.
    Directory { node: ObjId },
    /// A file that is made at this place.
    New { place: NamePlace },
}

// The descriptor of this open, with those of these rights that are asked.
fn asked_of(id: ObjId, stat: &FdStat, base: Rights, inheriting: Rights) -> Descriptor
    ensures { result ≡ record { id = id; base = record { 0 = meet_of base.0 stat.now.base.0 }; inheriting = record { 0 = meet_of inheriting.0 stat.now.inheriting.0 } } }
{
    Descriptor {
        id,
        base: base.meet(stat.base),
        inheriting: inheriting.meet(stat.inheriting),
    }
}

impl OpenPlan {
    /// The open, with these flags, where a node that is made has the number `new`.
    pub fn kind(&self, flags: u16, new: ObjId) -> OpenKind
        ensures { result ≡ kind_of self.now flags new }
    {
        match self {
            OpenPlan::File { node, .. } => OpenKind::File {
                node: *node,
                offset: 0,
                flags,
            },
            OpenPlan::Directory { node } => OpenKind::Directory { node: *node, flags },
            OpenPlan::New { .. } => OpenKind::File {
                node: new,
                offset: 0,
                flags,
            },
        }
    }

    /// The descriptor of the open with this number: it has the rights that are asked, without those that its type doesn't have.
    pub fn descriptor(&self, id: ObjId, stat: &FdStat) -> Descriptor
        ensures { (flags new : ℕ) → result ≡ model.opened_descriptor id (kind_of self.now flags new) stat.now }
    {
        match self {
            OpenPlan::File { .. } | OpenPlan::New { .. } => {
                asked_of(id, stat, fits(OpenType::File), Rights(0))
            }
            OpenPlan::Directory { .. } => asked_of(
                id,
                stat,
                fits(OpenType::Directory),
                OPENED_RIGHTS,
            ),
        }
    }

    /// How many nodes are made: 0 or 1.
    pub fn new_nodes(&self) -> u32
        ensures { result ≡ new_nodes_of self.now }
    {
        match self {
            OpenPlan::File { .. } | OpenPlan::Directory { .. } => 0,
            OpenPlan::New { .. } => 1,
        }
    }
}

fn creates(oflags: u32) -> bool
    ensures { result ≡ model.creates oflags }
{
    oflags & O_CREAT != 0
}

fn wants_directory(oflags: u32) -> bool
    ensures { result ≡ model.wants_directory oflags }
{
    oflags & O_DIRECTORY != 0
}

fn truncates(oflags: u32) -> bool
    ensures { result ≡ model.truncates oflags }
{
    oflags & O_TRUNC != 0
}

// What is opened must be new.
fn makes_new(oflags: u32) -> bool
    ensures { result ≡ model.makes_new oflags }
{
    creates(oflags) && oflags & O_EXCL != 0
}

// A symlink that is last isn't followed where the file must be new.
fn open_mode(oflags: u32, lookup_flags: u32) -> WalkMode
    ensures { result ≡ model.open_mode oflags lookup_flags }
{
    if makes_new(oflags) {
        WalkMode::NoFollow
    } else {
        lookup_mode(lookup_flags)
    }
}

// A node of this kind is opened.
fn plan_kind(oflags: u32, id: ObjId, kind: &NodeKind) -> Result<OpenPlan, PathFault>
    ensures { (t : Tree) (path : List ℕ) → Plans path t result (λ flags now new. model.open_kind oflags flags now t id kind.now) }
{
    match kind {
        NodeKind::File(_) if wants_directory(oflags) => Err(PathFault::Errno(Errno::Notdir)),
        NodeKind::File(_) => Ok(OpenPlan::File {
            node: id,
            truncates: truncates(oflags),
        }),
        NodeKind::Directory if creates(oflags) || truncates(oflags) => {
            Err(PathFault::Errno(Errno::Isdir))
        }
        NodeKind::Directory => Ok(OpenPlan::Directory { node: id }),
        NodeKind::Link(_) => Err(PathFault::Errno(Errno::Loop)),
    }
}

// What is there is opened.
fn plan_node(oflags: u32, id: ObjId, node: Option<&Node>) -> Result<OpenPlan, PathFault>
    ensures { (t : Tree) (path : List ℕ)
        → Plans path t result (λ flags now new. model.open_node oflags flags now t id (option_copied node.entry)) }
{
    match node {
        None => Err(PathFault::Errno(Errno::Badf)),
        Some(_) if makes_new(oflags) => Err(PathFault::Errno(Errno::Exist)),
        Some(node) => plan_kind(oflags, id, &node.kind),
    }
}

// A name that isn't there is given to a new file, or is none.
fn plan_absent(
    tree: &Tree,
    oflags: u32,
    path: &[u8],
    place: NamePlace,
) -> Result<OpenPlan, PathFault>
    ensures { Plans path.now tree.now result
        (λ flags now new. model.open_absent oflags flags now new tree.now place.dir (name_at path.now place.from place.len)) }
{
    if !creates(oflags) {
        return Err(PathFault::Errno(Errno::Noent));
    }
    match tree.check_make(place.dir, name_at(path, place.from, place.len)) {
        Ok(()) => Ok(OpenPlan::New { place }),
        Err(fault) => Err(PathFault::Errno(errno_of(fault))),
    }
}

// What is opened by the end of a walk.
fn plan_end(tree: &Tree, oflags: u32, path: &[u8], end: &End) -> Result<OpenPlan, PathFault>
    ensures { Plans path.now tree.now result (λ flags now new. model.open_end oflags flags path.now now new tree.now end.now) }
{
    match end {
        End::Found(id) => plan_node(oflags, *id, tree.node(*id)),
        End::Absent { dir, from, len } => {
            let place = NamePlace {
                dir: *dir,
                from: *from,
                len: *len,
            };
            plan_absent(tree, oflags, path, place)
        }
        End::Last { .. } => Err(PathFault::Errno(Errno::Noent)),
    }
}

/// What a call opens by the path from this open, with these flags of opening and of lookup, and what is done to the tree for
/// it, or why it opens nothing. Nothing changes yet.
pub fn plan_open(
    tree: &Tree,
    here: &OpenKind,
    oflags: u32,
    lookup_flags: u32,
    path: &[u8],
) -> Result<OpenPlan, PathFault>
    ensures { Plans path.now tree.now result
        (λ flags now new. model.open_walked oflags flags path.now now new tree.now
        (paths.walked tree.now (model.open_mode oflags lookup_flags) path.now (Some here.now))) }
{
    let end = walked(tree, open_mode(oflags, lookup_flags), path, here)?;
    plan_end(tree, oflags, path, &end)
}

// A file loses its bytes. Nothing changes where there is no such file.
fn truncate(tree: &mut Tree, node: ObjId, now: u64) -> Result<(), AllocError>
    ensures ok { OnOk result (tree.new ≡ sized tree.old node now 0) }
    ensures err { OnErr result (tree.new ≡ tree.old) }
{
    if tree.bytes(node).is_empty() {
        return Ok(());
    }
    set_size(tree, node, now, 0)
}

// An empty file is made.
fn make_file(
    alloc: Global,
    tree: &mut Tree,
    place: &NamePlace,
    path: &[u8],
    now: u64,
    new: ObjId,
) -> Result<(), AllocError>
    requires { is_absent tree.old new ≡ true }
    ensures ok { OnOk result (tree.new
        ≡ (with_node (kind.File []) now new tree.old place.now.dir (name_at path.now place.now.from place.now.len)).tree) }
    ensures err { OnErr result (tree.new ≡ tree.old) }
{
    let kind = NodeKind::File(Bytes::new(alloc));
    let Ok(_) = make_in(
        tree,
        place.dir,
        name_at(path, place.from, place.len),
        kind,
        now,
        new,
    ) else {
        return Err(AllocError);
    };
    Ok(())
}

/// Does to the tree what the plan of this path says, at this time in nanoseconds since 1970. A node that is made has the
/// number `new`. `Err` changes nothing; it comes where memory runs out, and for a plan that was made for another tree.
pub fn apply_plan(
    alloc: Global,
    tree: &mut Tree,
    plan: &OpenPlan,
    path: &[u8],
    now: u64,
    new: ObjId,
) -> Result<(), AllocError>
    requires { IsNew (new_nodes_of plan.now) tree.old new }
    ensures ok { OnOk result (tree.new ≡ (change_of plan.now path.now now new tree.old).tree) }
    ensures err { OnErr result (tree.new ≡ tree.old) }
{
    match plan {
        OpenPlan::File {
            node,
            truncates: true,
        } => truncate(tree, *node, now),
        OpenPlan::New { place } => make_file(alloc, tree, place, path, now, new),
        OpenPlan::File {
            truncates: false,
            ..
        }
        | OpenPlan::Directory { .. } => Ok(()),
    }
}
