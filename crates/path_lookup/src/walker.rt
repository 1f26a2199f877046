//! One component after the other: how it is treated, and what comes of it.
ghost use Rattle.std.specs.Prelude.{◌≡◌, ◌≤◌, ◌<◌, ◌+◌, true, []};
ghost use Rattle.arrayvec.specs.ArrayVec.{array_vec_len};
ghost use Rattle.path_lookup.specs.Split.{Component as Part, names_of};
ghost use Rattle.path_lookup.specs.Walk.{Onward, is_last, climb, lack, stand, follow, meet, enter, by_finding, step, spent, follows_last, stops_before_last, treatment_of};
ghost use Rattle.path_lookup.specs.Finding.{finding};
ghost use Rattle.path_lookup.specs.Reading.{component_of, components_from, coming};
ghost use Rattle.path_lookup.specs.Walking.{IsReady, led, left_of, parents_of};

use crate::directories::{Dirs, Found};
use crate::ends::{End, WalkFault, WalkMode};
use crate::frames::{Component, Frames, is_absolute, is_last, next_component, put_text};
use abi_base::ObjId;
use arrayvec::ArrayVec;

/// How many components of a path are treated, those of symlinks' texts among them.
pub(crate) const MOST_COMPONENTS: usize = 1024;

/// How many symlinks a walk follows.
const MOST_LINKS: usize = 32;

// How many bytes a name may have.
const LONGEST_NAME: usize = 255;

// How a component is treated, by its name.
#[derive(Clone, Copy)]
enum Treatment {
    /// Its name is too long.
    Refused,
    /// It is the last, and the walk stops before it.
    Left,
    /// It is `.`.
    Dropped,
    /// It is `..`.
    Climbed,
    /// It is looked up.
    LookedUp,
}

// Whether a walk in this mode leaves the last component.
fn stops_before_last(mode: WalkMode) -> bool
    ensures { result ≡ stops_before_last mode }
{
    match mode {
        WalkMode::Follow | WalkMode::NoFollow => false,
        WalkMode::Parent => true,
    }
}

// How a component is treated, by its name and whether it is the last.
fn treatment_of(mode: WalkMode, name: &[u8], is_last: bool) -> Treatment
    ensures { result ≡ treatment_of mode name.now is_last }
{
    if name.len() > LONGEST_NAME {
        Treatment::Refused
    } else if is_last && stops_before_last(mode) {
        Treatment::Left
    } else if name == b".".as_slice() {
        Treatment::Dropped
    } else if name == b"..".as_slice() {
        Treatment::Climbed
    } else {
        Treatment::LookedUp
    }
}

/// Where a walk stands.
#[derive(Drop)]
pub(crate) struct Walker<'a> {
    /// The directory where it stands.
    top: u64,
    /// The directories above that, from the start downward.
    above: ArrayVec<u64, MOST_COMPONENTS>,
    /// The texts whose components are left.
    frames: Frames<'a>,
    /// How many more symlinks may be followed.
    links: usize,
}

/// What comes of a component: the walk goes on, or it ends.
pub(crate) enum Turn {
    On,
    Done(Result<End, WalkFault>),
}

// Whether a walk in this mode follows a symlink that is last.
fn follows_last(mode: WalkMode) -> bool
    ensures { result ≡ follows_last mode }
{
    match mode {
        WalkMode::Follow => true,
        WalkMode::NoFollow | WalkMode::Parent => false,
    }
}

impl<'a> Walker<'a> {
    /// A walk that stands at its start, before a path.
    pub(crate) fn new(start: ObjId, path: &'a [u8]) -> Walker<'a>
        ensures ready { IsReady result }
        ensures above { result.above.items ≡ [] }
        ensures top { result.top ≡ start }
        ensures links { result.links ≡ 32 }
        ensures left { left_of result ≡ components_from true 0 (names_of path.now) }
    {
        let mut frames = Frames::new();
        put_text(&mut frames, path, 0, true);
        Walker {
            top: start.0,
            above: ArrayVec::new(),
            frames,
            links: MOST_LINKS,
        }
    }

    // A `..`.
    fn climb(&mut self, index: u64) -> Turn
        requires { IsReady self.old }
        ensures led { (go : Onward) (c : Part) → c.index ≡ index
            → led go result self.new ≡ climb go self.old.links (parents_of self.old) c (left_of self.old) }
        ensures ready { IsReady self.new }
        ensures above { array_vec_len self.new.above ≤ array_vec_len self.old.above }
    {
        match self.above.pop() {
            Some(parent) => {
                self.top = parent;
                Turn::On
            }
            None => Turn::Done(Err(WalkFault::Outside(index))),
        }
    }

    // A name that isn't there.
    fn lack(&self, component: &Component<'a>) -> Result<End, WalkFault>
        ensures { result ≡ lack self.now.top (component_of component.now) (left_of self.now) }
    {
        if is_last(&self.frames) && component.is_in_path {
            Ok(End::Absent {
                dir: ObjId(self.top),
                from: component.from,
                len: component.len,
            })
        } else {
            Err(WalkFault::NoEntry)
        }
    }

    // A name of something that is not gone through.
    fn stand(&self, node: ObjId) -> Result<End, WalkFault>
        ensures { result ≡ stand node (left_of self.now) }
    {
        if is_last(&self.frames) {
            Ok(End::Found(node))
        } else {
            Err(WalkFault::NotDir)
        }
    }

    // A name of a directory.
    fn enter(&mut self, dir: ObjId) -> Turn
        requires ready { IsReady self.old }
        requires room { array_vec_len self.old.above < 1024 }
        ensures led { (go : Onward) → led go result self.new ≡ enter go self.old.links self.old.top (parents_of self.old) dir (left_of self.old) }
        ensures ready { IsReady self.new }
        ensures above { array_vec_len self.new.above ≤ array_vec_len self.old.above + 1 }
    {
        self.above.push(self.top);
        self.top = dir.0;
        Turn::On
    }

    // A symlink that is followed.
    fn follow(&mut self, index: u64, text: &'a [u8]) -> Turn
        requires { IsReady self.old }
        ensures led { (go : Onward) (c : Part) → c.index ≡ index
            → led go result self.new ≡ follow go self.old.links self.old.top (parents_of self.old) c text.now (left_of self.old) }
        ensures ready { IsReady self.new }
        ensures above { self.new.above ≡ self.old.above }
    {
        if self.links == 0 {
            return Turn::Done(Err(WalkFault::Loop));
        }
        if is_absolute(text) {
            return Turn::Done(Err(WalkFault::Outside(index)));
        }
        self.links -= 1;
        put_text(&mut self.frames, text, index, false);
        Turn::On
    }

    // A name, by what it is in the directory.
    fn meet(&mut self, found: &Found<'a>, mode: WalkMode, component: &Component<'a>) -> Turn
        requires ready { IsReady self.old }
        requires room { array_vec_len self.old.above < 1024 }
        ensures led { (go : Onward) → led go result self.new
            ≡ by_finding go mode self.old.links self.old.top (parents_of self.old) (component_of component.now) (left_of self.old) (finding found.now) }
        ensures ready { IsReady self.new }
        ensures above { array_vec_len self.new.above ≤ array_vec_len self.old.above + 1 }
    {
        match found {
            Found::Nothing => Turn::Done(self.lack(component)),
            Found::Directory(dir) => self.enter(*dir),
            Found::File(file) => Turn::Done(self.stand(*file)),
            Found::Link(link, text) => {
                if is_last(&self.frames) && !follows_last(mode) {
                    Turn::Done(self.stand(*link))
                } else {
                    self.follow(component.index, text)
                }
            }
        }
    }

    /// Treats the next component. Where none is left the walk ends where it stands.
    pub(crate) fn turn<D: Dirs>(&mut self, dirs: &'a D, mode: WalkMode) -> Turn
        requires ready { IsReady self.old }
        requires room { array_vec_len self.old.above < 1024 }
        ensures led { (go : Onward) → led go result self.new
            ≡ step (D.finds dirs.now) mode go self.old.links self.old.top (parents_of self.old) (left_of self.old) }
        ensures ready { IsReady self.new }
        ensures above { array_vec_len self.new.above ≤ array_vec_len self.old.above + 1 }
    {
        let Some(component) = next_component(&mut self.frames) else {
            return Turn::Done(Ok(End::Found(ObjId(self.top))));
        };
        match treatment_of(mode, component.name, is_last(&self.frames)) {
            Treatment::Refused => Turn::Done(Err(WalkFault::TooLong)),
            Treatment::Left => Turn::Done(Ok(End::Last {
                dir: ObjId(self.top),
                from: component.from,
                len: component.len,
            })),
            Treatment::Dropped => Turn::On,
            Treatment::Climbed => self.climb(component.index),
            Treatment::LookedUp => {
                let found = dirs.find(ObjId(self.top), component.name);
                self.meet(&found, mode, &component)
            }
        }
    }

    /// The end of the walk, where no component may be treated any more.
    pub(crate) fn spent(&self) -> Result<End, WalkFault>
        ensures { result ≡ spent self.now.top (left_of self.now) }
    {
        if is_last(&self.frames) {
            Ok(End::Found(ObjId(self.top)))
        } else {
            Err(WalkFault::TooLong)
        }
    }
}
