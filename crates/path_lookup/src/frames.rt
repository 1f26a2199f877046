//! The texts whose components are left: the path, and the texts of the symlinks that are being followed. And reading the next name of one.
ghost use Rattle.std.specs.Prelude.{◌≡◌, ◌≢◌, ◌≤◌, ◌<◌, ◌+◌, true, [], ◌∷◌, ◌++◌, drop, length, reverse, slice_index, slice_range, IfSome, IfNone};
ghost use Rattle.arrayvec.specs.ArrayVec.{array_vec_len};
ghost use Rattle.path_lookup.specs.Split.{names_from, names_of, is_absolute};
ghost use Rattle.path_lookup.specs.Walk.{is_last};
ghost use Rattle.path_lookup.specs.Reading.{IsFrame, AreFrames, component_of, component, components_from, next_index, names_after, name_at, rest_of, coming};

use arrayvec::ArrayVec;

/// How many texts a walk may read at once: the path, and one of each symlink that it may follow.
const MOST_TEXTS: usize = 33;

// Where a name stands in a text: how many bytes stand before it, and before its end.
#[derive(Clone, Copy)]
struct Place {
    from: usize,
    end: usize,
}

// The first place, from this one on, where no slash stands.
fn skip_slashes(text: &[u8], at: usize) -> usize
    requires { at ≤ length text.now }
    ensures from { at ≤ result }
    ensures within { result ≤ length text.now }
    ensures other { result < length text.now → slice_index text.now result ≢ 47 }
    ensures same { names_from at [] (drop at text.now) ≡ names_from result [] (drop result text.now) }
{
    let mut from = at;
    while from < text.len() && text[from] == b'/' {
        from += 1;
    }
    from
}

// The first place, from this one on, where a slash stands, or the text's end.
fn end_of_name(text: &[u8], from: usize) -> usize
    requires { from ≤ length text.now }
    ensures from { from ≤ result }
    ensures within { result ≤ length text.now }
    ensures slash { result < length text.now → slice_index text.now result ≡ 47 }
    ensures same { names_from from [] (drop from text.now) ≡ names_from from (slice_range text.now from result) (drop result text.now) }
{
    let mut end = from;
    while end < text.len() && text[end] != b'/' {
        end += 1;
    }
    end
}

// Where the next name of a text stands, from a place on. Where no name is left, this is the text's end.
fn next_place(text: &[u8], at: usize) -> Place
    requires { at ≤ length text.now }
    ensures from { at ≤ result.from }
    ensures order { result.from ≤ result.end }
    ensures within { result.end ≤ length text.now }
    ensures read { names_from at [] (drop at text.now) ≡ name_at text.now result ∷ names_after text.now result.end }
{
    let from = skip_slashes(text, at);
    Place {
        from,
        end: end_of_name(text, from),
    }
}

/// A text, some names of which are left.
#[derive(Clone, Copy, Default)]
pub(crate) struct Frame<'a> {
    text: &'a [u8],
    /// Where the next name may begin.
    at: usize,
    /// The index of the next component.
    index: u64,
    /// Whether the text is the path itself.
    is_in_path: bool,
}

/// The texts whose components are left. Those of the last come first.
pub(crate) type Frames<'a> = ArrayVec<Frame<'a>, MOST_TEXTS>;

/// A component that was read.
#[derive(Clone, Copy)]
pub(crate) struct Component<'a> {
    pub(crate) name: &'a [u8],
    /// Its index in the path. A component of a symlink's text has that of the symlink.
    pub(crate) index: u64,
    /// Whether it stands in the path itself.
    pub(crate) is_in_path: bool,
    /// How many bytes stand before it in its text.
    pub(crate) from: u64,
    /// How many bytes of its text it has.
    pub(crate) len: u64,
}

impl<'a> Frame<'a> {
    // The component whose name stands at this place.
    fn component(&self, place: Place) -> Component<'a>
        requires order { place.from ≤ place.end }
        requires within { place.end ≤ length self.now.text.now }
        ensures { component_of result ≡ component self.now.is_in_path self.now.index (name_at self.now.text.now place) }
    {
        let is_added = place.from == self.text.len();
        Component {
            name: if is_added {
                b".".as_slice()
            } else {
                &self.text[place.from..place.end]
            },
            index: self.index,
            is_in_path: self.is_in_path,
            from: place.from as u64,
            len: (place.end - place.from) as u64,
        }
    }

    // The text behind a name that ends here.
    fn behind(&self, end: usize) -> Frame<'a>
        requires frame { IsFrame self.now }
        requires order { self.now.at ≤ end }
        requires within { end < length self.now.text.now }
        ensures frame { IsFrame result }
        ensures rest { rest_of result ≡ components_from self.now.is_in_path (next_index self.now.is_in_path self.now.index)
            (names_after self.now.text.now end) }
    {
        Frame {
            text: self.text,
            at: end + 1,
            index: if self.is_in_path {
                self.index + 1
            } else {
                self.index
            },
            is_in_path: self.is_in_path,
        }
    }
}

// Takes the next component of a text, and puts back what is left of the text, if anything is.
fn take_component<'a>(frames: &mut Frames<'a>, frame: &Frame<'a>) -> Component<'a>
    requires room { array_vec_len frames.old < 33 }
    requires frame { IsFrame frame.now }
    requires frames { AreFrames (reverse frames.old.items) }
    ensures taken { rest_of frame.now ++ coming (reverse frames.old.items) ≡ component_of result ∷ coming (reverse frames.new.items) }
    ensures frames { AreFrames (reverse frames.new.items) }
    ensures room { array_vec_len frames.new ≤ array_vec_len frames.old + 1 }
{
    let place = next_place(frame.text, frame.at);
    if place.end < frame.text.len() {
        frames.push(frame.behind(place.end));
    }
    frame.component(place)
}

/// Takes the component that comes next, if there is one.
pub(crate) fn next_component<'a>(frames: &mut Frames<'a>) -> Option<Component<'a>>
    requires room { array_vec_len frames.old ≤ 33 }
    requires frames { AreFrames (reverse frames.old.items) }
    ensures some { IfSome result (λ c. coming (reverse frames.old.items) ≡ component_of c ∷ coming (reverse frames.new.items)) }
    ensures none { IfNone result (coming (reverse frames.old.items) ≡ []) }
    ensures frames { AreFrames (reverse frames.new.items) }
    ensures room { array_vec_len frames.new ≤ array_vec_len frames.old }
{
    let Some(frame) = frames.pop() else {
        return None;
    };
    Some(take_component(frames, &frame))
}

/// Puts a text's components before all others, with this index for the first.
pub(crate) fn put_text<'a>(frames: &mut Frames<'a>, text: &'a [u8], index: u64, is_in_path: bool)
    requires room { array_vec_len frames.old < 33 }
    requires index { is_in_path ≡ true → index ≡ 0 }
    requires frames { AreFrames (reverse frames.old.items) }
    ensures put { coming (reverse frames.new.items) ≡ components_from is_in_path index (names_of text.now) ++ coming (reverse frames.old.items) }
    ensures frames { AreFrames (reverse frames.new.items) }
    ensures room { array_vec_len frames.new ≤ array_vec_len frames.old + 1 }
{
    if !text.is_empty() {
        frames.push(Frame {
            text,
            at: 0,
            index,
            is_in_path,
        });
    }
}

/// Whether no component is left.
pub(crate) fn is_last(frames: &Frames<'_>) -> bool
    ensures { result ≡ is_last (coming (reverse frames.now.items)) }
{
    frames.is_empty()
}

/// Whether a text begins with a slash.
pub(crate) fn is_absolute(text: &[u8]) -> bool
    ensures { result ≡ is_absolute text.now }
{
    !text.is_empty() && text[0] == b'/'
}
