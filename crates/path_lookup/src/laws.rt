//! Laws of walks. The statements are in `specs/Laws.antt`, and each holds of all directories, paths and modes.
ghost use Rattle.path_lookup.specs.Laws.{ReadsBelow, ClimbsOutside, ClimbsOutsideAtOnce, SlashIsOutside, EmptyIsNoEntry, DotIsNothing, WalkIsTheRelation};

/// A walk reads nothing but what is below its start: where directories differ elsewhere alone, the walk is the same.
pub fn reads_below()
    ensures { ReadsBelow }
{}

/// A `..` at the start leads outside, where the mode looks at it, and with a slash and anything behind it in each mode.
/// So does a slash at once.
pub fn start_is_not_left()
    ensures dots { ClimbsOutside }
    ensures more { ClimbsOutsideAtOnce }
    ensures slash { SlashIsOutside }
{}

/// An empty path is no entry.
pub fn empty_path_is_no_entry()
    ensures { EmptyIsNoEntry }
{}

/// A `.` that isn't last counts for a component, and changes nothing else.
pub fn dot_is_nothing()
    ensures { DotIsNothing }
{}

/// A path leads by the clauses of `specs/Relation.antt` where its walk ends, and nowhere else.
pub fn walk_is_the_relation()
    ensures { WalkIsTheRelation }
{}
