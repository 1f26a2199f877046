//! Laws of where opens lead and of what they are. The statements are in `specs/OpenLaws.antt` and `specs/OpenConditions.antt`.
ghost use Rattle.kernel_model.specs.OpenConditions.{OpenIsListed};
ghost use Rattle.kernel_model.specs.OpenLaws.{EndsKeepOpens, GrantsAreHeld, OpensLeadBelow, OpensStayOfWhatTheyAre};

/// What `file_open` opens is below the directory where its path begins, or is the new file, which is made there. What a launch
/// grants is the stream or the node that the grant is of, with its rights, under its number.
pub fn opens_lead_below()
    ensures opens { OpensLeadBelow }
    ensures grants { GrantsAreHeld }
{}

/// What `file_open` comes to where its path ends is listed case by case, with the conditions of each error, and nothing else is
/// listed.
pub fn open_is_listed()
    ensures { OpenIsListed }
{}

/// An open stays of what it is of: one that is there before and after a call, or the end of a process from outside, is after it of
/// the same file, directory, standard stream, channels or process as before. Only its offset and its flags may be others.
pub fn opens_stay_of_what_they_are()
    ensures step { OpensStayOfWhatTheyAre }
    ensures end { EndsKeepOpens }
{}
