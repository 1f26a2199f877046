//! Laws of what texts mean. The functions do nothing.
ghost use Rattle.launch_laws.specs.Laws.{LinesAreReported, MarkChangesNothing, ReturnsChangeNothing, EmptyLinesAreNoRows, EmptyLinesChangeNumbers, FaultsStay, TagRowChangesTheTag};

/// U+FEFF before a text, and a carriage return before each line feed, change nothing: neither the document that a text is nor
/// its first fault.
pub fn marks_and_returns_change_nothing()
    ensures mark { MarkChangesNothing }
    ensures returns { ReturnsChangeNothing }
{}

/// A character that may stand in no text, and a tab in indentation, are found from the lines alone: a text with one is no
/// document, and its fault is the first of those, or one that comes before it.
pub fn faults_of_lines_are_reported()
    ensures { LinesAreReported }
{}

/// A line that is blank or has only a comment, in which each character may stand in a text, is no row. Behind another line it
/// changes nothing of the document or of the fault but the numbers of the lines behind it.
pub fn empty_lines_change_numbers()
    ensures rows { EmptyLinesAreNoRows }
    ensures numbers { EmptyLinesChangeNumbers }
{}

/// A line with nothing but a tag, before a root that is a block map or a block sequence, changes the tag of the root and nothing
/// else: neither what stands in the root, nor where it ends, nor which fault is reported.
pub fn tag_lines_change_the_tag()
    ensures { TagRowChangesTheTag }
{}

/// A line feed behind a text at fault, and anything behind that, leave the fault that is reported for it, with its line, its
/// column and its kind. The text doesn't end with a carriage return, and the fault isn't reported for what is missing at the
/// text's end: the scalar behind a `!!binary` that ends the last row, or the `---` behind the `%TAG` line.
pub fn faults_stay()
    ensures { FaultsStay }
{}
