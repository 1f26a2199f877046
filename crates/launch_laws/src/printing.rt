//! That documents which are printed are read back, and which documents can be printed.
ghost use Rattle.launch_laws.specs.PrintingLaws.{PrintedReadsBack, ReadIsEncodable, ReadIsPrintable};

/// A document that one flow line can hold is read back from that line: texts in double quotes, integers in decimal, bytes
/// behind `!!binary`. Each line is then the first.
pub fn what_is_printed_reads_back()
    ensures { PrintedReadsBack }
{}

/// Each document that is read can be encoded, with names of tags that can stand on rows: they are UTF-8 without control
/// characters, spaces and `!`, and not empty. Keys have no tag, are no maps, sequences or bytes, and no two of a map mean the
/// same. Behind a tag with a name stands a text, a map, a sequence or nothing. Where no comma, bracket or brace is in the name of
/// a tag inside a map or a sequence, one flow line can hold the document.
pub fn what_is_read_is_printable()
    ensures encodable { ReadIsEncodable }
    ensures printable { ReadIsPrintable }
{}
