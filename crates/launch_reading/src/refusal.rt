//! Why a run did not begin, with the status and the line of each refusal.
ghost use Rattle.std.specs.Prelude.{◌≡◌, ◌≤◌, ◌++◌, OnOk, OnErr};
ghost use Rattle.input_output.specs.Source.{Rose};
ghost use Rattle.input_output.specs.Sink.{grown, GrewByPrefix};
ghost use Rattle.launch_reading.specs.Refusal.{line_of, status_of, fault_name, kind_ending, launch_front, launch_ending, front_of, name_of, number_of, back_of};

use crate::launch_text::LaunchFault;
use elf_image::ElfFault;
use input_output::{Failed, Sink, write_whole};
use itoa::Buffer;
use launch_plan::PlanFault;
use launch_yaml::YamlKind;

// The name of a fault of a program's file, with a space behind it where a number follows.
fn fault_name(fault: ElfFault) -> &'static str
    ensures { result.now ≡ fault_name fault }
{
    match fault {
        ElfFault::TooShort => "TooShort",
        ElfFault::Magic => "Magic",
        ElfFault::Class => "Class",
        ElfFault::Machine => "Machine",
        ElfFault::Kind => "Kind",
        ElfFault::Header => "Header",
        ElfFault::Interp => "Interp",
        ElfFault::Compressed => "Compressed",
        ElfFault::FloatAbi => "FloatAbi",
        ElfFault::Segment(_) => "Segment ",
        ElfFault::Overlap(_) => "Overlap ",
        ElfFault::Entry => "Entry",
    }
}

// What stands behind the line's number for a fault of a launch file.
fn kind_ending(kind: YamlKind) -> &'static str
    ensures { result.now ≡ kind_ending kind }
{
    match kind {
        YamlKind::Indent => ": Indent\n",
        YamlKind::Tab => ": Tab\n",
        YamlKind::Quote => ": Quote\n",
        YamlKind::Escape => ": Escape\n",
        YamlKind::Flow => ": Flow\n",
        YamlKind::Tag => ": Tag\n",
        YamlKind::DuplicateKey => ": DuplicateKey\n",
        YamlKind::Anchor => ": Anchor\n",
        YamlKind::BlockScalar => ": BlockScalar\n",
        YamlKind::Float => ": Float\n",
        YamlKind::IntegerRange => ": IntegerRange\n",
        YamlKind::End => ": End\n",
        YamlKind::Depth => ": Depth\n",
        YamlKind::Character => ": Character\n",
        YamlKind::Base64 => ": Base64\n",
    }
}

// The line's text before the number.
fn launch_front(fault: LaunchFault) -> &'static str
    ensures { result.now ≡ launch_front fault }
{
    if fault.line().is_some() {
        "launch: line "
    } else {
        "launch: "
    }
}

// The line's text after the number.
fn launch_ending(fault: LaunchFault) -> &'static str
    ensures { result.now ≡ launch_ending fault }
{
    match fault {
        LaunchFault::Yaml(fault) => kind_ending(fault.kind),
        LaunchFault::Plan(PlanFault::UnknownTag(_)) => ": UnknownTag\n",
        LaunchFault::Plan(PlanFault::BadFd(_)) => ": BadFd\n",
        LaunchFault::Plan(PlanFault::BadFile(_)) => ": BadFile\n",
        LaunchFault::Plan(PlanFault::UnknownRight(_)) => ": UnknownRight\n",
        LaunchFault::Plan(PlanFault::NoSuchPath(_)) => ": NoSuchPath\n",
        LaunchFault::Plan(PlanFault::TooMany) => "too many\n",
        LaunchFault::Plan(PlanFault::TooLarge) => "too large\n",
    }
}

/// Why a run did not begin.
#[derive(Clone, Copy)]
pub enum LaunchRefusal<'a> {
    /// The words are not in the grammar.
    Words,
    /// The input of this name could not be read.
    Input(&'a str),
    /// The input of this name has more bytes than an input may have.
    TooLong(&'a str),
    /// The program's file has this fault.
    Program(ElfFault),
    /// The first faulty record of the tree document begins at this byte.
    Tree(u64),
    /// The launch text has this fault.
    LaunchText(LaunchFault),
    /// Memory ran out.
    Memory,
}

impl<'a> LaunchRefusal<'a> {
    /// The exit status: 2, 65, 66, 67, 68 or 70.
    pub fn status(&self) -> u8
        ensures { result ≡ status_of self.now }
    {
        match self {
            LaunchRefusal::Words => 2,
            LaunchRefusal::Input(_) | LaunchRefusal::TooLong(_) => 66,
            LaunchRefusal::Program(_) => 67,
            LaunchRefusal::Tree(_) => 68,
            LaunchRefusal::LaunchText(_) => 65,
            LaunchRefusal::Memory => 70,
        }
    }

    // The line's text before the name.
    fn front(&self) -> &str
        ensures { result.now ≡ front_of self.now }
    {
        match self {
            LaunchRefusal::Words => "words: refused",
            LaunchRefusal::Input(_) | LaunchRefusal::TooLong(_) => "input: ",
            LaunchRefusal::Program(_) => "program: ",
            LaunchRefusal::Tree(_) => "tree: byte ",
            LaunchRefusal::LaunchText(fault) => launch_front(*fault),
            LaunchRefusal::Memory => "memory",
        }
    }

    // The name in the line.
    fn name(&self) -> &str
        ensures { result.now ≡ name_of self.now }
    {
        match self {
            LaunchRefusal::Input(name) | LaunchRefusal::TooLong(name) => name,
            LaunchRefusal::Program(fault) => fault_name(*fault),
            _ => "",
        }
    }

    // The number in the line, in decimal.
    fn number<'b>(&self, buffer: &'b mut Buffer) -> &'b str
        ensures { result.now ≡ number_of self.now }
    {
        match self {
            LaunchRefusal::Program(ElfFault::Segment(header) | ElfFault::Overlap(header)) => {
                buffer.format(*header)
            }
            LaunchRefusal::Tree(byte) => buffer.format(*byte),
            LaunchRefusal::LaunchText(fault) => match fault.line() {
                Some(line) => buffer.format(line),
                None => "",
            },
            _ => "",
        }
    }

    // The line's text after the name, with the line feed.
    fn back(&self) -> &str
        ensures { result.now ≡ back_of self.now }
    {
        match self {
            LaunchRefusal::TooLong(_) => " too long\n",
            LaunchRefusal::LaunchText(fault) => launch_ending(*fault),
            _ => "\n",
        }
    }

    /// Writes the line, with its line feed. It takes no memory. After `Failed` a prefix of the line was written.
    pub fn write_line<K: Sink>(&self, sink: &mut K) -> Result<(), Failed>
        ensures faults_never_fall { K.faults sink.old ≤ K.faults sink.new }
        ensures ok { OnOk result (K.written sink.new ≡ grown (K.written sink.old) (line_of self.now)) }
        ensures failed { OnErr result (Rose (K.faults sink.old) (K.faults sink.new)) }
        ensures failed_prefix { OnErr result (GrewByPrefix (K.written sink.old) (K.written sink.new) (line_of self.now)) }
    {
        write_whole(sink, self.front().as_bytes())?;
        write_whole(sink, self.name().as_bytes())?;
        write_whole(sink, self.number(&mut Buffer::new()).as_bytes())?;
        write_whole(sink, self.back().as_bytes())
    }
}
