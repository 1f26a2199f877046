//! Whole reads and writes over each source and sink in memory.
ghost use Rattle.std.specs.Prelude.{⊤};
ghost use Rattle.input_output.specs.Source.{Unknown};

use input_output::{
    Failed, MemSink, MemSource, ReadFault, Sink, Source, SteadySink, SteadySource, read_whole,
    write_whole,
};
use lists::Stop;
use std::alloc::{AllocError, Global};
use std::test::Fail;

// Names that are read one after another, of which the first read fails, and how many bytes each has.
const READS: &[(&str, Result<usize, ReadFault>)] = &[
    ("a", Err(ReadFault::Failed)),
    ("a", Ok(3)),
    ("long", Ok(5000)),
    ("none", Err(ReadFault::Failed)),
];

const STEADY_READS: &[(&str, Result<usize, ReadFault>)] = &[("a", Ok(3)), ("none", Ok(0))];

// How many bytes an input has, and how many are read of it.
const LIMITS: &[(usize, Result<usize, ReadFault>)] = &[
    (268_435_456, Ok(268_435_456)),
    (268_435_457, Err(ReadFault::TooLong)),
];

// A text of 83 bytes, of which neighbours differ.
const TEXT: &[u8] =
    b"0123456789abcdefghijklmnopqrstuvwxyzABCDEFGHIJKLMNOPQRSTUVWXYZ.,0123456789abcdefghi";

// Inputs of which the first read fails.
fn failing_source(alloc: Global) -> Result<MemSource, AllocError> {
    let mut source = MemSource::new(alloc, vec![in alloc; 0u64]?);
    source.add("a", b"abc")?;
    let long = vec![in alloc; 7u8; 5000]?;
    source.add("long", &long)?;
    Ok(source)
}

fn steady_source(alloc: Global) -> Result<SteadySource, AllocError> {
    let mut source = SteadySource::new(alloc);
    source.add("a", b"abc")?;
    Ok(source)
}

// An output of which the second write fails.
fn failing_sink(alloc: Global) -> Result<MemSink, AllocError> {
    Ok(MemSink::new(alloc, vec![in alloc; 1u64]?))
}

// So many bytes under any name, of which it shows nothing, read in order.
#[derive(Drop)]
struct Silent {
    left: usize,
}

impl Source for Silent {
    ghost content = { λ s name. Unknown };

    ghost may_read = { λ s name. ⊤ };

    ghost faults = { λ s. 0 };

    fn read_at(&mut self, _name: &str, _at: u64, buf: &mut [u8]) -> Result<usize, Failed> {
        let count = buf.len().min(self.left);
        self.left -= count;
        Ok(count)
    }
}

// How many bytes were read, or the fault; nothing where memory ran out.
fn read_length<S: Source>(
    alloc: Global,
    source: &mut S,
    name: &str,
) -> Option<Result<usize, ReadFault>>
    requires { S.may_read source.old name.now }
{
    match read_whole(alloc, source, name) {
        Ok(bytes) => Some(Ok(bytes.len())),
        Err(Stop::At(fault)) => Some(Err(fault)),
        Err(Stop::Memory) => None,
    }
}

#[test]
fn reads_whole_inputs(rt: HostRuntime) -> Result<(), Fail> {
    let mut source = failing_source(rt.alloc())?;
    for (name, want) in READS {
        assert_eq!(rt;
            read_length(rt.alloc(), &mut source, name),
            Some(*want),
            "{name}"
        );
    }
    Ok(())
}

#[test]
fn reads_steadily(rt: HostRuntime) -> Result<(), Fail> {
    let mut source = steady_source(rt.alloc())?;
    for (name, want) in STEADY_READS {
        assert_eq!(rt;
            read_length(rt.alloc(), &mut source, name),
            Some(*want),
            "{name}"
        );
    }
    Ok(())
}

#[test]
fn limits_inputs(rt: HostRuntime) {
    for (left, want) in LIMITS {
        let mut source = Silent { left: *left };
        assert_eq!(rt;
            read_length(rt.alloc(), &mut source, "any"),
            Some(*want),
            "{left}"
        );
    }
}

#[test]
fn writes_whole_outputs(rt: HostRuntime) -> Result<(), Fail> {
    let mut sink = failing_sink(rt.alloc())?;
    let written = write_whole(&mut sink, TEXT);
    assert_eq!(rt; (written, sink.bytes()), (Err(Failed), &TEXT[..64]));
    Ok(())
}

#[test]
fn writes_steadily(rt: HostRuntime) -> Result<(), Fail> {
    let mut sink = SteadySink::new(rt.alloc(), 4)?;
    let written = write_whole(&mut sink, b"abcdef");
    assert_eq!(rt; (written, sink.bytes()), (Ok(()), b"abcd".as_slice()));
    Ok(())
}
