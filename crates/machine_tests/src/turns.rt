//! Instructions and turns, where no run of a guest shows what they do. The words are an assembler's, and the numbers follow from
//! the manual's rules. Where an instruction's registers aren't named, it reads a0 and a1 and writes a2, and its address is in a0.
use abi_base::{Prot, Regs, Signal};
use guest_memory::{GuestMemory, MemFault};
use rv_interp::{Cache, Outcome, Reservation, TurnEnd, step, turn, turn_is_one};
use std::alloc::Global;
use std::test::Fail;

const READ: Prot = Prot {
    read: true,
    write: false,
    exec: false,
};

const WRITE: Prot = Prot {
    read: false,
    write: true,
    exec: false,
};

const EXEC: Prot = Prot {
    read: false,
    write: false,
    exec: true,
};

const READ_WRITE: Prot = Prot {
    write: true,
    ..READ
};

const READ_EXEC: Prot = Prot { exec: true, ..READ };

const ALL: Prot = Prot {
    exec: true,
    ..READ_WRITE
};

// A page of code. No page comes after it.
const CODE: u64 = 0x10000;

// Two pages that may be read and written, then one that may be read, one that may be written and two that may be
// executed. No page comes after them.
const DATA: u64 = 0x20000;

// A page of the same code that may be read and written too.
const WRITABLE_CODE: u64 = 0x30000;

const A0: u32 = 10;

const A1: u32 = 11;

const A2: u32 = 12;

const A3: u32 = 13;

const A4: u32 = 14;

// Maps those pages.
fn map_pages(memory: &mut GuestMemory, alloc: Global) -> Result<(), MemFault> {
    memory.map(alloc, CODE, 1, READ_WRITE)?;
    memory.map(alloc, DATA, 6, READ_WRITE)?;
    memory.map(alloc, WRITABLE_CODE, 1, ALL)
}

// Gives those pages their rights.
fn protect_pages(memory: &mut GuestMemory) -> Result<(), MemFault> {
    memory.protect(CODE, 1, READ_EXEC)?;
    memory.protect(DATA + 0x2000, 1, READ)?;
    memory.protect(DATA + 0x3000, 1, WRITE)?;
    memory.protect(DATA + 0x4000, 2, EXEC)
}

// Writes the code.
fn write_code(memory: &mut GuestMemory, words: &[u32]) -> Result<(), MemFault> {
    let mut offset: u64 = 0;
    for word in words {
        let bytes = word.to_le_bytes();
        memory.write_bytes(CODE.wrapping_add(offset), &bytes)?;
        memory.write_bytes(WRITABLE_CODE.wrapping_add(offset), &bytes)?;
        offset = offset.wrapping_add(4);
    }
    Ok(())
}

// A memory of those pages, the code of which begins with these words.
fn memory_of(alloc: Global, words: &[u32]) -> Result<GuestMemory, MemFault> {
    let mut memory = GuestMemory::new(alloc);
    map_pages(&mut memory, alloc)?;
    write_code(&mut memory, words)?;
    protect_pages(&mut memory)?;
    Ok(memory)
}

// Registers with this pc and these numbers in a0, a1 and a2.
fn registers(pc: u64, [a0, a1, a2]: [u64; 3]) -> Regs {
    let mut regs = Regs::new(pc);
    regs.set(A0, a0);
    regs.set(A1, a1);
    regs.set(A2, a2);
    regs
}

// Puts this word at the beginning of the code, where it is done with these numbers in a0, a1 and a2. How it ended, and the
// registers afterwards.
fn do_word(memory: &mut GuestMemory, word: u32, a: [u64; 3]) -> Result<(Outcome, Regs), MemFault> {
    memory.protect(CODE, 1, READ_WRITE)?;
    memory.write_bytes(CODE, &word.to_le_bytes())?;
    memory.protect(CODE, 1, READ_EXEC)?;
    Ok(do_one(memory, registers(CODE, a)))
}

// Does one instruction with these registers.
fn do_one(memory: &mut GuestMemory, mut regs: Regs) -> (Outcome, Regs) {
    let outcome = step(&mut regs, memory, &mut Reservation::none());
    (outcome, regs)
}

// Words, a0, and why they can't be done. The pages are named by what may be done with them.
const TRAPS: &[(u32, u64, Signal)] = &[
    (0x0010_0073, 0, Signal::Trap), // ebreak
    (0xffff_ffff, 0, Signal::Ill),
    (0x0060_066f, 0, Signal::Bus), // jal a2, 6
    (0x0045_0567, 0x20002, Signal::Bus), // jalr a0, 4(a0)
    (0x0005_3603, 0x22ffc, Signal::Segv), // ld, read and then write
    (0x00b5_3023, 0x21ffc, Signal::Segv), // sd, read and write and then read
    (0x00b5_0023, 0x10008, Signal::Segv), // sb, read and execute
    (0x1005_362f, 0x23000, Signal::Segv), // lr.d, write
    (0x18b5_362f, 0x20104, Signal::Bus), // sc.d, misaligned
    (0x18b5_262f, 0x22000, Signal::Segv), // sc.w, read
    (0x08b5_362f, 0x20104, Signal::Bus), // amoswap.d, misaligned
    (0x08b5_262f, 0x22000, Signal::Segv), // amoswap.w, read
    (0x08b5_362f, 0x23000, Signal::Segv), // amoswap.d, write
];

// What is in memory before and after a trap.
const PLACES: &[(u64, [u8; 8])] = &[
    (0x20100, [0x11; 8]),
    (0x21ff8, [0x11; 8]),
    (0x22000, [0; 8]),
    (0x10008, [0; 8]),
];

fn is_unchanged(memory: &GuestMemory) -> Result<bool, MemFault> {
    for &(at, want) in PLACES {
        let mut bytes = [9; 8];
        memory.read_bytes(at, &mut bytes)?;
        if bytes != want {
            return Ok(false);
        }
    }
    Ok(true)
}

// Does a word with this number in a0. How it ended, the registers afterwards, and whether memory is as it was.
fn trap(memory: &mut GuestMemory, word: u32, a0: u64) -> Result<(Outcome, Regs, bool), MemFault> {
    let (outcome, regs) = do_word(memory, word, [a0, 9, 7])?;
    Ok((outcome, regs, is_unchanged(memory)?))
}

// The first row whose instruction does something else.
fn other_trap_in(memory: &mut GuestMemory) -> Result<Option<usize>, MemFault> {
    memory.write_bytes(0x20100, &[0x11; 8])?;
    memory.write_bytes(0x21ff8, &[0x11; 8])?;
    for (i, &(word, a0, signal)) in TRAPS.iter().enumerate() {
        let want = (Outcome::Trap(signal), registers(CODE, [a0, 9, 7]), true);
        if trap(memory, word, a0)? != want {
            return Ok(Some(i));
        }
    }
    Ok(None)
}

fn other_trap(alloc: Global) -> Result<Option<usize>, MemFault> {
    let mut memory = memory_of(alloc, &[])?;
    other_trap_in(&mut memory)
}

// Addresses, to most of which no jump goes, and how the instruction there ends: `addi a2, a2, 1`, where it can be fetched.
const FETCHES: &[(u64, Outcome)] = &[
    (0x10ffe, Outcome::Trap(Signal::Segv)), // read and execute, and then no page
    (0x23ffe, Outcome::Trap(Signal::Segv)), // write, and then execute
    (0x24000, Outcome::Done), // execute
    (0x24ffe, Outcome::Done), // execute, over two pages
    (0x25ffe, Outcome::Trap(Signal::Segv)), // execute, and then no page
    (0x30000, Outcome::Done), // read, write and execute
];

const ADDITION: u32 = 0x0016_0613;

// Writes `addi a2, a2, 1` to those of these addresses that are on pages that may only be executed.
fn write_additions(memory: &mut GuestMemory) -> Result<(), MemFault> {
    memory.protect(0x24000, 2, WRITE)?;
    memory.write_bytes(0x24000, &ADDITION.to_le_bytes())?;
    memory.write_bytes(0x24ffe, &ADDITION.to_le_bytes())?;
    memory.protect(0x24000, 2, EXEC)
}

// The registers after it.
fn after_fetch(pc: u64, outcome: Outcome) -> Regs {
    if outcome == Outcome::Done {
        registers(pc.wrapping_add(4), [0, 0, 8])
    } else {
        registers(pc, [0, 0, 7])
    }
}

// The first address where it ends otherwise.
fn other_fetch_in(memory: &mut GuestMemory) -> Result<Option<usize>, MemFault> {
    write_additions(memory)?;
    for (i, &(pc, outcome)) in FETCHES.iter().enumerate() {
        let want = (outcome, after_fetch(pc, outcome));
        if do_one(memory, registers(pc, [0, 0, 7])) != want {
            return Ok(Some(i));
        }
    }
    Ok(None)
}

fn other_fetch(alloc: Global) -> Result<Option<usize>, MemFault> {
    let mut memory = memory_of(alloc, &[ADDITION])?;
    other_fetch_in(&mut memory)
}

#[test]
fn traps_change_nothing(rt: HostRuntime) -> Result<(), Fail> {
    assert_eq!(rt; other_trap(rt.alloc())?, None);
    Ok(())
}

#[test]
fn instructions_are_fetched(rt: HostRuntime) -> Result<(), Fail> {
    assert_eq!(rt; other_fetch(rt.alloc())?, None);
    Ok(())
}

// A jump that passes the end of the address space: jalr a2, 2(a0).
fn jump_past_the_end(alloc: Global) -> Result<(Outcome, Regs), MemFault> {
    let mut memory = memory_of(alloc, &[])?;
    do_word(&mut memory, 0x0025_0667, [u64::MAX, 0, 7])
}

#[test]
fn jumps_wrap(rt: HostRuntime) -> Result<(), Fail> {
    let want = (Outcome::Done, registers(0, [u64::MAX, 0, CODE + 4]));
    assert_eq!(rt; jump_past_the_end(rt.alloc()), Ok(want));
    Ok(())
}

// A program, the pc and a4 at the beginning of a turn, how it ends, and the pc, a2 and a3 afterwards. At the beginning
// there is 0x30000, where the program may be written, in a0, the word of `addi a2, a2, 16` in a1, and 0 in a2 and a3.
struct Program {
    words: [u32; 5],
    start: u64,
    a4: u64,
    end: TurnEnd,
    pc: u64,
    a2: u64,
    a3: u64,
}

const PROGRAMS: &[Program] = &[
    // addi a2, a2, 1; ecall
    Program {
        words: [0x0016_0613, 0x73, 0, 0, 0],
        start: 0x10000,
        a4: 0,
        end: TurnEnd::Ecall,
        pc: 0x10004,
        a2: 1,
        a3: 0,
    },
    // addi a2, a2, 1; lw a2, 0(zero)
    Program {
        words: [0x0016_0613, 0x0000_2603, 0, 0, 0],
        start: 0x10000,
        a4: 0,
        end: TurnEnd::Trap(Signal::Segv),
        pc: 0x10004,
        a2: 1,
        a3: 0,
    },
    // jal zero, 0
    Program {
        words: [0x6f, 0, 0, 0, 0],
        start: 0x10000,
        a4: 0,
        end: TurnEnd::Quantum,
        pc: 0x10000,
        a2: 0,
        a3: 0,
    },
    // 4096 instructions in front of ecall: addi a4, a4, -1; bne a4, zero, -4
    Program {
        words: [0xfff7_0713, 0xfe07_1ee3, 0x73, 0, 0],
        start: 0x10000,
        a4: 2048,
        end: TurnEnd::Quantum,
        pc: 0x10008,
        a2: 0,
        a3: 0,
    },
    // 4095 in front of it: the same; addi a2, a2, 1
    Program {
        words: [0xfff7_0713, 0xfe07_1ee3, 0x0016_0613, 0x73, 0],
        start: 0x10000,
        a4: 2047,
        end: TurnEnd::Ecall,
        pc: 0x1000c,
        a2: 1,
        a3: 0,
    },
    // 4096: the same; addi a2, a2, 1; addi a2, a2, 1
    Program {
        words: [0xfff7_0713, 0xfe07_1ee3, 0x0016_0613, 0x0016_0613, 0x73],
        start: 0x10000,
        a4: 2047,
        end: TurnEnd::Quantum,
        pc: 0x10010,
        a2: 2,
        a3: 0,
    },
    // 4096 and more: the same
    Program {
        words: [0xfff7_0713, 0xfe07_1ee3, 0x73, 0, 0],
        start: 0x10000,
        a4: 2049,
        end: TurnEnd::Quantum,
        pc: 0x10000,
        a2: 0,
        a3: 0,
    },
    // The next instruction is written: sw a1, 4(a0); addi a2, a2, 1; ecall
    Program {
        words: [0x00b5_2223, 0x0016_0613, 0x73, 0, 0],
        start: 0x30000,
        a4: 0,
        end: TurnEnd::Ecall,
        pc: 0x30008,
        a2: 16,
        a3: 0,
    },
    // One that was done is written: addi a2, a2, 1; sw a1, 0(a0); addi a3, a3, 1; blt a3, a4, -12; ecall
    Program {
        words: [0x0016_0613, 0x00b5_2023, 0x0016_8693, 0xfee6_cae3, 0x73],
        start: 0x30000,
        a4: 2,
        end: TurnEnd::Ecall,
        pc: 0x30010,
        a2: 17,
        a3: 2,
    },
    // the same where another page is written
    Program {
        words: [0x0016_0613, 0x00b5_2023, 0x0016_8693, 0xfee6_cae3, 0x73],
        start: 0x10000,
        a4: 2,
        end: TurnEnd::Ecall,
        pc: 0x10010,
        a2: 2,
        a3: 2,
    },
];

// Does a turn with no instruction kept before. How it ended, and the pc, a2 and a3 afterwards.
fn do_turn(
    alloc: Global,
    memory: &mut GuestMemory,
    regs: &mut Regs,
) -> Result<(TurnEnd, [u64; 3]), MemFault> {
    let Ok(mut cache) = Cache::new(alloc) else {
        return Err(MemFault::NoMemory);
    };
    let end = turn(regs, memory, &mut cache);
    Ok((end, [regs.pc(), regs.get(A2), regs.get(A3)]))
}

// Does a turn of a program.
fn run(alloc: Global, program: &Program) -> Result<(TurnEnd, [u64; 3]), MemFault> {
    let mut memory = memory_of(alloc, &program.words)?;
    let mut regs = registers(program.start, [WRITABLE_CODE, 0x0106_0613, 0]);
    regs.set(A4, program.a4);
    do_turn(alloc, &mut memory, &mut regs)
}

// The first program whose turn ends otherwise.
fn other_turn(alloc: Global) -> Result<Option<usize>, MemFault> {
    for (i, program) in PROGRAMS.iter().enumerate() {
        let want = (program.end, [program.pc, program.a2, program.a3]);
        if run(alloc, program)? != want {
            return Ok(Some(i));
        }
    }
    Ok(None)
}

#[test]
fn turns_end(rt: HostRuntime) -> Result<(), Fail> {
    turn_is_one();
    assert_eq!(rt; other_turn(rt.alloc())?, None);
    Ok(())
}

// A memory with two pieces of code.
fn memory_with_far_code(alloc: Global) -> Result<GuestMemory, MemFault> {
    // Instructions 1024 bytes apart in turn: addi a2, a2, 1; jal zero, 1020
    let mut words = [0; 260];
    words[0] = 0x0016_0613;
    words[1] = 0x3fc0_006f;
    // addi a2, a2, 16; addi a4, a4, -1; bne a4, zero, -1032; ecall
    words[256] = 0x0106_0613;
    words[257] = 0xfff7_0713;
    words[258] = 0xbe07_1ce3;
    words[259] = 0x73;
    memory_of(alloc, &words)
}

// Writes other code over its beginning: addi a2, a2, 16; ecall.
fn write_over(memory: &mut GuestMemory) -> Result<(), MemFault> {
    memory.protect(CODE, 1, READ_WRITE)?;
    memory.write_bytes(CODE, &[0x13, 0x06, 0x06, 0x01, 0x73, 0, 0, 0])?;
    memory.protect(CODE, 1, READ_EXEC)
}

// A turn of that code, three times over, and one before which the host writes the page and the instructions that were kept are
// forgotten.
fn two_turns(alloc: Global) -> Result<[(TurnEnd, [u64; 3]); 2], MemFault> {
    let mut memory = memory_with_far_code(alloc)?;
    let mut regs = registers(CODE, [0, 0, 0]);
    regs.set(A4, 3);
    let Ok(mut cache) = Cache::new(alloc) else {
        return Err(MemFault::NoMemory);
    };
    let end = turn(&mut regs, &mut memory, &mut cache);
    let first = (end, [regs.pc(), regs.get(A2), regs.get(A3)]);
    write_over(&mut memory)?;
    cache.forget();
    regs.set_pc(CODE);
    let end = turn(&mut regs, &mut memory, &mut cache);
    Ok([first, (end, [regs.pc(), regs.get(A2), regs.get(A3)])])
}

// How many additions of 1 to a2 the program has in a row that runs for several turns: addi a2, a2, 1.
const LONG_CODE: usize = 8000;

// Writes words one behind another.
fn write_words(memory: &mut GuestMemory, start: u64, words: &[u32]) -> Result<(), MemFault> {
    let mut at = start;
    for word in words {
        memory.write_bytes(at, &word.to_le_bytes())?;
        at = at.wrapping_add(4);
    }
    Ok(())
}

// A memory with those additions, and behind them: addi a4, a4, -1; beq a4, zero, 8; jalr zero, 0(a0); ecall.
fn memory_with_long_code(alloc: Global) -> Result<GuestMemory, MemFault> {
    let mut memory = GuestMemory::new(alloc);
    memory.map(alloc, CODE, 16, READ_WRITE)?;
    write_words(&mut memory, CODE, &[0x0016_0613; LONG_CODE])?;
    let behind = CODE + 4 * LONG_CODE as u64;
    write_words(
        &mut memory,
        behind,
        &[0xfff7_0713, 0x0007_0463, 0x0005_0067, 0x73],
    )?;
    memory.protect(CODE, 16, READ_EXEC)?;
    Ok(memory)
}

// Turns of that program with the instructions kept, until it stands at the ECALL: a loop of more than one turn, whose code takes
// more than the slots that there are at first. The pc, a2 and a3 afterwards, and how many turns came before the last.
fn kept_turns(alloc: Global) -> Result<(TurnEnd, [u64; 3], u32), MemFault> {
    let mut memory = memory_with_long_code(alloc)?;
    let mut regs = registers(CODE, [CODE, 0, 0]);
    regs.set(A4, 5);
    let Ok(mut cache) = Cache::new(alloc) else {
        return Err(MemFault::NoMemory);
    };
    for turns in 0..100_u32 {
        let end = turn(&mut regs, &mut memory, &mut cache);
        if end != TurnEnd::Quantum {
            return Ok((end, [regs.pc(), regs.get(A2), regs.get(A3)], turns));
        }
    }
    Ok((TurnEnd::Quantum, [0; 3], 100))
}

#[test]
fn instructions_are_kept_over_turns(rt: HostRuntime) -> Result<(), Fail> {
    // 5 times 8000 additions and the 3 instructions behind them, but for the last jump, are 40,014: 9 turns and 3150 more.
    let want = (TurnEnd::Ecall, [CODE + 4 * 8003, 40_000, 0], 9);
    assert_eq!(rt; kept_turns(rt.alloc()), Ok(want));
    Ok(())
}

#[test]
fn instructions_are_those_in_memory(rt: HostRuntime) -> Result<(), Fail> {
    let want = [
        (TurnEnd::Ecall, [CODE + 0x40c, 51, 0]),
        (TurnEnd::Ecall, [CODE + 4, 67, 0]),
    ];
    assert_eq!(rt; two_turns(rt.alloc()), Ok(want));
    Ok(())
}
