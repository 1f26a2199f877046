//! Tests of the machine where the built command can't show it: memory, instructions, turns, the assembler and the ELF files that it
//! writes, and calls that registers and memory encode.
#![tactic(auto)]

#[cfg(test)]
mod assembler;
#[cfg(test)]
mod calls;
#[cfg(test)]
mod elf_files;
#[cfg(test)]
mod instructions;
#[cfg(test)]
mod memory;
#[cfg(test)]
mod turns;
