//! Tests of what reads and writes bytes and texts, and of file trees, where the built command can't show it: argument data, ELF files,
//! structures, words, launch texts, inputs and outputs that fail, and lists of blocks.
#![tactic(auto)]

#[cfg(test)]
mod argdata;
#[cfg(test)]
mod blocks;
#[cfg(test)]
mod elf;
#[cfg(test)]
mod events;
#[cfg(test)]
mod launch_texts;
#[cfg(test)]
mod outputs_and_inputs;
#[cfg(test)]
mod settings;
#[cfg(test)]
mod structures;
#[cfg(test)]
mod trees;
