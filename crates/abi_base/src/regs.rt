//! The registers of a guest thread.
ghost use Rattle.std.specs.Prelude.{◌≡◌, ◌<◌, slice_index};
ghost use Rattle.abi_base.specs.Registers.{Registers, start_registers, with_pc, with_x};

use std::marker::Model;

/// The pc and the 32 registers x0 to x31 of 64 bits, of which x0 is always 0 (RISC-V unprivileged manual, RV64I).
#[derive(Clone, Copy, Debug, PartialEq, Eq)]
pub struct Regs {
    pc: u64,
    x: [u64; 32],
}

impl Model for Regs {
    ghost use Rattle.std.specs.Prelude.{◌≡◌, slice_index};
    ghost use Rattle.abi_base.specs.Registers.{Registers};

    ghost Value = { Registers };

    ghost view = { λ r. record { pc = r.pc; x = r.x } };

    ghost invariant = { λ r. slice_index r.x 0 ≡ 0 };

    ghost inverse = { λ v. record { pc = v.pc; x = v.x } };
}

impl Regs {
    /// The pc given, and 0 in every register.
    pub fn new(pc: u64) -> Self
        ensures { result ≡ start_registers pc }
    {
        Regs { pc, x: [0; 32] }
    }

    /// The address of the instruction that is next.
    pub fn pc(&self) -> u64
        ensures { result ≡ self.now.pc }
    {
        self.pc
    }

    /// Goes on at this address.
    pub fn set_pc(&mut self, pc: u64)
        ensures { self.new ≡ with_pc self.old pc }
    {
        self.pc = pc;
    }

    /// What register `r` has; x0 has 0.
    pub fn get(&self, r: u32) -> u64
        requires { r < 32 }
        ensures { result ≡ slice_index self.now.x r }
    {
        self.x[r as usize]
    }

    /// Writes register `r`; x0 stays 0.
    pub fn set(&mut self, r: u32, value: u64)
        requires { r < 32 }
        ensures { self.new ≡ with_x self.old r value }
    {
        if r != 0 {
            self.x[r as usize] = value;
        }
    }
}
