//! The signals by which a process may end.
ghost use Rattle.std.specs.Prelude.{◌≡◌};
ghost use Rattle.abi_base.specs.Signal.{number_of, name_of};

/// A signal, with CloudABI's names and this profile's numbers (docs/ABI.md).
#[derive(Clone, Copy, Debug, PartialEq, Eq)]
pub enum Signal {
    Abrt = 1,
    Alrm = 2,
    Bus = 3,
    Chld = 4,
    Cont = 5,
    Fpe = 6,
    Hup = 7,
    Ill = 8,
    Int = 9,
    Kill = 10,
    Pipe = 11,
    Quit = 12,
    Segv = 13,
    Stop = 14,
    Sys = 15,
    Term = 16,
    Trap = 17,
    Tstp = 18,
    Ttin = 19,
    Ttou = 20,
    Urg = 21,
    Usr1 = 22,
    Usr2 = 23,
    Vtalrm = 24,
    Xcpu = 25,
    Xfsz = 26,
}

impl Signal {
    /// The number that a report prints and that a parent reads.
    pub fn number(self) -> u8
        ensures { result ≡ number_of self }
    {
        self as u8
    }

    /// CloudABI's name, without its prefix `SIG`.
    pub fn name(self) -> &'static str
        ensures { result.now ≡ name_of self }
    {
        match self {
            Signal::Abrt => "ABRT",
            Signal::Alrm => "ALRM",
            Signal::Bus => "BUS",
            Signal::Chld => "CHLD",
            Signal::Cont => "CONT",
            Signal::Fpe => "FPE",
            Signal::Hup => "HUP",
            Signal::Ill => "ILL",
            Signal::Int => "INT",
            Signal::Kill => "KILL",
            Signal::Pipe => "PIPE",
            Signal::Quit => "QUIT",
            Signal::Segv => "SEGV",
            Signal::Stop => "STOP",
            Signal::Sys => "SYS",
            Signal::Term => "TERM",
            Signal::Trap => "TRAP",
            Signal::Tstp => "TSTP",
            Signal::Ttin => "TTIN",
            Signal::Ttou => "TTOU",
            Signal::Urg => "URG",
            Signal::Usr1 => "USR1",
            Signal::Usr2 => "USR2",
            Signal::Vtalrm => "VTALRM",
            Signal::Xcpu => "XCPU",
            Signal::Xfsz => "XFSZ",
        }
    }
}
