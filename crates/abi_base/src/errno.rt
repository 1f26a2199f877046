//! The errors that a call may answer.
ghost use Rattle.std.specs.Prelude.{◌≡◌};
ghost use Rattle.abi_base.specs.Errno.{number_of, name_of};

/// An error of a call, with CloudABI's names and this profile's numbers (docs/ABI.md). `Success` is no error.
#[derive(Clone, Copy, Debug, PartialEq, Eq)]
pub enum Errno {
    Success = 0,
    TooBig = 1,
    Again = 6,
    Badf = 8,
    Deadlk = 16,
    Exist = 20,
    Fault = 21,
    Fbig = 22,
    Ilseq = 25,
    Inval = 28,
    Isdir = 31,
    Loop = 32,
    Mfile = 33,
    Mlink = 34,
    MsgSize = 35,
    NameTooLong = 37,
    Nobufs = 42,
    Noent = 44,
    Noexec = 45,
    Nomem = 48,
    Nosys = 52,
    Notdir = 54,
    Notempty = 55,
    Notsock = 57,
    Notsup = 58,
    Perm = 63,
    Pipe = 64,
    TimedOut = 73,
    Notcapable = 76,
}

impl Errno {
    /// The number that a guest sees in its register.
    pub fn number(self) -> u16
        ensures { result ≡ number_of self }
    {
        self as u16
    }

    /// CloudABI's name, without its prefix `E`.
    pub fn name(self) -> &'static str
        ensures { result.now ≡ name_of self }
    {
        match self {
            Errno::Success => "SUCCESS",
            Errno::TooBig => "2BIG",
            Errno::Again => "AGAIN",
            Errno::Badf => "BADF",
            Errno::Deadlk => "DEADLK",
            Errno::Exist => "EXIST",
            Errno::Fault => "FAULT",
            Errno::Fbig => "FBIG",
            Errno::Ilseq => "ILSEQ",
            Errno::Inval => "INVAL",
            Errno::Isdir => "ISDIR",
            Errno::Loop => "LOOP",
            Errno::Mfile => "MFILE",
            Errno::Mlink => "MLINK",
            Errno::MsgSize => "MSGSIZE",
            Errno::NameTooLong => "NAMETOOLONG",
            Errno::Nobufs => "NOBUFS",
            Errno::Noent => "NOENT",
            Errno::Noexec => "NOEXEC",
            Errno::Nomem => "NOMEM",
            Errno::Nosys => "NOSYS",
            Errno::Notdir => "NOTDIR",
            Errno::Notempty => "NOTEMPTY",
            Errno::Notsock => "NOTSOCK",
            Errno::Notsup => "NOTSUP",
            Errno::Perm => "PERM",
            Errno::Pipe => "PIPE",
            Errno::TimedOut => "TIMEDOUT",
            Errno::Notcapable => "NOTCAPABLE",
        }
    }
}
