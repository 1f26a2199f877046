//! What a thread waits for, and what is reported to it.
ghost use Rattle.std.specs.Prelude.{◌≡◌, MatchOption};
ghost use Rattle.abi_structures.specs.Events.{IsOfNoType, number_of, type_of};

/// The type of an event, with this profile's numbers (docs/ABI.md).
#[derive(Clone, Copy)]
pub enum EventType {
    Clock = 1,
    Condvar = 2,
    FdRead = 3,
    FdWrite = 4,
    LockRdlock = 5,
    LockWrlock = 6,
    ProcTerminate = 7,
}

/// What one subscription waits for. A lock or a condition variable has its address, the word that was read there, and
/// its scope.
#[derive(Clone, Copy, PartialEq, Eq)]
pub enum What {
    /// A time of a clock.
    Clock {
        clock: u32,
        timeout: u64,
        precision: u64,
        flags: u16,
    },
    /// A signal of a condition variable, with the lock that is taken afterwards.
    Condvar {
        condvar: u64,
        condvar_word: u32,
        lock: u64,
        lock_word: u32,
        condvar_scope: u8,
        lock_scope: u8,
    },
    /// Bytes to read from a descriptor.
    FdRead {
        fd: u32,
    },
    /// Room to write to a descriptor.
    FdWrite {
        fd: u32,
    },
    /// A lock, taken for reading.
    LockRdlock {
        lock: u64,
        word: u32,
        scope: u8,
    },
    /// A lock, taken for writing.
    LockWrlock {
        lock: u64,
        word: u32,
        scope: u8,
    },
    /// The end of a process.
    ProcTerminate {
        fd: u32,
    },
}

/// One thing that a thread waits for, and the number that its event gives back.
#[derive(Clone, Copy, PartialEq, Eq)]
pub struct Subscription {
    pub userdata: u64,
    pub what: What,
}

/// What happened to one subscription. A field that its kind lacks is 0.
#[derive(Clone, Copy, PartialEq, Eq)]
pub struct Event {
    pub userdata: u64,
    pub error: u16,
    pub kind: u8,
    pub nbytes: u64,
    pub flags: u16,
    pub signal: u8,
    pub code: u32,
}

impl EventType {
    /// The number that a program sees.
    pub fn number(self) -> u8
        ensures { result ≡ number_of self }
    {
        self as u8
    }

    /// The type of this number. `None` exactly for a number that is no type's.
    pub fn from_number(number: u8) -> Option<EventType>
        ensures { MatchOption result (IsOfNoType number) (λ found. number_of found ≡ number) }
    {
        match number {
            1 => Some(EventType::Clock),
            2 => Some(EventType::Condvar),
            3 => Some(EventType::FdRead),
            4 => Some(EventType::FdWrite),
            5 => Some(EventType::LockRdlock),
            6 => Some(EventType::LockWrlock),
            7 => Some(EventType::ProcTerminate),
            _ => None,
        }
    }
}

impl What {
    /// The type of the event that is waited for.
    pub fn event_type(&self) -> EventType
        ensures { result ≡ type_of self.now }
    {
        match self {
            What::Clock { .. } => EventType::Clock,
            What::Condvar { .. } => EventType::Condvar,
            What::FdRead { .. } => EventType::FdRead,
            What::FdWrite { .. } => EventType::FdWrite,
            What::LockRdlock { .. } => EventType::LockRdlock,
            What::LockWrlock { .. } => EventType::LockWrlock,
            What::ProcTerminate { .. } => EventType::ProcTerminate,
        }
    }
}
