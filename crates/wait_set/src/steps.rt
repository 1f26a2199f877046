//! A count of tests that contracts see, and who makes them.
ghost use Rattle.std.specs.Prelude.{◌≡◌, ◌+◌, ◌<◌, ℕ, Bool};

use std::marker::Model;
use std::sync::ledger::{Blank, Book, Ledger, Share};

/// How many tests there were. It is there for contracts alone: it takes no bytes, and `tick` does nothing at run time.
#[derive(Drop)]
pub struct Steps<L: Ledger> {
    book: Book<L>,
    share: Share<L>,
}

impl<L: Ledger> Model for Steps<L> {
    ghost use Rattle.std.specs.Prelude.{ℕ, ◌<◌};
    ghost use Rattle.std.specs.Coded.{coded_ℕ};

    ghost Value = { ℕ };

    ghost coded = { coded_ℕ };

    ghost view = { λ a. a.share.amount };

    ghost invariant = { λ a. 0 < a.share.parts };
}

impl<L: Ledger> Steps<L> {
    /// No test yet.
    pub fn new(blank: Blank) -> Self
        requires name { blank.name ≡ L.name }
        requires parts { blank.parts ≡ L.parts }
        requires some { 0 < blank.parts }
        ensures { result ≡ 0 }
    {
        let (book, share) = blank.open::<L>();
        Steps { book, share }
    }

    /// One more test.
    pub fn tick(&mut self)
        ensures { self.new ≡ self.old + 1 }
    {
        let Steps { book, share } = self;
        book.add(share, 1);
    }
}

/// What a thread's readiness hangs on.
pub trait Parts {
    ghost ready: { Self → ℕ → Bool };

    /// Whether the thread is ready. It is one test.
    fn is_ready<L: Ledger>(&self, thread: u64, steps: &mut Steps<L>) -> bool
        ensures value { result ≡ ready self.now thread }
        ensures cost { steps.new ≡ steps.old + 1 };
}
