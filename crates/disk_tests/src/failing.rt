//! Calls that are made to fail.
ghost use Rattle.std.specs.Prelude.{◌≡◌, ◌≤◌, OnErr};
ghost use Rattle.disk_tests.specs.Clauses.{Failed, HasCause, HasRisen};

use disk::DiskFault;

/// Which calls of a disk in memory fail, and how often it has failed.
#[derive(Drop)]
pub(crate) struct Failing {
    calls_left: Option<usize>,
    crashes: bool,
    pub(crate) failures: u64,
}

impl Failing {
    /// No call fails.
    pub(crate) fn never() -> Failing
        ensures { result.failures ≡ 0 }
    {
        Failing {
            calls_left: None,
            crashes: false,
            failures: 0,
        }
    }

    /// Makes the call with this number fail, counted from 0 from now on, or all calls from that one
    /// on.
    pub(crate) fn fail_at(&mut self, call: usize, crashes: bool)
        ensures { self.new.failures ≡ self.old.failures }
    {
        self.calls_left = Some(call);
        self.crashes = crashes;
    }

    /// No call fails any more.
    pub(crate) fn restart(&mut self)
        ensures { self.new.failures ≡ self.old.failures }
    {
        self.calls_left = None;
    }

    /// Counts a failure.
    pub(crate) fn failure(&mut self) -> DiskFault
        ensures fault { result ≡ Failed }
        ensures counted { HasRisen self.old.failures self.new.failures }
        ensures kept { self.old.failures ≤ self.new.failures }
    {
        self.failures = self.failures.saturating_add(1);
        DiskFault::Failed
    }

    /// Counts a call, and fails if it is the one to fail.
    pub(crate) fn count_call(&mut self) -> Result<(), DiskFault>
        ensures cause { HasCause Failed self.old.failures self.new.failures result }
        ensures fault { OnErr result (result ≡ Err Failed) }
    {
        match self.calls_left {
            None => Ok(()),
            Some(0) => {
                if !self.crashes {
                    self.calls_left = None;
                }
                Err(self.failure())
            }
            Some(calls) => {
                self.calls_left = Some(calls - 1);
                Ok(())
            }
        }
    }
}
