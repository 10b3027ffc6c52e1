// Which calls of a memory device fail.
ghost use Rattle.std.specs.Prelude.{◌≡◌, ◌+◌, ℕ, min, None, Some, false};
ghost use Rattle.lfs_device.specs.Bench.{no_faults, is_due, one_less, fails_at, after_call};

/// A kind of device call.
#[derive(Clone, Copy, Debug, PartialEq, Eq)]
pub enum DeviceCall {
    Read,
    Write,
    Sync,
}

/// Which calls fail.
#[derive(Clone, Copy)]
pub struct Bench {
    /// Write calls begun, up to the greatest u64.
    pub writes: u64,
    /// The write call that fails, and every later call too.
    pub stop: Option<u64>,
    pub stopped: bool,
    /// How many calls of the kind come before the one that fails.
    pub read_fault: Option<u64>,
    pub write_fault: Option<u64>,
    pub sync_fault: Option<u64>,
}

fn count_down(fault: &mut Option<u64>) -> bool
    ensures due { result ≡ is_due fault.old }
    ensures after { fault.new ≡ one_less fault.old }
{
    match *fault {
        Some(0) => {
            *fault = None;
            true
        }
        Some(n) => {
            *fault = Some(n - 1);
            false
        }
        None => false,
    }
}

impl Bench {
    pub(crate) fn new() -> Bench
        ensures { result ≡ no_faults }
    {
        Bench {
            writes: 0,
            stop: None,
            stopped: false,
            read_fault: None,
            write_fault: None,
            sync_fault: None,
        }
    }

    /// A call of this kind is made: whether it fails.
    pub(crate) fn call(&mut self, call: DeviceCall) -> bool
        ensures fails { result ≡ fails_at call self.old }
        ensures after { self.new ≡ after_call call self.old }
    {
        match call {
            DeviceCall::Read => count_down(&mut self.read_fault) || self.stopped,
            DeviceCall::Sync => count_down(&mut self.sync_fault) || self.stopped,
            DeviceCall::Write => {
                if let Some(stop) = self.stop {
                    if stop == self.writes {
                        self.stopped = true;
                    }
                }
                self.writes = self.writes.saturating_add(1);
                count_down(&mut self.write_fault) || self.stopped
            }
        }
    }
}
