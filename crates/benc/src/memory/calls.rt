//! The calls of a device over memory, one of which may be to fail.
ghost use Rattle.std.specs.Prelude.{◌≡◌, Some, None};
ghost use Rattle.benc.specs.Device.{CountsFault, one_more};

use crate::device::DeviceFault;

/// Which of the calls to come is to fail, and how many have failed.
#[derive(Drop)]
pub struct Calls {
    /// This many further calls succeed, and the one after them fails. With none all succeed.
    pub before_fault: Option<u64>,
    /// How many calls were answered with a fault, modulo 2^64.
    pub faults: u64,
}

impl Calls {
    ghost use Rattle.benc.specs.Calls.{FailsInTurn, after_call};

    /// All calls succeed, and none has failed.
    pub fn that_succeed() -> Calls
        ensures succeed { result.before_fault ≡ None }
        ensures faults { result.faults ≡ 0 }
    {
        Calls {
            before_fault: None,
            faults: 0,
        }
    }

    /// This many further calls succeed, and the one after them fails. Later ones succeed.
    pub fn fail_after(&mut self, calls: u64)
        ensures fails { self.new.before_fault ≡ Some calls }
        ensures faults { self.new.faults ≡ self.old.faults }
    {
        self.before_fault = Some(calls);
    }

    /// Counts a call, and fails if it is the one that is to fail. The calls after that one succeed.
    pub fn next(&mut self) -> Result<(), DeviceFault>
        ensures fails { FailsInTurn self.old result }
        ensures later { self.new.before_fault ≡ after_call self.old.before_fault }
        ensures counts { CountsFault self.old.faults self.new.faults result }
    {
        match self.before_fault {
            Some(0) => {
                self.before_fault = None;
                Err(self.fault())
            }
            Some(calls) => {
                self.before_fault = Some(calls - 1);
                Ok(())
            }
            None => Ok(()),
        }
    }

    /// A fault of another cause, which counts too. The call that is to fail stays the same.
    pub fn fault(&mut self) -> DeviceFault
        ensures counts { self.new.faults ≡ one_more self.old.faults }
        ensures later { self.new.before_fault ≡ self.old.before_fault }
    {
        self.faults = self.faults.wrapping_add(1);
        DeviceFault
    }
}
