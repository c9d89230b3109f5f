//! Armed power losses, and the count of write calls.

ghost use Rattle.std.specs.Prelude.{◌≡◌, Some, None, IfErr};
ghost use Rattle.mb_board.specs.Cuts.{FallsInItsCall, LeavesWhatItKeeps, HasFill, unused, is_armed, passes, fuse_after};

use mb_model::Tear;
use std::marker::Model;

/// The count of write calls saturates here.
const COUNTED_WRITES: u16 = 1_000;

/// An armed power loss.
#[derive(Clone, Copy)]
pub struct Cut {
    /// The number of the write call in which power fails; the next call has the number 1.
    pub count: u32,
    /// What the power loss leaves of the write.
    pub tear: Tear,
}

impl Cut {
    /// A law without a body: a power loss falls into the write call that it is set for, and into no other.
    pub fn falls_in_its_call(&self)
        ensures { FallsInItsCall self.now }
    {}

    /// A law without a body: a power loss that keeps all bytes of a write leaves it complete.
    pub fn leaves_what_it_keeps(&self)
        ensures { LeavesWhatItKeeps self.now }
    {}
}

/// The armed power loss, the count of stopped calls, and that of write calls since the last event.
#[derive(Drop)]
pub struct Fuse {
    cut: Option<Cut>,
    stops: u64,
    writes: u16,
}

impl Model for Fuse {
    ghost use Rattle.std.specs.Prelude.{IfSome};
    ghost use Rattle.mb_board.specs.Cuts.{Armed, HasFill};

    ghost Value = { Armed };

    ghost view = { λ s. record { cut = s.cut; stops = s.stops; writes = s.writes } };

    ghost invariant = { λ s. IfSome s.cut (λ cut. HasFill cut.tear) };
}

impl Fuse {
    /// A fuse with no power loss armed and no call counted.
    pub fn new() -> Fuse
        ensures { result ≡ unused }
    {
        Fuse {
            cut: None,
            stops: 0,
            writes: 0,
        }
    }

    /// Whether a power loss is armed.
    pub fn is_armed(&self) -> bool
        ensures { result ≡ is_armed self.now.cut }
    {
        self.cut.is_some()
    }

    /// How many calls power losses have stopped.
    pub fn stops(&self) -> u64
        ensures { result ≡ self.now.stops }
    {
        self.stops
    }

    /// Arms a power loss, in place of one that was armed before.
    pub fn arm(&mut self, count: u32, tear: Tear)
        requires { HasFill tear }
        ensures { self.new
            ≡ record self.old { cut = Some (record { count = count; tear = tear }) } }
    {
        self.cut = Some(Cut { count, tear });
    }

    /// Disarms a power loss.
    pub fn disarm(&mut self)
        ensures { self.new ≡ record self.old { cut = None } }
    {
        self.cut = None;
    }

    /// Sets the count of write calls to 0.
    pub fn restart(&mut self)
        ensures { self.new ≡ record self.old { writes = 0 } }
    {
        self.writes = 0;
    }

    /// Counts a write call. `Err` if power fails in it, with what that leaves of the write.
    pub fn pass(&mut self) -> Result<(), Tear>
        ensures exact { result ≡ passes self.old }
        ensures fuse { self.new ≡ fuse_after result self.old }
        ensures fill { IfErr result HasFill }
    {
        if self.writes < COUNTED_WRITES {
            self.writes += 1;
        }
        let Some(cut) = self.cut else {
            return Ok(());
        };
        if cut.count == 1 && self.stops < u64::MAX {
            self.cut = None;
            self.stops += 1;
            return Err(cut.tear);
        }
        self.cut = Some(Cut {
            count: cut.count.saturating_sub(1),
            tear: cut.tear,
        });
        Ok(())
    }
}
