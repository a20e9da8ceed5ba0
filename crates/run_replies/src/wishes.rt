//! What is asked of a run, but for its permit.

ghost use Rattle.std.specs.Prelude.{◌≡◌};
ghost use Rattle.permit.specs.Rights.{rights_of};
ghost use Rattle.play.specs.Whole.{orders_of};
ghost use Rattle.run_replies.specs.Wishes.{orders_with, wishes_of};

use permit::permit::Permit;
use play::orders::Orders;

/// An executable, the tape of its readings, and how much a run may use: steps, cells of memory, and writes.
#[derive(Clone, Copy)]
pub struct Wishes<'a> {
    pub executable: &'a [u8],
    pub readings: &'a [u8],
    pub budget: u64,
    pub cells: u64,
    pub writes: u64,
}

impl Wishes<'_> {
    /// What is asked of the run under a permit.
    pub(crate) fn orders<'b>(&'b self, permit: &'b Permit) -> Orders<'b>
        ensures { orders_of result ≡ orders_with (wishes_of self.now) (rights_of permit.now) }
    {
        Orders {
            executable: self.executable,
            readings: self.readings,
            permit,
            budget: self.budget,
            cells: self.cells,
            writes: self.writes,
        }
    }
}
