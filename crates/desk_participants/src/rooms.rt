// Room for those who take part in the desk of a run.
ghost use Rattle.std.specs.Prelude.{◌≡◌, [], IfOk};
ghost use Rattle.desk_participants.specs.Seats.{HasSeatsFor};

use crate::participants::Participant;
use std::alloc::{AllocError, Global};

/// Room for those of one kind, and for what comes of them.
pub struct Room<P, X, K, Y> {
    pub seats: Vec<Participant<P, X, K, Y>>,
    pub came: Vec<Y>,
}

impl<P, X, K, Y> Room<P, X, K, Y> {
    /// Gives the room back.
    pub fn clear_out(self)
        requires { (self.seats.items ≡ []) × (self.came.items ≡ []) }
    {
        let Room { seats, came } = self;
        seats.destroy_empty();
        came.destroy_empty();
    }
}

/// Room for so many.
pub fn room_for<P, X, K, Y>(alloc: Global, count: usize) -> Result<Room<P, X, K, Y>, AllocError>
    ensures { IfOk result (HasSeatsFor count) }
{
    let seats = Vec::with_capacity(alloc, count)?;
    match Vec::with_capacity(alloc, count) {
        Ok(came) => Ok(Room { seats, came }),
        Err(error) => {
            seats.destroy_empty();
            Err(error)
        }
    }
}
