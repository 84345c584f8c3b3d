//! The state of a seat whose calls go by steps.

ghost use Rattle.std.specs.Prelude.{◌≡◌};

/// The state of a seat in a down or an up by steps.
#[derive(Drop)]
pub enum Standing<T> {
    /// No call is open.
    Idle,
    /// A down after its debit: room for its item in the wait queue is to be claimed next.
    Parking(T),
    /// A down after its granted claim: the item is to be moved into the cell of its ticket next.
    Inserting,
    /// An up after its credit: an item of the wait queue is to be claimed next.
    Waking,
    /// An up after its granted claim: the item is to be moved out of the cell of its ticket next.
    Deleting,
}

/// Which call of a seat is open.
#[derive(Clone, Copy, Debug, PartialEq, Eq, Drop)]
pub enum StepState {
    /// No call.
    Idle,
    /// A down that parks its item.
    Parking,
    /// An up that owes a wake.
    Waking,
}

impl<T> Standing<T> {
    ghost use Rattle.fak_sem.specs.Standings.{state_in};

    pub(crate) fn state(&self) -> StepState
        ensures { result ≡ state_in self.now }
    {
        match self {
            Standing::Idle => StepState::Idle,
            Standing::Parking(_) | Standing::Inserting => StepState::Parking,
            Standing::Waking | Standing::Deleting => StepState::Waking,
        }
    }
}
