//! The phase of a seat, and what it holds.

ghost use Rattle.std.specs.Prelude.{◌≡◌, ◌≢◌};

/// What a hold is for. A reader takes 1 from the count, a writer the number of seats.
#[derive(Clone, Copy, Debug, PartialEq, Eq)]
pub enum Access {
    Read,
    Write,
}

impl Access {
    ghost use Rattle.fak_files.specs.Phases.{amount_of, hold_for};

    /// What a hold takes from the count of a table with this many seats.
    pub(crate) fn amount(self, seats: u64) -> u64
        ensures { result ≡ amount_of seats self }
    {
        match self {
            Access::Read => 1,
            Access::Write => seats,
        }
    }

    /// The hold that this access is granted.
    pub(crate) fn hold(self) -> Hold
        ensures { result ≡ hold_for self }
    {
        match self {
            Access::Read => Hold::Reading,
            Access::Write => Hold::Writing,
        }
    }
}

/// The phase of a seat, within a call or between two calls.
pub enum FilePhase {
    /// The seat holds nothing, and no call of it is open.
    Idle,
    /// The test found enough; the seat subtracts next.
    Taking(Access),
    /// The subtraction found too little; the seat adds the amount again next.
    Backing(Access),
    /// The seat holds the table.
    Holding(Access),
}

/// What a seat holds of the file table.
#[derive(Clone, Copy, Debug, PartialEq, Eq)]
pub enum Hold {
    Nothing,
    Reading,
    Writing,
}

impl Hold {
    ghost use Rattle.fak_files.specs.Phases.{hold_for};
    ghost use Rattle.fak_files.specs.declared.phase.Hold.TheVariants.{Nothing};

    /// What the hold is for.
    pub(crate) fn access(self) -> Access
        requires { self ≢ Nothing }
        ensures { hold_for result ≡ self }
    {
        match self {
            Hold::Reading => Access::Read,
            Hold::Writing => Access::Write,
            Hold::Nothing => unreachable!(),
        }
    }
}
