//! What seats know of one history, and what they know together.

ghost use Rattle.std.specs.Prelude.{◌≡◌, ◌⊎◌, ℕ, ◌+◌, ◌++◌, ◌∷◌, [], ◌<◌, ◌≤◌, List, length};
ghost use Rattle.std.specs.List.{All, sum_by};
ghost use Rattle.fak_model.specs.Calls.{before_mark};
ghost use Rattle.fak_model.specs.Seats.{Begins, In, IsWhole, Knows, longer_of, marks_of, mine};

/// If two lists are prefixes of one history, one of them is a prefix of the other. Joining two seats gives the longer,
/// under both names. Once every seat has joined, every mark belongs to a joined seat.
pub fn seats_that_join_have_seen_one_history<M>()
    ensures one { (s t h : List M) → Begins s h → Begins t h → Begins s t ⊎ Begins t s }
    ensures joined { (seat_of : M → ℕ) (a b : List ℕ) (s t h : List M) → Knows seat_of a s h → Knows seat_of b t h
        → Knows seat_of (a ++ b) (longer_of s t) h }
    ensures whole { (seat_of : M → ℕ) (seats : ℕ) (names : List ℕ) (seen : List M) → IsWhole seats names
        → All (λ m. seat_of m < seats) seen → mine seat_of names seen ≡ seen }
{}

/// A tally knows what its seats know. A tally of one seat knows the marks of that seat's name. Each new name adds its
/// marks to what was known, under every weight of marks.
pub fn a_tally_knows_what_its_seats_know<M>()
    ensures one { (seat_of : M → ℕ) (name : ℕ) (h : List M) → mine seat_of (name ∷ []) h ≡ marks_of seat_of name h }
    ensures more { (seat_of weight : M → ℕ) (names : List ℕ) (name : ℕ) (h : List M) → ¬ In name names
        → sum_by weight (mine seat_of (names ++ name ∷ []) h) ≡ sum_by weight (mine seat_of names h) + sum_by weight
        (marks_of seat_of name h) }
    ensures known { (seat_of : M → ℕ) (names : List ℕ) (seen h : List M) → Knows seat_of names seen h
        → mine seat_of names h ≡ mine seat_of names seen }
    ensures joined { (seat_of weight : M → ℕ) (names : List ℕ) (name : ℕ) (of_tally of_seat both : List M)
        → ¬ In name names → Knows seat_of names of_tally both → Knows seat_of (name ∷ []) of_seat both
        → sum_by weight (mine seat_of (names ++ name ∷ []) both)
        ≡ sum_by weight (mine seat_of names of_tally) + sum_by weight (marks_of seat_of name of_seat) }
{}

/// The only seat of an object observes only its own marks. Each call appends its marks to what the seat had observed,
/// and nothing else comes before the first of them.
pub fn an_only_seat_has_seen_its_own_marks<M>()
    ensures mine { (seat_of : M → ℕ) (seen : List M) → All (λ m. seat_of m < 1) seen → marks_of seat_of 0 seen ≡ seen }
    ensures grows { (seat_of : M → ℕ) (old new marks : List M) → All (λ m. seat_of m < 1) old
        → All (λ m. seat_of m < 1) new
        → marks_of seat_of 0 new ≡ marks_of seat_of 0 old ++ marks → new ≡ old ++ marks }
    ensures before { (seat_of : M → ℕ) (old rest : List M) (m : M) → All (λ x. seat_of x < 1) (old ++ m ∷ rest)
        → before_mark seat_of 0 (length (marks_of seat_of 0 old) + 0) (old ++ m ∷ rest) ≡ old }
{}

/// A seat that never began a call adds nothing: names beyond those of a history have no mark in it. So `mine` is the
/// same with such a name as without it.
pub fn a_seat_without_a_call_adds_nothing<M>()
    ensures beyond { (seat_of : M → ℕ) (seats name : ℕ) (h : List M) → All (λ m. seat_of m < seats) h → seats ≤ name
        → marks_of seat_of name h ≡ [] }
    ensures mine { (seat_of : M → ℕ) (names : List ℕ) (name : ℕ) (h : List M) → marks_of seat_of name h ≡ []
        → mine seat_of (names ++ name ∷ []) h ≡ mine seat_of names h }
{}
