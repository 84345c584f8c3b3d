//! What bundles and their seats add up to.

ghost use Rattle.std.specs.Prelude.{◌≡◌, ℕ, List, length};
ghost use Rattle.std.specs.List.{All, sum_by};
ghost use Rattle.fak_model.specs.declared.queue.Mark.{Mark};
ghost use Rattle.fak_model.specs.Calls.{SeatInfo, TallyInfo};
ghost use Rattle.fak_model.specs.Queue.{IsQueueHistory, contents};
ghost use Rattle.fak_model.specs.Seats.{IsWhole, mine};
ghost use Rattle.fak_queue.specs.BundleCalls.{BundleInfo};
ghost use Rattle.fak_queue.specs.Bundling.{AreSeatsOf, IsBundleOf, KnowsOwn};
ghost use Rattle.fak_queue.specs.BurstCalls.{got_by_all, put_by_all};
ghost use Rattle.fak_queue.specs.Sums.{AreJoined, Balances, got_by, put_by, seats_in};
ghost use Rattle.fak_queue.specs.Queues.{seat_of};

/// Under each weight of items, a new bundle has put in and got out what its seats had, and the seats of a bundle that is broken up
/// what it had. So sums of single calls and of bursts go on from one another.
pub fn a_bundle_adds_up_as_its_seats<T>()
    ensures made { (size : ℕ) (seats : List (SeatInfo (Mark T))) (bundle : BundleInfo (Mark T)) → IsBundleOf size seats bundle
        → (w : T → ℕ) → (put_by_all w bundle ≡ sum_by (put_by w) seats) × (got_by_all w bundle ≡ sum_by (got_by w) seats) }
    ensures broken { (bundle : BundleInfo (Mark T)) (seats : List (SeatInfo (Mark T))) → AreSeatsOf bundle seats
        → (w : T → ℕ) → (sum_by (put_by w) seats ≡ put_by_all w bundle) × (sum_by (got_by w) seats ≡ got_by_all w bundle) }
    ensures inside { (bundle : BundleInfo (Mark T)) (w : T → ℕ) → (sum_by (put_by w) (seats_in bundle) ≡ put_by_all w bundle)
        × (sum_by (got_by w) (seats_in bundle) ≡ got_by_all w bundle) }
{}

/// However many seats and bundles were joined into a tally, they have observed one history: each seat a prefix of the tally's, in
/// which the marks under its name are its own. Once all seats of the queue are in, what they put in they got out, or it is left.
pub fn joined_seats_have_observed_one_history<T>()
    ensures known { (size : ℕ) (seats : List (SeatInfo (Mark T))) (tally : TallyInfo (Mark T)) → AreJoined size seats tally
        → All (KnowsOwn tally.seen) seats }
    ensures balance { (size : ℕ) (seats : List (SeatInfo (Mark T))) (tally : TallyInfo (Mark T)) → AreJoined size seats tally
        → tally.object.seats ≡ length seats → IsWhole tally.object.seats tally.names
        → mine seat_of tally.names tally.seen ≡ tally.seen → IsQueueHistory size tally.seen
        → (w : T → ℕ) → Balances w seats (contents tally.seen) }
{}
