//! What settled queues say of what was taken. These functions do nothing when they run: their contracts are laws.

ghost use Rattle.std.specs.Prelude.{◌≡◌, ◌==◌, ℕ, All, List, Some, slice_get};
ghost use Rattle.std.specs.List.{filter};
ghost use Rattle.lsv_queue.specs.Passes.{items_of};
ghost use Rattle.lsv_queue.specs.Settled.{AreSettled, IsMerge, ReachTo, given_at, puts_at};
ghost use Rattle.lsv_queue.specs.declared.queue.InPass.{InPass};
ghost use Rattle.lsv_queue.specs.declared.queue.OutPass.{OutPass};

/// At each settled queue, what was taken is what the senders put, each in its own order.
pub fn what_is_taken_is_a_merge<T>()
    ensures merge { (receivers : List (OutPass T)) (rows : List (List (InPass T))) (k : ℕ) (t : OutPass T) → AreSettled receivers rows → slice_get receivers k ≡ Some t → ReachTo k rows →
        IsMerge (items_of t.taken.got) (λ s. given_at k (slice_get rows s)) }
{}

/// If each item tells its sender's number by a key, then the items of one key are what that sender put, in order, and
/// there are none of a number without a sender.
pub fn what_is_taken_is_known_by_its_key<T>()
    ensures own { (key : T → ℕ) (receivers : List (OutPass T)) (rows : List (List (InPass T))) (k : ℕ) (t : OutPass T) → AreSettled receivers rows → slice_get receivers k ≡ Some t → ReachTo k rows →
        ((s : ℕ) (row : List (InPass T)) → slice_get rows s ≡ Some row → All (λ x. key x ≡ s) (puts_at row k)) →
        (s : ℕ) → filter (λ x. key x == s) (items_of t.taken.got) ≡ given_at k (slice_get rows s) }
{}
