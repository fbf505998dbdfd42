//! What follows from the definitions of the machine alone. These functions do nothing when they run.

ghost use Rattle.std.specs.Prelude.{◌≡◌, ◌≤◌, ℕ, List, [], ◌∷◌, ◌++◌, length, map, Some};
ghost use Rattle.lsv_mask.specs.Masking.{mask};
ghost use Rattle.lsv_record.specs.Points.{Stored};
ghost use Rattle.lsv_record.specs.Records.{delay_of};
ghost use Rattle.lsv_session.specs.declared.connection.ConnId.{ConnId};
ghost use Rattle.lsv_machine.specs.Durable.{IsPrefix};
ghost use Rattle.lsv_machine.specs.Failures.{Act, Step};
ghost use Rattle.lsv_machine.specs.History.{Ledger, ledger, noted, promised, sent, shown, writers};
ghost use Rattle.lsv_machine.specs.Lines.{MayHold};
ghost use Rattle.lsv_machine.specs.Machine.{LogState.There, Machine, Settings};
ghost use Rattle.lsv_machine.specs.Stands.{Stands, StandsFor};
ghost use Rattle.lsv_machine.specs.Starts.{Continues, GoodState, StartsAs};
ghost use Rattle.lsv_machine.specs.Turns.{AllBegin, EndOfTurn, Happened, Happened.Begins, Happened.Did, Happened.Tailed, Run, Tail};

/// No log has two writers at any moment of any run, so after each job of it: whatever happened before the run, whatever fails
/// in it, and whatever the store held, if no log of the lane was above the last number drawn. `run` is what of the run has
/// happened, and `rest` what is still to come.
pub fn a_log_has_one_writer()
    ensures { (set : Settings) (n : ℕ) (before run rest : List Happened) (texts : List (List ℕ)) (start end : Machine) →
        StartsAs set texts start → Run set start (run ++ rest) end → length (writers (before ++ Begins texts ∷ run) n) ≤ 1 }
{}

/// No more is promised of a log than was sent and shown, whatever jobs, answers and failures a history has.
pub fn what_is_promised_was_sent()
    ensures shown { (h : List Happened) (n p : ℕ) → promised h n ≡ Some p → p ≤ length (shown h n) }
    ensures sent { (h : List Happened) (n : ℕ) → length (sent h n) ≡ length (shown h n) }
{
    lsv_record::a_cut_ends_at_the_first_record_of_its_point();
}

/// What is promised of a log stays held by the machine, over runs and stops: a log whose number was told is there.
pub fn what_is_promised_is_held()
    ensures { (set : Settings) (n : ℕ) (h : List Happened) (end : Machine) (p : ℕ) → Continues set n h end → promised h n ≡ Some p →
        (stored : Stored) × (kept : ℕ) × (end.logs n ≡ There stored kept) × (p ≤ length stored.records) }
{}

/// The records of a log are a prefix of those shown, and all of them while a connection writes it.
pub fn records_are_shown()
    ensures prefix { (set : Settings) (n : ℕ) (h : List Happened) (end : Machine) (stored : Stored) (kept : ℕ) → Continues set n h end →
        end.logs n ≡ There stored kept → IsPrefix stored.records (shown h n) }
    ensures whole { (set : Settings) (n : ℕ) (h : List Happened) (end : Machine) (stored : Stored) (kept : ℕ) (k : ConnId) → Continues set n h end →
        end.logs n ≡ There stored kept → end.owner n ≡ Some k → stored.records ≡ shown h n }
{}

/// What is shown has the delays of what was sent. It is what was sent where no run has texts, and the mask of that where
/// all runs have the same texts.
pub fn what_is_shown_is_masked()
    ensures delays { (h : List Happened) (n : ℕ) → map delay_of (sent h n) ≡ map delay_of (shown h n) }
    ensures plain { (h : List Happened) (n : ℕ) → AllBegin [] h → shown h n ≡ sent h n }
    ensures masked { (texts : List (List ℕ)) (h : List Happened) (n : ℕ) → AllBegin texts h → shown (Begins texts ∷ h) n ≡ mask texts (sent (Begins texts ∷ h) n) }
{
    lsv_record::a_cut_ends_at_the_first_record_of_its_point();
    lsv_mask::masking_keeps_what_it_is_judged_by();
    lsv_mask::a_prefix_is_masked_by_itself();
    lsv_mask::masking_keeps_all_but_what_is_typed();
}

/// The invariant by which a machine stands for a history is kept by each job, by the end of a turn and by a run. It holds at
/// the start of a run whose store was good for what happened before.
pub fn the_invariant_is_kept()
    ensures job { (set : Settings) (n : ℕ) (l : Ledger) (act : Act) (m after : Machine) → StandsFor set n m l → Step set m act after → StandsFor set n after (noted n l (Did act)) }
    ensures tail { (set : Settings) (n : ℕ) (l : Ledger) (tail : Tail) (m after : Machine) → StandsFor set n m l → EndOfTurn set m tail after → StandsFor set n after (noted n l (Tailed tail)) }
    ensures run { (set : Settings) (n : ℕ) (g h : List Happened) (m end : Machine) → Stands set g n m → Run set m h end → Stands set (g ++ h) n end }
    ensures start { (set : Settings) (n : ℕ) (g : List Happened) (texts : List (List ℕ)) (m : Machine) → StartsAs set texts m → GoodState (ledger g n) (m.logs n) →
        Stands set (g ++ Begins texts ∷ []) n m }
{}

/// Two stretches of a run, as two turns, are one.
pub fn runs_join()
    ensures { (set : Settings) (g h : List Happened) (a b c : Machine) → Run set a g b → Run set b h c → Run set a (g ++ h) c }
{}

/// The event log that a machine has is one that its history allows. Where a run begins, the lines of a turn that was cut may
/// be there or not.
pub fn the_event_log_is_of_the_history()
    ensures run { (set : Settings) (g h : List Happened) (m end : Machine) → MayHold set.lane g m.lines m.fresh → Run set m h end → MayHold set.lane (g ++ h) end.lines end.fresh }
    ensures lost { (lane : ℕ) (g : List Happened) (texts : List (List ℕ)) (text fresh : List ℕ) → MayHold lane g text fresh → MayHold lane (g ++ Begins texts ∷ []) text [] }
    ensures kept { (lane : ℕ) (g : List Happened) (texts : List (List ℕ)) (text fresh : List ℕ) → MayHold lane g text fresh → MayHold lane (g ++ Begins texts ∷ []) (text ++ fresh) [] }
{}
