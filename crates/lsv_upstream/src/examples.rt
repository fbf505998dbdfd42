//! Small cases that show what the definitions say, and why a premise is there. These functions do nothing when they run.

ghost use Rattle.std.specs.Prelude.{◌≡◌, [], ◌∷◌, Some, None, option_map};
ghost use Rattle.lsv_machine.specs.Durable.{IsPrefix};
ghost use Rattle.lsv_machine.specs.Examples.{conn, full_head, one_byte, the_head, two_committed};
ghost use Rattle.lsv_machine.specs.History.{promised, sent};
ghost use Rattle.lsv_machine.specs.Machine.{Machine};
ghost use Rattle.lsv_request.specs.Stored.{record_message};
ghost use Rattle.lsv_transcript.specs.Plan.{plan_from, reached, sent_anew};
ghost use Rattle.lsv_transcript.specs.Transcript.{all_of, anew, hello_message, relayed, restart_message};
ghost use Rattle.lsv_upstream.specs.Examples.{another_goes_on, kept_at, one, output, relay_visit, three, upstream_run};
ghost use Rattle.lsv_upstream.specs.Passed.{HasSent.Opened, HasSent.Resumed, sent_in};
ghost use Rattle.lsv_upstream.specs.Relayed.{IsAcknowledged, IsRelayed};

/// A relay goes on after the first record that ends at the kept point. The record without a delay that follows it is sent
/// again. If no record ends there, the log is sent from its start.
pub fn a_relay_goes_on_after_the_first_record_of_its_point()
    ensures kept { all_of (relayed three the_head None (Some (kept_at 15))) ≡ hello_message ∷ restart_message (kept_at 15).id 15 ∷ record_message (output 0 2) ∷ record_message (output 20 3) ∷ [] }
    ensures anew { relayed three the_head None (Some (kept_at 12)) ≡ anew three the_head None }
{}

/// A sender that sends up to 20 ns awaits 15, at which its last record ends. One that goes on at 35 and sends up to 15
/// sends no record and awaits 35.
pub fn a_sender_awaits_what_it_reaches()
    ensures upto { reached three (Some 20) 0 ≡ output 15 1 ∷ output 0 2 ∷ [] }
    ensures aim { (sent_anew three the_head None (Some 20)).aim ≡ 15 }
    ensures none { option_map (λ plan. all_of plan.transcript) (plan_from three the_head None (Some (record { id = (kept_at 35).id; point = 35 })) (Some 15)) ≡ Some (hello_message ∷ restart_message (kept_at 35).id 35 ∷ []) }
    ensures later { option_map (λ plan. plan.aim) (plan_from three the_head None (Some (record { id = (kept_at 35).id; point = 35 })) (Some 15)) ≡ Some 35 }
{}

/// What a connection has sent since it opened the log, and what another has sent since it went on with it.
pub fn each_connection_has_sent_its_own()
    ensures opened { sent_in 1 (conn 1) another_goes_on ≡ Opened (one_byte 5 ∷ one_byte 5 ∷ []) }
    ensures resumed { sent_in 1 (conn 4) another_goes_on ≡ Resumed 1 (one_byte 9 ∷ []) }
{}

/// Why nobody else may go on with a relayed log: all its records were promised, and then another connection goes on before
/// the last of them. What was sent of the log is no prefix of the relay's records any more, and less is promised.
pub fn a_log_that_others_go_on_with_is_not_held()
    ensures held { promised two_committed 1 ≡ Some 2 }
    ensures sent { sent another_goes_on 1 ≡ one_byte 5 ∷ one_byte 9 ∷ [] }
    ensures promised { promised another_goes_on 1 ≡ Some 1 }
    ensures other { IsPrefix (sent another_goes_on 1) (one_byte 5 ∷ one_byte 5 ∷ []) → ⊥ }
{}

/// A relay can be acknowledged: its premises are met by a run of the machine over an empty store, in which one connection
/// brings a log of one record and gets the commit point of its elapsed time.
pub fn a_relay_can_be_acknowledged()
    ensures relayed { (end : Machine) × IsRelayed 0 1 1 full_head one None (upstream_run end ∷ []) (relay_visit ∷ []) × IsAcknowledged 1 one (upstream_run end ∷ []) (relay_visit ∷ []) }
{}
