//! Laws of the definitions that the contracts of this crate cite. They do nothing when they run.

ghost use Rattle.std.specs.Prelude.{◌≡◌, ◌↔◌, ℕ, List, true, Ok, Err, IsSome};
ghost use Rattle.lsv_base.specs.Time.{nanos_of};
ghost use Rattle.lsv_info.specs.Shown.{IsTimedHead, IsTimedExit};
ghost use Rattle.lsv_info.specs.declared.times.Head.{Head};
ghost use Rattle.lsv_info.specs.declared.times.Exit.{Exit};
ghost use Rattle.lsv_record.specs.Records.{IsSignal, IsValid};
ghost use Rattle.lsv_record.specs.declared.records.Record.{Record};
ghost use Rattle.lsv_msg.specs.Fitting.{FitsClient, ClientWithin};
ghost use Rattle.lsv_msg.specs.declared.messages.ClientMessage.{ClientMessage};
ghost use Rattle.lsv_request.specs.Judged.{content_refusal, first_of, refusal_in, time_refusal};
ghost use Rattle.lsv_request.specs.Requests.{is_signal, request_of};
ghost use Rattle.lsv_request.specs.Stored.{record_message, head_message, exit_message};
ghost use Rattle.lsv_request.specs.declared.refusal.Refusal.TheVariants as refusals;
ghost use Rattle.lsv_request.specs.declared.request.Request.TheVariants as request;

/// The message of a record, of a head, of an exit asks for just this record, head, exit.
pub fn what_is_stored_is_requested_again()
    ensures record { (r : Record) → IsValid r → request_of (record_message r) ≡ Ok (request.Record r) }
    ensures head { (head : Head) → IsSome (nanos_of head.submit)
        → request_of (head_message head) ≡ Ok (request.Accept (record { head = head; expect_iobufs = true })) }
    ensures exit { (exit : Exit) → IsSome (nanos_of exit.run) → request_of (exit_message exit) ≡ Ok (request.Exit exit) }
{}

/// The messages of what is stored fit their fields, so that they are read back where they are written.
pub fn what_is_stored_fits_its_message()
    ensures record { (r : Record) → IsValid r → FitsClient (record_message r) }
    ensures head { (head : Head) → IsTimedHead head → FitsClient (head_message head) }
    ensures exit { (exit : Exit) → IsTimedExit exit → FitsClient (exit_message exit) }
{}

/// What a message that was decoded asks for is valid, and a record has no more data than its message has bytes: it is never
/// refused as too large where its message fits a frame.
pub fn a_request_of_a_decoded_message_is_valid()
    ensures record { (m : ClientMessage) (r : Record) → FitsClient m → request_of m ≡ Ok (request.Record r) → IsValid r }
    ensures never_too_large { (m : ClientMessage) → ClientWithin 2097152 m → request_of m ≡ Err refusals.MessageTooLarge → ⊥ }
{}

/// A message is refused, after its state, for its time, or else for what it brings.
pub fn why_a_message_is_refused()
    ensures { (m : ClientMessage) → refusal_in (request_of m) ≡ first_of (time_refusal m) (content_refusal m) }
{}

/// A signal's name is tested as a record's signal is.
pub fn a_tested_signal_is_a_signal()
    ensures { (text : List ℕ) → (is_signal text ≡ true) ↔ IsSignal text }
{}
