//! Laws of the definitions that the contracts of this crate cite. They do nothing when they run.

ghost use Rattle.std.specs.Prelude.{◌≡◌, ◌↔◌, ◌⊎◌, ℕ, ◌+◌, ◌-◌, ◌≤◌, ◌<◌, ◌^◌, List, [], ◌∷◌, ◌++◌, length, drop, All, Option, Some, None, Ok};
ghost use Rattle.lsv_defs.specs.Pieces.{piece};
ghost use Rattle.lsv_wire.specs.Frame.{frame_of, IsMessage, framed, Cut, Over};
ghost use Rattle.lsv_wire.specs.Varint.{varint};
ghost use Rattle.lsv_wire.specs.Fields.{varint_at, next_field, AreFields, fields_from, with_field, number_field, bytes_field};
ghost use Rattle.lsv_wire.specs.declared.field.Field.{Field};
ghost use Rattle.lsv_wire.specs.declared.field.FieldValue.TheVariants as values;
ghost use Rattle.lsv_wire.specs.declared.field.WireFault.{WireFault};

use crate::LAST_FIELD_NUMBER;

/// A text is cut into messages in one way, so it doesn't matter in which pieces it came.
pub fn one_text_has_one_cutting()
    ensures cut { (bytes rest other_rest : List ℕ) (messages others : List (List ℕ)) →
        Cut bytes messages rest → Cut bytes others other_rest → (messages ≡ others) × (rest ≡ other_rest) }
    ensures over { (bytes : List ℕ) (messages others : List (List ℕ)) (stated other : ℕ) →
        Over bytes messages stated → Over bytes others other → (messages ≡ others) × (stated ≡ other) }
    ensures one_of_two { (bytes rest : List ℕ) (messages others : List (List ℕ)) (stated : ℕ) →
        Cut bytes messages rest → Over bytes others stated → ⊥ }
    ensures always { (bytes : List ℕ) → All (λ b. b < 256) bytes →
        ((messages : List (List ℕ)) × (rest : List ℕ) × Cut bytes messages rest)
        ⊎ ((messages : List (List ℕ)) × (stated : ℕ) × Over bytes messages stated) }
{}

/// No frame begins another, so the frame at the front of a text is one message.
pub fn no_frame_begins_another()
    ensures message { (message other rest other_rest : List ℕ) → IsMessage message → IsMessage other →
        frame_of message ++ rest ≡ frame_of other ++ other_rest → (message ≡ other) × (rest ≡ other_rest) }
    ensures frame { (message other rest : List ℕ) → IsMessage message → IsMessage other →
        frame_of message ++ rest ≡ frame_of other → (message ≡ other) × (rest ≡ []) }
{}

/// The stream so far stays what it is when a message is taken from the rest, and has the next piece at its end
/// when the rest has.
pub fn a_stream_is_read_from_the_front()
    ensures message { (messages : List (List ℕ)) (message rest : List ℕ) →
        framed messages (frame_of message ++ rest) ≡ framed (messages ++ message ∷ []) rest }
    ensures piece { (messages : List (List ℕ)) (rest more : List ℕ) →
        framed messages (rest ++ more) ≡ framed messages rest ++ more }
{}

/// The fields that stand in a text, one after another, are the list that its definition computes.
pub fn one_text_has_one_list_of_fields()
    ensures { (bytes : List ℕ) (at : ℕ) (fs : List Field) (fault : Option WireFault) →
        AreFields bytes at fs fault ↔ (fields_from bytes at ≡ record { fields = fs; fault = fault }) }
{}

/// What is written is read back, whatever follows it.
pub fn what_is_written_is_read_back()
    ensures varint { (bytes rest : List ℕ) (key at n : ℕ) → n < 2 ^ 64 →
        drop at bytes ≡ varint n ++ rest → varint_at bytes key at ≡ Ok (n, at + length (varint n)) }
    ensures number { (bytes rest : List ℕ) (at number n : ℕ) → 1 ≤ number → number ≤ LAST_FIELD_NUMBER → n < 2 ^ 64 →
        drop at bytes ≡ number_field number n ++ rest →
        (next : ℕ) × (next_field bytes at ≡ Ok (Some (record { number = number; value = values.Varint n }, next)))
        × (fields_from bytes at ≡ with_field (record { number = number; value = values.Varint n }) (fields_from bytes next))
        × (drop next bytes ≡ rest) }
    ensures bytes { (bytes rest text : List ℕ) (at number : ℕ) → 1 ≤ number → number ≤ LAST_FIELD_NUMBER → length text < 2 ^ 64 →
        drop at bytes ≡ bytes_field number text ++ rest →
        (start : ℕ) × (next : ℕ) × (next_field bytes at ≡ Ok (Some (record { number = number; value = values.Range start next }, next)))
        × (fields_from bytes at ≡ with_field (record { number = number; value = values.Range start next }) (fields_from bytes next))
        × (piece bytes start (next - start) ≡ text) × (drop next bytes ≡ rest) }
    ensures end { (bytes : List ℕ) (at : ℕ) → length bytes ≤ at → fields_from bytes at ≡ record { fields = []; fault = None } }
{}
