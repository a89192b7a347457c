//! Laws of replays. Each function's contract is the law; none does anything.
ghost use Rattle.std.specs.Prelude.{◌≡◌, ℕ, ◌^◌, ◌≤◌, Bool, List, length, Option, slice_get};
ghost use Rattle.std.specs.List.{AllByRecursion};
ghost use Rattle.bz_model.specs.declared.cell.Bounds.{Bounds};
ghost use Rattle.bz_model.specs.declared.cell.Cell.{Cell};
ghost use Rattle.bit_tape.specs.Bits.{file_bit};
ghost use Rattle.bz_model.specs.Cell.{bits_of_bytes};
ghost use Rattle.bz_model.specs.Fraction.{Fraction};
ghost use Rattle.bz_model.specs.Spec.{Spec};
ghost use Rattle.class_system.specs.Sound.{IsSound};
ghost use Rattle.object_store.specs.declared.token.Token.{Token};
ghost use Rattle.size_window.specs.RunByBits.{Limits, Course};
ghost use Rattle.size_window.specs.Trace.{IsTrace};
ghost use Rattle.entry_replay.specs.Replay.{AreMadeOf};

/// Cells make at most one object with its labels: the tokens and labels that are drawn from the
/// bits that they spell are the same however they are drawn.
pub fn cells_make_one_object()
    ensures { (s : Spec) (F : ℕ) (table : (level node : ℕ)
        → Bounds) (greatest : ℕ) (cells : List Cell)
        → IsSound s → (tokens others : List Token) (labels told : List ℕ)
        → AreMadeOf s F table greatest cells tokens labels
        → AreMadeOf s F table greatest cells others told
        → (tokens ≡ others) × (labels ≡ told) }
{}

/// Each entry of a drawing's trace is made of its own cells: whatever its tape and its shelf, the
/// bits that the entry's cells spell make its tokens and labels again, with exactly these cells.
pub fn a_trace_makes_its_entries()
    ensures { (s : Spec) (x : Fraction) (F : ℕ) (table : (level node : ℕ)
        → Bounds) (limits : Limits)
        (told : Option (ℕ → Option Bool)) (turns most : ℕ) (c : Course)
        → IsTrace s x F table limits told turns most c
        → AllByRecursion (λ e. AreMadeOf s F table limits.max e.cells e.tokens e.labels) c.entries }
{}

/// The bits of a tape over a file are those of its bytes in order, each byte's highest bit first:
/// the bit at each place is the one there in the list of them, and there is none past its end.
pub fn a_file_has_the_bits_of_its_bytes()
    ensures { (bytes : List ℕ) (place : ℕ) → length bytes ≤ 2 ^ 60
        → file_bit bytes place ≡ slice_get (bits_of_bytes bytes) place }
{}
