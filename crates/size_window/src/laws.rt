//! Laws of drawings. Each function's contract is the law; none does anything.
ghost use Rattle.std.specs.Prelude.{◌≡◌, ◌↔◌, ℕ, ◌+◌, ◌-◌, ◌<◌, ◌≤◌, ◌⊎◌, Bool, IsTrue, List, ◌++◌};
ghost use Rattle.std.specs.Prelude.{length, Option, Some};
ghost use Rattle.bz_model.specs.Fraction.{Fraction};
ghost use Rattle.bz_model.specs.Cell.{spelled};
ghost use Rattle.bz_model.specs.declared.cell.Bounds.{Bounds};
ghost use Rattle.bz_model.specs.Measures.{size, HasZero};
ghost use Rattle.bz_model.specs.Object.{Object};
ghost use Rattle.bz_model.specs.Making.{Just, Over, Makes};
ghost use Rattle.bz_laws.specs.WithoutRoom.{MakesAlone};
ghost use Rattle.bz_model.specs.Oracle as oracle;
ghost use Rattle.bz_model.specs.Spec.{Spec};
ghost use Rattle.class_system.specs.Sound.{IsSound};
ghost use Rattle.well_founded.specs.EmptyObjects.{has_empty};
ghost use Rattle.shape_sampler.specs.Answer.{ChoosesBy};
ghost use Rattle.size_window.specs.RunByBits.{Open, Ending, Limits, Sampling, Course, at_start};
ghost use Rattle.size_window.specs.RunByBits.{after};
ghost use Rattle.size_window.specs.Trace.{IsSpelled, IsTrace, TracesStart, TurnsContinue};
ghost use Rattle.size_window.specs.Trace.{ToldTracesAreCourses, EndedTracesAreOne};
ghost use Rattle.size_window.specs.Redrawn.{AreRedrawn, AreEntriesOfTrace};
ghost use Rattle.size_window.specs.InOrder.{IsInOrder};
ghost use Rattle.size_window.specs.TapeEnd.{UsesFewBits, FilesEndRightly, SeedsNeverEnd};
ghost use Rattle.size_window.specs.Ideally.{DecidesIdeally, chooser_of};
ghost use Rattle.size_window.specs.Follows.{Follows, GoesIdeally};

use bz_laws::ideal_sampler::{
    making_without_a_room_is_making_with_some_room, the_room_is_mere_rejection,
};
use well_founded::laws::objects_of_size_0_are_decided;

/// A drawing follows the ideal run, in each mode, after any number of turns and wherever the shelf
/// fails.
///
/// The cells of its finished attempts are a front of all its cells, and for all numbers in them,
/// and any further numbers, the ideal run keeps the objects of the entries with their labels, in
/// order, throws away as many attempts, and leaves the further numbers. Each entry is made of its
/// own cells.
pub fn a_drawing_follows_the_ideal_run()
    ensures { (s : Sampling) (x : Fraction) → DecidesIdeally s.chooser x → IsSound s.chooser.spec
        → (faults : ℕ → Option ℕ) (n : ℕ) → Follows s.chooser.spec x s.limits (after s faults n) }
{}

/// The chooser by a sound table of bounds decides ideally, where it is told which nodes have an
/// object of size 0.
pub fn a_sound_table_decides_ideally()
    ensures { (s : Spec) (x : Fraction) (F : ℕ) (table : (level node : ℕ) → Bounds)
        (is_free : ℕ → Bool) → IsSound s → oracle.IsSoundTable s x F table
        → ((part : ℕ) → IsTrue (is_free part) ↔ HasZero s part)
        → DecidesIdeally (chooser_of s F table is_free) x }
{}

/// It chooses by its table; and which nodes have an object of size 0 can be computed, so that there
/// is one for every sound specification.
pub fn a_table_has_its_chooser()
    ensures chooses { (s : Spec) (F : ℕ) (table : (level node : ℕ) → Bounds) (is_free : ℕ → Bool)
        → ((part : ℕ) → IsTrue (is_free part) ↔ HasZero s part)
        → ChoosesBy s F table (chooser_of s F table is_free) }
    ensures computed { (s : Spec) (part : ℕ) → IsSound s
        → IsTrue (has_empty s part) ↔ HasZero s part }
{}

/// The course at the start goes as ideal runs do. So does each later one, by the contract of
/// `Drawing::turn`.
pub fn a_course_goes_from_its_start()
    ensures { (s : Spec) (x : Fraction) (limits : Limits) → GoesIdeally s x limits at_start }
{}

/// A drawing before its first turn has a trace: that of no bit, with no entry and no cell.
pub fn a_trace_starts_with_its_drawing()
    ensures { TracesStart }
{}

/// A turn from a sound specification continues its drawing's trace: with the turn's bits after
/// those given before, its entry after the entries and its cells after the cells.
pub fn a_turn_continues_a_trace()
    ensures { TurnsContinue }
{}

/// The cells of a course spell the bits that it used over a tape, in order, wherever the shelf
/// fails; each of them is a cell, and after them stand the bits of a number that was left open.
pub fn a_course_spells_its_bits()
    ensures { (s : Sampling) (faults : ℕ → Option ℕ) (n : ℕ) → IsSpelled (after s faults n) s.tape }
{}

/// Each entry of a course is made again from the bits that its own cells spell: wherever a tape has
/// them, and over the tape of just these bits, an attempt alone makes its object, and a labelling
/// its labels, from exactly these bits.
pub fn each_entry_is_redrawn_from_its_cells()
    ensures { (s : Sampling) (faults : ℕ → Option ℕ) (n : ℕ)
        → AreRedrawn s.chooser s.limits.max (after s faults n).entries }
{}

/// The entries of a course are in order: they are numbered from 1, the bits of each begin at or
/// after the end of those of the one before it, each has as many atoms as it tells, within the
/// window, and there are as many as the course kept.
pub fn the_entries_of_a_course_are_in_order()
    ensures { (s : Sampling) (faults : ℕ → Option ℕ) (n : ℕ)
        → IsInOrder s.limits (after s faults n) }
{}

/// A course uses few bits: at most 60 for each number that a turn draws, which are one, or those of
/// the atoms of a shape that is labelled.
pub fn a_course_uses_few_bits()
    ensures { (s : Sampling) (faults : ℕ → Option ℕ) (n : ℕ)
        → UsesFewBits s.limits (after s faults n) }
{}

/// Over a file a trace ends with the tape's end only where all bits are used, and over a seed it
/// never does.
pub fn the_tape_ends_where_its_bits_are_used()
    ensures files { FilesEndRightly }
    ensures seeds { SeedsNeverEnd }
{}

/// The entries of a trace from a sound specification, whether its tape is known or not, are made
/// again from their own cells, for each chooser by the table, and are in order.
pub fn the_entries_of_a_trace_are_made_again()
    ensures { (s : Spec) (x : Fraction) (F : ℕ) (table : (level node : ℕ)
        → Bounds) (limits : Limits)
        (told : Option (ℕ → Option Bool)) (turns most : ℕ) (c : Course) → IsSound s
        → IsTrace s x F table limits told turns most c → AreEntriesOfTrace s F table limits c }
{}

/// Where the tape's bits are told and no read failed at its end, a trace is the course over them in
/// which none fails; and two such traces that have both ended are one.
pub fn a_told_trace_is_the_course_of_its_tape()
    ensures courses { ToldTracesAreCourses }
    ensures ended { EndedTracesAreOne }
{}

/// Foundedness decides which parts of a sound specification have an object of size 0. So the room
/// is mere rejection there: what is made without a limit of room is made with any room that it
/// fits, and is over in any other, on no more numbers.
pub fn the_room_of_a_sound_specification_is_mere_rejection()
    ensures decided { (s : Spec) (part : ℕ) → IsSound s → HasZero s part ⊎ (¬ HasZero s part) }
    ensures fits { (s : Spec) (x : Fraction) (e max : ℕ) (us left : List Fraction) (o : Object)
        → MakesAlone s x e us o left → size o ≤ max
        → Makes s x e max us (Just o (max - size o)) left }
    ensures over { (s : Spec) (x : Fraction) (e max : ℕ) (us left : List Fraction) (o : Object)
        → IsSound s → MakesAlone s x e us o left → max < size o
        → (taken : List Fraction) × Makes s x e max us Over (taken ++ left) }
{
    objects_of_size_0_are_decided();
    making_without_a_room_is_making_with_some_room();
    the_room_is_mere_rejection();
}

/// A course that is done, or has met the limit of turns, used the bits that its cells spell and
/// no others, and one that is undecided used 60 more: those of the number that was left open.
pub fn open_bits_are_none_or_sixty()
    ensures done { (s : Sampling) (faults : ℕ → Option ℕ) (n : ℕ)
        → (after s faults n).state.ending ≡ Some Ending.Done
        → (after s faults n).state.attempt.used ≡ length (spelled (after s faults n).cells) }
    ensures turn_limit { (s : Sampling) (faults : ℕ → Option ℕ) (n : ℕ)
        → (after s faults n).state.ending ≡ Some Ending.TurnLimit
        → (after s faults n).state.attempt.used ≡ length (spelled (after s faults n).cells) }
    ensures undecided { (s : Sampling) (faults : ℕ → Option ℕ) (n : ℕ) (number : Open)
        → (after s faults n).state.ending ≡ Some (Ending.Undecided number)
        → (after s faults n).state.attempt.used ≡ length (spelled (after s faults n).cells) + 60 }
{}
