//! Laws of the specification of a number, and of what comes of the command. Each function's
//! contract is a law, and its body calls only laws.
ghost use Rattle.std.specs.Prelude.{◌≡◌, ◌≢◌, ℕ, List, Some};
ghost use Rattle.bz_model.specs.WellFounded.{IsWellFounded};
ghost use Rattle.class_system.specs.CanonicalText.{canonical_text};
ghost use Rattle.newton_upper.specs.BaseRule.{base_of};
ghost use Rattle.rounded_map.specs.RoundedMap.{setting};
ghost use Rattle.size_window.specs.RunByBits.{Ending};
ghost use Rattle.call_stages.specs.Outcomes.{IsOne};
ghost use Rattle.call_stages.specs.Stages.{IsAccepted, Based};
ghost use Rattle.call_stages.specs.declared.status.Status.{Status};
ghost use Rattle.sample_command.specs.Drawn.{ending_status};
ghost use Rattle.bulk_command.specs.BulkText.{bulk_text};
ghost use Rattle.bulk_command.specs.BulkTables.{bulk_tables};
ghost use Rattle.bulk_command.specs.BulkCommand.{bulk_course, course_line, BulkDrawn, CarriesBulk};

use spec_reader::laws::{a_canonical_text_is_short, a_canonical_text_stands_for_its_specification};

/// The text of a number is the canonical one of its tables and stands for them; they are within the
/// limits and well founded.
pub fn the_text_stands_for_the_tables()
    ensures canonical { (n : ℕ) → canonical_text (bulk_tables n) ≡ bulk_text n }
    ensures accepted { (n : ℕ) → IsAccepted (bulk_text n) (bulk_tables n) }
    ensures well_founded { (n : ℕ) → IsWellFounded (bulk_tables n) }
{
    a_canonical_text_stands_for_its_specification();
    a_canonical_text_is_short();
}

/// No number's specification is refused: but for want of memory, what comes of the command is that
/// no base is found for its tables, or a run over one.
pub fn no_specification_of_a_number_is_refused()
    ensures goes_on { (n F : ℕ) (status : Status) (text : List ℕ) (ticks : ℕ)
        → status ≢ Status.OutOfMemory → CarriesBulk n F status text ticks
        → Based (setting (bulk_tables n) 3 16 F) (BulkDrawn n (setting (bulk_tables n) 3 16 F))
        status text ticks }
{
    the_text_stands_for_the_tables();
}

/// Where a base is found and the run over it comes to its end, the command answers the end's status
/// and writes the line of that run.
pub fn a_run_that_ends_is_told()
    ensures told { (n F : ℕ) (base : List ℕ) → base_of (setting (bulk_tables n) 3 16 F) ≡ Some base
        → (turns : ℕ) (ending : Ending)
        → (bulk_course n (setting (bulk_tables n) 3 16 F) base turns).state.ending ≡ Some ending
        → (status : Status) (text : List ℕ) (ticks : ℕ) → status ≢ Status.OutOfMemory
        → CarriesBulk n F status text ticks
        → (status ≡ ending_status ending)
        × (text ≡ course_line n (bulk_course n (setting (bulk_tables n) 3 16 F) base turns)
        ending) }
{
    the_text_stands_for_the_tables();
}

/// But for want of memory the command has one status with one text.
pub fn the_command_has_one_outcome()
    ensures one { (n F : ℕ) → IsOne (CarriesBulk n F) }
{}
