//! Laws of labellings. Each function's contract is the law; none does anything.
ghost use Rattle.std.specs.Prelude.{◌≡◌, ℕ, List};
ghost use Rattle.bz_model.specs.declared.cell.Cell.{Cell};
ghost use Rattle.choice_draw.specs.Draw.{Bit};
ghost use Rattle.labelling.specs.LabelsByBits.{Labelling, labelling};
ghost use Rattle.labelling.specs.Answer.{AreIdealLabels};
ghost use Rattle.labelling.specs.Spelled.{LabellingsSpell, LabelsAreDrawnAgain};

/// Labels that bits give are ideal: for every list of numbers in their cells ideal labelling gives
/// them, and they are 1 to n in some order.
pub fn labels_by_bits_are_ideal()
    ensures { (bit : ℕ → Bit) (n place : ℕ) (labels : List ℕ) (cells : List Cell) (end : ℕ)
        → labelling bit n place ≡ Labelling.Given labels cells end
        → AreIdealLabels n labels cells }
{}

/// The bits that a labelling used are those that its cells spell, in order, each of which is a
/// cell; after them stand those of a number that was left open, where one was.
pub fn a_labelling_spells_its_bits()
    ensures { LabellingsSpell }
{}

/// Labels are drawn again from the bits that their cells spell, wherever these are.
pub fn labels_come_again_from_their_cells()
    ensures { LabelsAreDrawnAgain }
{}
