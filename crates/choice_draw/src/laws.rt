//! Laws of draws. Each function's contract is the law; it does nothing.
ghost use Rattle.std.specs.Prelude.{ℕ, Option};
ghost use Rattle.bz_model.specs.declared.cell.Cell.{Cell};
ghost use Rattle.choice_draw.specs.Decision.{Choice};
ghost use Rattle.choice_draw.specs.LeastCell.{DrawsLeast, LeastIsDrawn, DrawsSpell};

/// The cell of an answer is that of the least number of bits that decides: it spells the tape's
/// bits from the draw's start on and decides the answer, and the cell of fewer of its bits decides
/// none.
pub fn a_draw_takes_the_least_cell()
    ensures wholes { (decide : Cell → Option ℕ) → DrawsLeast decide }
    ensures choices { (decide : Cell → Option Choice) → DrawsLeast decide }
{}

/// A cell that is that of the least number of bits that decides is drawn: its bits, from whatever
/// place of a tape on, give its answer and this cell, if the shelf doesn't fail within them.
pub fn the_least_cell_is_drawn()
    ensures wholes { (decide : Cell → Option ℕ) → LeastIsDrawn decide }
    ensures choices { (decide : Cell → Option Choice) → LeastIsDrawn decide }
{}

/// The bits that a draw used are those that its cell spells, which is a cell, and 60 where it
/// straddles; where the tape's end or its shelf cut the draw short, they are fewer than 60.
pub fn a_draw_spells_its_bits()
    ensures wholes { (decide : Cell → Option ℕ) → DrawsSpell decide }
    ensures choices { (decide : Cell → Option Choice) → DrawsSpell decide }
{}
