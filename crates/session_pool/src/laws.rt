//! A law of pools. The function's contract is the law; it does nothing but call another.
ghost use Rattle.std.specs.Prelude.{◌≡◌, IsSome};
ghost use Rattle.session_pool.specs.Interleaving.{AreAlikeWhere};

use size_window::laws::a_told_trace_is_the_course_of_its_tape;

/// The order of turns leaves each drawing alike.
///
/// Two pools over the same tapes made turns, in any two orders. The bits of one of the tapes are
/// told, and the drawing over it ended with a failed read in neither pool. Then its drawing in the
/// one is like that in the other: it has the same state, used as many bits, kept the same objects
/// in the same order and counted as many atoms, if both orders name it equally often, and also if
/// it ended in both.
pub fn the_order_of_turns_leaves_each_drawing_alike()
    ensures named { AreAlikeWhere (λ times other_times m n. times ≡ other_times) }
    ensures ended { AreAlikeWhere (λ times other_times m n.
        IsSome m.drawing.ending × IsSome n.drawing.ending) }
{
    a_told_trace_is_the_course_of_its_tape();
}
