//! Examples of the rules by which lines are read: the crate is proved only if they hold.
//! specs/Worked.antt lists them.
ghost use Rattle.script.specs.Worked.{WorkedCalls, WorkedOthers, WorkedRefusals};

/// Lines, what they say, and lines that say nothing.
#[tactic(auto, unfolding(crate::specs::Words::code_of, crate::specs::Words::first_word, crate::specs::Words::past_word, crate::specs::Numbers::number_of, crate::specs::Numbers::bytes_of, crate::specs::Lines::numbers_of, crate::specs::Lines::call_of, crate::specs::Lines::question_of, crate::specs::Lines::named_meaning))]
pub fn worked_lines_hold()
    ensures calls { WorkedCalls }
    ensures others { WorkedOthers }
    ensures refusals { WorkedRefusals }
{}
