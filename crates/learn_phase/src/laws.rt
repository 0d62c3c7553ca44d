//! Laws of the definitions that the contracts speak of. The function does nothing; its contract is the law.

ghost use Rattle.std.specs.Prelude.{◌≡◌};
ghost use Rattle.graph_file.specs.declared.job.Need.{Need};
ghost use Rattle.graph_file.specs.Says.{FileForm};
ghost use Rattle.learn_phase.specs.LearnedSets.{LearnedSets, Lesson};

use graph_eval::{one_fresh, one_length};

/// What a file says has at most one lesson.
pub fn one_lesson()
    ensures { (need : Need) (form : FileForm) (a b : Lesson) → LearnedSets need form a → LearnedSets need form b → a ≡ b }
{
    one_fresh();
    one_length();
}
