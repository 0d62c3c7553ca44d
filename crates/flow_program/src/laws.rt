//! Laws of the definitions that the contracts speak of. Each function does nothing; its contract is the law.

ghost use Rattle.std.specs.Prelude.{◌≡◌, ℕ, List, Some};
ghost use Rattle.graph_file.specs.Says.{FileForm};
ghost use Rattle.graph_eval.specs.declared.learned.GraphLearned.{GraphLearned};
ghost use Rattle.flow_program.specs.Answer.{Answer};
ghost use Rattle.flow_program.specs.Jobs.{IsLearned, LearnedAnswer};
ghost use Rattle.flow_program.specs.Run.{Files, RunAnswer, bytes_of};
ghost use Rattle.flow_program.specs.Tasks.{task_of};
ghost use Rattle.flow_program.specs.Words.{Request, asked};

use graph_eval::one_outcome;
use graph_file::{no_fault, one_fault, one_form};
use learn_phase::one_lesson;
use reconstruction::one_finding;

/// Words and files have at most one answer: one status, one out and one err.
pub fn one_answer()
    ensures { (words : List (List ℕ)) (files : Files) (a b : Answer) → RunAnswer words files a → RunAnswer words files b → a ≡ b }
{
    one_outcome();
    one_lesson();
    one_fault();
    no_fault();
    one_form();
    one_finding();
}

/// Where admitted words name a file that is a job whose graphs are learned, the answer is that of what was learned.
pub fn learned_files_are_answered()
    ensures { (words : List (List ℕ)) (wish : Request) (files : Files) (form : FileForm) (learned : List GraphLearned) (answer : Answer) → asked words ≡ Some wish →
        IsLearned (task_of wish) (bytes_of wish files) form learned → RunAnswer words files answer → LearnedAnswer (task_of wish) form learned answer }
{
    one_lesson();
    no_fault();
    one_form();
}
