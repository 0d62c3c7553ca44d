//! A run that meets each premise under which a function is printed.

ghost use Rattle.flow_program.specs.Example.{Exhibits, example_files, example_text, example_words};
ghost use Rattle.flow_program.specs.Jobs.{success};
ghost use Rattle.flow_program.specs.Run.{ModuliArePrime, RunAnswer};

use graph_file::said_bounds;
use output_result::quotient_is_found;
use ray_grid::attempts_have_points;
use reconstruction::functions_are_printed;

/// The premises of the promise that a quotient is printed can be met, where both moduli are prime: words and a file exhibit
/// a run that meets them, whose output is told word for word.
pub fn worked_example()
    ensures exhibits { ModuliArePrime → Exhibits example_words example_files }
    ensures text { ModuliArePrime → RunAnswer example_words example_files (success example_text) }
{
    said_bounds();
    attempts_have_points();
    quotient_is_found();
    functions_are_printed();
}
