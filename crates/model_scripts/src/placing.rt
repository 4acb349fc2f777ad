//! The order of placing.
#![tactic(auto, unfolding(bt_base::specs::Ids::same, bt_base::proofs::Turns::lex_lt))]

ghost use Rattle.std.specs.Prelude.{◌≡◌, true};
ghost use Rattle.model_scripts.specs.Scripts.{lines_of, rows_after};
ghost use Rattle.model_scripts.specs.Checks.{is_good};
ghost use Rattle.model_scripts.specs.PlacingScripts as row;

/// The task that was added next is placed when the first one has ended.
pub fn tasks_take_turns_on_a_node()
    ensures lines { lines_of row.turns_on_a_node ≡ row.turns_on_a_node_lines }
    ensures rows { rows_after row.turns_on_a_node ≡ row.turns_on_a_node_rows }
    ensures good { is_good row.turns_on_a_node ≡ true }
{}

/// Tasks go on the node with the lowest number that is free.
pub fn nodes_are_taken_in_order()
    ensures lines { lines_of row.nodes_in_order ≡ row.nodes_in_order_lines }
    ensures rows { rows_after row.nodes_in_order ≡ row.nodes_in_order_rows }
    ensures good { is_good row.nodes_in_order ≡ true }
{}

/// The job that was added first goes first, whichever task was.
pub fn the_earlier_job_goes_first()
    ensures lines { lines_of row.earlier_job ≡ row.earlier_job_lines }
    ensures rows { rows_after row.earlier_job ≡ row.earlier_job_rows }
    ensures good { is_good row.earlier_job ≡ true }
{}

/// A task goes on nodes of its job's pool alone.
pub fn pools_are_apart()
    ensures lines { lines_of row.apart ≡ row.apart_lines }
    ensures rows { rows_after row.apart ≡ row.apart_rows }
    ensures good { is_good row.apart ≡ true }
{}
