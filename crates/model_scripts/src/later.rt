//! What is not built yet is refused as if its body could not be read. These rows change with what is built.
#![tactic(auto, unfolding(bt_base::specs::Ids::same, bt_base::proofs::Turns::lex_lt))]

ghost use Rattle.std.specs.Prelude.{◌≡◌, true};
ghost use Rattle.model_scripts.specs.Scripts.{lines_of, rows_after};
ghost use Rattle.model_scripts.specs.Checks.{is_good};
ghost use Rattle.model_scripts.specs.LaterScripts as row;

/// A task with instances is not read yet, alone or in a list, whatever its id, and leaves the others as they are.
pub fn tasks_with_instances_are_not_read_yet()
    ensures lines { lines_of row.instance_tasks ≡ row.instance_tasks_lines }
    ensures rows { rows_after row.instance_tasks ≡ row.instance_tasks_rows }
    ensures good { is_good row.instance_tasks ≡ true }
{}
