//! Resizes of pools.
#![tactic(auto, unfolding(bt_base::specs::Ids::same, bt_base::proofs::Turns::lex_lt))]

ghost use Rattle.std.specs.Prelude.{◌≡◌, true};
ghost use Rattle.batch_model.specs.Variants.{Steady, Resizing};
ghost use Rattle.model_scripts.specs.Scripts.{held_after, lines_of, rows_after};
ghost use Rattle.model_scripts.specs.Checks.{is_good};
ghost use Rattle.model_scripts.specs.ResizeScripts as row;

/// A pool that resizes is not resized, and its resize is stopped once. It keeps why.
pub fn a_resize_is_stopped()
    ensures lines { lines_of row.stopped ≡ row.stopped_lines }
    ensures rows { rows_after row.stopped ≡ row.eight_rows Steady 0 1 }
    ensures resizes { row.resizes_after row.stopped ≡ row.stopped_resizes }
    ensures good { is_good row.stopped ≡ true }
{}

/// A resize without a target of dedicated nodes goes on to the old one, within its own timeout and without the old error.
pub fn a_resize_keeps_its_target()
    ensures rows { rows_after row.begun_again ≡ row.eight_rows Resizing 2 2 }
    ensures resizes { row.resizes_after row.begun_again ≡ row.begun_again_resizes }
    ensures lines { lines_of row.late_again ≡ row.late_again_lines }
    ensures late { row.resizes_after row.late_again ≡ row.late_again_resizes }
    ensures good { is_good row.late_again ≡ true }
{}

/// A pool gets the nodes that it lacks, and is steady at once if it lacks none.
pub fn a_pool_grows()
    ensures lines { lines_of row.grown ≡ row.grown_lines }
    ensures rows { rows_after row.grown ≡ row.grown_rows }
    ensures good { is_good row.grown ≡ true }
{}

/// A leaving node does not count for the new target and keeps its seat, and the pool is steady once it is gone.
pub fn a_pool_grows_while_a_node_leaves()
    ensures lines { lines_of row.grown_while_leaving ≡ row.grown_while_leaving_lines }
    ensures rows { rows_after row.grown_while_leaving ≡ row.grown_while_leaving_rows }
    ensures good { is_good row.grown_while_leaving ≡ true }
{}

/// The node that holds the fewest slots leaves first, and of several such the one with the highest number.
pub fn nodes_with_fewest_slots_leave_first()
    ensures lines { lines_of row.fewest_slots ≡ row.fewest_slots_lines }
    ensures rows { rows_after row.fewest_slots ≡ row.fewest_slots_rows }
    ensures good { is_good row.fewest_slots ≡ true }
{}

/// The nodes of other pools stay.
pub fn nodes_of_other_pools_stay()
    ensures lines { lines_of row.other_pool ≡ row.other_pool_lines }
    ensures rows { rows_after row.other_pool ≡ row.other_pool_rows }
    ensures good { is_good row.other_pool ≡ true }
{}

/// Resizes, stops of resizes and deletions are refused by the state of their pool.
pub fn resizes_are_refused()
    ensures resize { row.replies_to_resize ≡ row.all_to_resize }
    ensures stop { row.replies_to_stop ≡ row.all_to_stop }
    ensures delete { row.replies_to_delete ≡ row.all_to_delete }
{}
