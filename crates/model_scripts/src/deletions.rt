//! Pools that are deleted.
#![tactic(auto, unfolding(bt_base::specs::Ids::same, bt_base::proofs::Turns::lex_lt))]

ghost use Rattle.std.specs.Prelude.{◌≡◌, [], true};
ghost use Rattle.model_scripts.specs.Scripts.{lines_of, lines_opened, rows_after, rows_opened};
ghost use Rattle.model_scripts.specs.Checks.{are_good_from, is_good, is_good_opened};
ghost use Rattle.model_scripts.specs.LeavingScripts.{marks_after};
ghost use Rattle.model_scripts.specs.DeletionScripts as row;

/// The nodes of a deleted pool leave by requeue. While one is there the pool takes no jobs and no resizes, and its id is not used again.
pub fn a_pool_is_deleted()
    ensures begun { rows_after row.being_deleted ≡ row.being_deleted_rows }
    ensures lines { lines_of row.deleted ≡ row.deleted_lines }
    ensures rows { rows_after row.deleted ≡ row.deleted_rows }
    ensures good { is_good row.deleted ≡ true }
{}

/// A pool without nodes is dropped at once.
pub fn an_empty_pool_is_deleted()
    ensures lines { lines_of row.empty_deleted ≡ row.empty_deleted_lines }
    ensures good { is_good row.empty_deleted ≡ true }
{}

/// Nodes that leave by another option leave by requeue once their pool is deleted, and it does not time out.
pub fn a_pool_is_deleted_while_nodes_leave()
    ensures marks { marks_after row.deleted_while_leaving ≡ row.deleted_while_leaving_marks }
    ensures options { row.options_after row.deleted_while_leaving ≡ row.requeue_option }
    ensures lines { lines_of row.deleted_then_ended ≡ row.deleted_then_ended_lines }
    ensures good { is_good row.deleted_then_ended ≡ true }
{}

/// The id of a pool that was deleted may be used again. The jobs that name it then have the new pool, whose nodes and runs have new numbers.
pub fn a_pool_is_added_again()
    ensures lines { lines_of row.added_again ≡ row.added_again_lines }
    ensures rows { rows_after row.added_again ≡ row.added_again_rows }
    ensures good { is_good row.added_again ≡ true }
{}

/// The formula of a pool is dropped when the pool is deleted, and its start runs and samples with the pool.
pub fn rows_of_a_pool_are_dropped()
    ensures deleting { row.pools_after row.first_deleted ≡ row.deleting_pools }
    ensures removed { row.pools_after row.first_removed ≡ row.removed_pools }
    ensures good { are_good_from (row.after_starts []) row.first_removed ≡ true }
{}

/// After an opening a pool that is being deleted has no nodes and is dropped, and one that resizes to no nodes is steady.
pub fn opened_pools_have_no_nodes()
    ensures lines { lines_opened row.leaving_both row.after_leaving_both ≡ row.after_leaving_both_lines }
    ensures rows { rows_opened row.leaving_both row.after_leaving_both ≡ row.after_leaving_both_rows }
    ensures good { is_good_opened row.leaving_both row.after_leaving_both ≡ true }
{}
