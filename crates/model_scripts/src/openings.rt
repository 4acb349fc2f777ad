//! Tables that an earlier run left, and what comes of them once they are opened.
#![tactic(auto, unfolding(bt_base::specs::Ids::same, bt_base::proofs::Turns::lex_lt))]

ghost use Rattle.std.specs.Prelude.{◌≡◌, [], true};
ghost use Rattle.batch_model.specs.Variants.{empty_state};
ghost use Rattle.model_scripts.specs.Scripts.{lines_opened, rows_opened};
ghost use Rattle.model_scripts.specs.Checks.{is_good, is_good_opened};
ghost use Rattle.model_scripts.specs.OpeningScripts as row;

/// A run that was taken is withdrawn, its task is placed again on a new node, and the run's end is refused.
pub fn a_taken_run_is_made_again()
    ensures opened { rows_opened row.taken [] ≡ row.opened_rows }
    ensures lines { lines_opened row.taken row.after_taken ≡ row.after_taken_lines }
    ensures rows { rows_opened row.taken row.after_taken ≡ row.after_taken_rows }
    ensures good { is_good row.taken ≡ true }
    ensures good_opened { is_good_opened row.taken row.after_taken ≡ true }
{}

/// A pool with a start task gets new nodes, which begin it anew, whatever became of it on the old ones.
pub fn nodes_start_anew()
    ensures lines { lines_opened row.starting row.after_starting ≡ row.after_starting_lines }
    ensures rows { rows_opened row.starting row.after_starting ≡ row.after_starting_rows }
    ensures good { is_good row.starting ≡ true }
    ensures good_opened { is_good_opened row.starting row.after_starting ≡ true }
{}

/// An ending that was not settled yet is not lost.
pub fn an_ending_is_settled_after_the_opening()
    ensures { row.lines_of_unsettled row.one_tick ≡ row.settled_lines }
{}

/// A requeue is wanted of a placed task that nothing ends.
pub fn tasks_that_were_cut_short_are_requeued()
    ensures { row.wanted_opened ≡ row.all_wanted }
{}

/// A pool with a target resizes from now with its usual timeout, and a stopping one without a target is steady.
pub fn pools_are_filled_again()
    ensures { row.pools_opened ≡ row.all_pools }
{}

/// Empty tables open as empty.
pub fn empty_tables_open_as_empty()
    ensures { row.empty_opened ≡ empty_state }
{}
