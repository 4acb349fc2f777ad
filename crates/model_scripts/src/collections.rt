//! Collections of tasks that are added at once.
#![tactic(auto, unfolding(bt_base::specs::Ids::same, bt_base::proofs::Turns::lex_lt))]

ghost use Rattle.std.specs.Prelude.{◌≡◌, true};
ghost use Rattle.model_scripts.specs.Scripts.{lines_of, rows_after};
ghost use Rattle.model_scripts.specs.Checks.{is_good};
ghost use Rattle.model_scripts.specs.CollectionScripts as row;

/// Of a collection each task is added or refused by itself, after those before it. An element is named as it came, and
/// its row names the job as the job spells itself.
pub fn each_element_is_answered()
    ensures lines { lines_of row.second_refused ≡ row.second_refused_lines }
    ensures rows { rows_after row.second_refused ≡ row.second_refused_rows }
    ensures good { is_good row.second_refused ≡ true }
{}

/// A collection has at most 100 elements, and may have none.
pub fn at_most_100_elements()
    ensures taken { row.reply_to_as_many 100 ≡ row.one_of_so_many 99 }
    ensures refused { row.reply_to_as_many 101 ≡ row.is_too_long }
    ensures empty { row.reply_to_as_many 0 ≡ row.nothing_added }
    ensures after { row.after_too_long ≡ row.job_alone_later }
{}

/// The job is looked for before its state, and its state before the number of elements.
pub fn collections_are_refused_in_order()
    ensures missing { row.reply_in_missing_job ≡ row.is_missing_job }
    ensures past { row.reply_in_past_job ≡ row.is_past_job }
    ensures states { row.replies_by_job_state ≡ row.all_by_job_state }
{}

/// The ids that a task depends on have at most 64,000 characters together. That the task is there goes before.
pub fn dependency_lists_are_not_too_long()
    ensures { row.reply_to_long_needs ≡ row.all_long_needs }
{}
