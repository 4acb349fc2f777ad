//! Which rule tables break, and the row that breaks it.
use crate::row_name::{RowName, RowRef};
use bt_base::NoMemory;
use std::fmt;

/// A rule of well-formed tables that is broken.
#[derive(Clone, Copy, Debug, PartialEq, Eq)]
pub enum Rule {
    /// The last moment is in the year 9999 or before.
    Moment,
    /// Values are in their ranges, and moments not after the last one.
    Values,
    /// There are at most 64 pools, 10,000 jobs and 1,000,000 tasks.
    Counts,
    /// The numbers of the next node and of the next run are from 1 to their limits.
    Counters,
    /// The number of a node or run, and the number of the node that a row names, is below that of the next one.
    Numbers,
    /// The marks of a task fit its stage.
    Marks,
    /// Exactly the completed tasks are closed.
    Closing,
    /// A task has had fewer attempts than runs were made.
    Attempts,
    /// No two rows of a kind have the same key.
    Keys,
    /// The failures of a start task or a preparation, with its unended runs, are fewer than the runs that were made.
    Tries,
    /// The job that a row names has a row.
    Job,
    /// The task that a run names has a row, and has had the attempt of the run.
    Task,
    /// An attempt has one main run at most.
    MainRun,
    /// A job that is disabled, enabling or completed has no placed task.
    QuietJob,
    /// A pool that is being deleted resizes to no nodes, and does not scale.
    Deleting,
    /// The pool that a row names has a row.
    Pool,
    /// The label of a sample is a multiple of 30 seconds.
    Label,
    /// The labels of a pool's metric rise.
    LabelOrder,
    /// A sample is not after the last one of its pool's active tasks, but for those of the processors' metric.
    LabelCover,
    /// At most 2,880 samples of a pool's metric are kept.
    SampleCount,
    /// Another rule.
    Other,
}

impl fmt::Display for Rule {
    /// What is broken, in one line.
    fn fmt<W: fmt::Write>(&self, f: &mut fmt::Formatter<W>) -> fmt::Result {
        f.write_str(match self {
            Rule::Moment => "the last moment is after the year 9999",
            Rule::Values => "a value is out of its range, or a moment is after the last one",
            Rule::Counts => "there are more than 64 pools, 10,000 jobs or 1,000,000 tasks",
            Rule::Counters => "the number of the next node or run is out of its range",
            Rule::Numbers => "the number of a node or run is not below that of the next one",
            Rule::Marks => "the marks of a task do not fit its stage",
            Rule::Closing => "a task is completed and not closed, or closed and not completed",
            Rule::Attempts => "a task has had more attempts than runs were made",
            Rule::Keys => "two rows of a kind have the same key",
            Rule::Tries => "failures and unended runs are more than the runs that were made",
            Rule::Job => "the job that a row names has no row",
            Rule::Task => "the task that a run names has no row, or has not had its attempt",
            Rule::MainRun => "an attempt has two main runs",
            Rule::QuietJob => "a disabled, enabling or completed job has a placed task",
            Rule::Deleting => "a pool that is being deleted scales, or does not resize to no nodes",
            Rule::Pool => "the pool that a row names has no row",
            Rule::Label => "the label of a sample is not a multiple of 30 seconds",
            Rule::LabelOrder => "the labels of a pool's metric do not rise",
            Rule::LabelCover => "a sample is after the last one of its pool's active tasks",
            Rule::SampleCount => "more than 2,880 samples of a pool's metric are kept",
            Rule::Other => "the tables are not well formed",
        })
    }
}

/// A rule that is broken, and the row that breaks it.
#[derive(Clone, Copy)]
pub struct Broken<'a> {
    /// The rule.
    pub rule: Rule,
    /// The row; None if no single row breaks the rule.
    pub row: Option<RowRef<'a>>,
}

impl<'a> Broken<'a> {
    /// The rule is broken by the row, if there is one.
    pub fn by(rule: Rule, row: Option<RowRef<'a>>) -> Option<Broken<'a>> {
        match row {
            None => None,
            Some(_) => Some(Broken { rule, row }),
        }
    }

    /// The rule is broken by no single row, unless it is kept.
    pub fn unless(is_kept: bool, rule: Rule) -> Option<Broken<'a>> {
        if is_kept {
            None
        } else {
            Some(Broken { rule, row: None })
        }
    }
}

/// Why tables are not well formed: a rule, and a row that breaks it.
#[derive(Debug, Drop)]
pub struct TablesFault {
    /// The rule that is broken.
    pub rule: Rule,
    /// The first row that breaks it; None if no single row does.
    pub row: Option<RowName>,
}

impl TablesFault {
    /// The same, with the name of the row. The only error is out of memory.
    pub(crate) fn of(broken: Broken<'_>) -> Result<TablesFault, NoMemory> {
        let row = match broken.row {
            None => None,
            Some(row) => Some(row.name()?),
        };
        Ok(TablesFault {
            rule: broken.rule,
            row,
        })
    }
}

impl fmt::Display for TablesFault {
    /// One line: the rule, and the row.
    fn fmt<W: fmt::Write>(&self, f: &mut fmt::Formatter<W>) -> fmt::Result {
        let rule = self.rule;
        match &self.row {
            None => write!(f, "{rule}"),
            Some(row) => write!(f, "{rule}: {row}"),
        }
    }
}
