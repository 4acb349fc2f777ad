//! Automatic scaling of pools.
ghost use Rattle.kept_table.specs.Keys.{id_text};
ghost use Rattle.bt_rows.specs.Keys.{scale_has_pool, same_scale};
ghost use Rattle.bt_rows.specs.Texts.{scale_text, scale_by_text, same_scale_by_text};

use bt_base::{Duplicate, Id, NoMemory, Text};
use kept_table::{KeyText, Keyed};

/// How a pool scales automatically. Its key is the pool.
pub struct ScaleRow {
    /// The id of the pool.
    pub pool: Id,
    /// The formula, at most 8,192 bytes (Azure: autoScaleFormula).
    pub formula: Text,
    /// The time between evaluations, in milliseconds, 300,000 to 604,800,000 (Azure: autoScaleEvaluationInterval).
    pub interval: u64,
    /// When the formula is to be evaluated next, in milliseconds since 1970 (this project's own).
    pub next: u64,
    /// What the last evaluation gave, results or error; None if there was none (Azure: autoScaleRun).
    pub last: Option<Text>,
}

impl Drop for ScaleRow {
    fn drop(self) {
        let ScaleRow {
            pool: _pool,
            formula: _formula,
            interval: _interval,
            next: _next,
            last: _last,
        } = self;
    }
}

impl Duplicate for ScaleRow {
    fn copy(&self) -> Result<ScaleRow, NoMemory> {
        let pool = self.pool.copy()?;
        let formula = self.formula.copy()?;
        let last = self.last.clone()?;
        Ok(ScaleRow {
            pool,
            formula,
            interval: self.interval,
            next: self.next,
            last,
        })
    }
}

impl Keyed for ScaleRow {
    type Key = Id;

    ghost has_key = { scale_has_pool };

    ghost same_key = { same_scale };

    ghost key_text = { id_text };

    ghost row_text = { scale_text };

    ghost texts_decide = { record { has = scale_by_text; same = same_scale_by_text } };

    fn key_text(pool: &Id) -> KeyText {
        KeyText::of_id(pool)
    }

    fn row_text(&self) -> KeyText {
        KeyText::of_id(&self.pool)
    }
}
