//! The statements on the tables of a file.
use sqlite::{Alter, Connection, Error, Statement};

/// All rows of each kind, in order of adding.
const ROWS: &str = "SELECT kind, key, body FROM batch_row ORDER BY kind, place";

/// All numbers beside the rows.
const METAS: &str = "SELECT name, value FROM batch_meta ORDER BY name";

/// The greatest place of a row; NULL if there are no rows.
const LAST_PLACE: &str = "SELECT max(place) FROM batch_row";

/// Puts a row; one whose key is there keeps its place. It returns the place that the row has.
const PUT_ROW: &str =
    "INSERT INTO batch_row(kind, key, place, body) VALUES (?1, ?2, ?3, ?4) ON CONFLICT(kind, key) DO UPDATE SET body = excluded.body RETURNING place";

/// Sets a number beside the rows.
const PUT_META: &str =
    "INSERT INTO batch_meta(name, value) VALUES (?1, ?2) ON CONFLICT(name) DO UPDATE SET value = excluded.value";

/// Drops a row.
const DROP_ROW: &str = "DELETE FROM batch_row WHERE kind = ?1 AND key = ?2";

/// The statements that read, prepared.
pub struct Reads {
    /// Returns all rows: kind, key, body.
    pub rows: Statement,
    /// Returns all numbers beside the rows: name, value.
    pub metas: Statement,
    /// Returns the greatest place of a row.
    pub last_place: Statement,
}

impl Drop for Reads {
    fn drop(self) {
        let Reads {
            rows: _rows,
            metas: _metas,
            last_place: _last_place,
        } = self;
    }
}

/// The statements that write, prepared.
pub struct Writes {
    /// Puts a row of a kind, a key, a place and a body, and returns the place that it has.
    pub put_row: Statement,
    /// Sets the number of a name.
    pub put_meta: Statement,
    /// Drops the row of a kind and a key.
    pub drop_row: Statement,
}

impl Drop for Writes {
    fn drop(self) {
        let Writes {
            put_row: _put_row,
            put_meta: _put_meta,
            drop_row: _drop_row,
        } = self;
    }
}

/// The statements, prepared.
pub struct Statements {
    /// Those that read.
    pub reads: Reads,
    /// Those that write.
    pub writes: Writes,
}

impl Drop for Statements {
    fn drop(self) {
        let Statements {
            reads: _reads,
            writes: _writes,
        } = self;
    }
}

// it has no clause, so that the proofs of its callers do not carry those of the kit's call
fn prepare<S: Alter>(connection: &mut Connection<S>, sql: &str) -> Result<Statement, Error> {
    connection.prepare(sql)
}

/// Prepares the statements that read.
fn prepare_reads<S: Alter>(connection: &mut Connection<S>) -> Result<Reads, Error> {
    Ok(Reads {
        rows: prepare(connection, ROWS)?,
        metas: prepare(connection, METAS)?,
        last_place: prepare(connection, LAST_PLACE)?,
    })
}

/// Prepares the statements that write.
fn prepare_writes<S: Alter>(connection: &mut Connection<S>) -> Result<Writes, Error> {
    Ok(Writes {
        put_row: prepare(connection, PUT_ROW)?,
        put_meta: prepare(connection, PUT_META)?,
        drop_row: prepare(connection, DROP_ROW)?,
    })
}

/// Prepares the statements.
pub fn prepare_all<S: Alter>(connection: &mut Connection<S>) -> Result<Statements, Error> {
    let reads = prepare_reads(connection)?;
    let writes = prepare_writes(connection)?;
    Ok(Statements { reads, writes })
}
