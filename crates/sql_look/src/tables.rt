//! The tables of a store.
use sqlite::{Alter, Connection, Error};

/// The tables, made together. `kind` is the number of a kind of rows, `place` the order of adding, and `body` the text of a row.
const TABLES: &str =
    "BEGIN; CREATE TABLE IF NOT EXISTS batch_row(kind INTEGER NOT NULL, key TEXT NOT NULL, place INTEGER NOT NULL, body TEXT NOT NULL, PRIMARY KEY(kind, key)); CREATE TABLE IF NOT EXISTS batch_meta(name TEXT PRIMARY KEY, value INTEGER NOT NULL); COMMIT";

/// Makes the tables that are not there. After an error the connection may be in a transaction, and has to be dropped.
pub fn make_tables<S: Alter>(connection: &mut Connection<S>) -> Result<(), Error> {
    connection.execute_batch(TABLES)
}
