//! What the schema of a file says that it is.
use crate::error::{ForeignFile, OpenError};
use bt_base::Text;
use sqlite::types::ValueRef;
use sqlite::{Alter, Connection, Row};

/// Each object of the schema: its name, the name of its table, and its text, which an automatic index does not have.
const OBJECTS: &str = "SELECT name, tbl_name, sql FROM sqlite_schema";

/// The tables of a store, each with what its text has after the first parenthesis.
const TABLES: [(&str, &str); 2] = [
    (
        "batch_row",
        "kind INTEGER NOT NULL, key TEXT NOT NULL, place INTEGER NOT NULL, body TEXT NOT NULL, PRIMARY KEY(kind, key))",
    ),
    (
        "batch_meta",
        "name TEXT PRIMARY KEY, value INTEGER NOT NULL)",
    ),
];

/// What the tables of a file are.
#[derive(Debug, Drop)]
pub enum Content {
    /// No tables, or some of a store's: those that are missing can be made.
    Unfinished,
    /// The tables of a store, and nothing else.
    Store,
    /// Something that no store has.
    Foreign(ForeignFile),
}

/// The text in the column; None if it has none.
fn text_at(row: &Row, column: usize) -> Result<Option<Text>, OpenError> {
    match row.get_ref(column) {
        Ok(ValueRef::Text(_)) => match row.get::<String>(column) {
            Ok(text) => Ok(Some(Text::of_string(text)?)),
            Err(error) => Err(OpenError::of_sql(error)),
        },
        _ => Ok(None),
    }
}

/// The columns of the table of a store with this name; None if no store has it.
fn columns_of(name: &str) -> Option<&'static str> {
    TABLES
        .iter()
        .find(|table| table.0 == name)
        .map(|table| table.1)
}

/// What an object of the schema is.
enum Object {
    /// A table of a store.
    Table,
    /// An index that SQL made for a table of a store.
    Automatic,
    /// What no store has.
    Foreign(ForeignFile),
}

/// What the object with this name and text is.
fn object_of_text(name: Text, text: &str) -> Object {
    let Some(columns) = columns_of(name.as_str()) else {
        return Object::Foreign(ForeignFile::Object(name));
    };
    match text.split_once('(') {
        Some((_, own)) if own == columns => Object::Table,
        _ => Object::Foreign(ForeignFile::Columns(name)),
    }
}

/// What the object of this row is. A row without a name is of a damaged schema.
fn object_of(row: &Row) -> Result<Object, OpenError> {
    let Some(name) = text_at(row, 0)? else {
        return Ok(Object::Foreign(ForeignFile::Unreadable));
    };
    if let Some(text) = text_at(row, 2)? {
        return Ok(object_of_text(name, text.as_str()));
    }
    match text_at(row, 1)? {
        Some(table) if columns_of(table.as_str()).is_some() => Ok(Object::Automatic),
        _ => Ok(Object::Foreign(ForeignFile::Object(name))),
    }
}

/// What the tables of the file are.
pub fn content_of<S: Alter>(connection: &mut Connection<S>) -> Result<Content, OpenError> {
    let rows = match connection.query_all(OBJECTS, &[]) {
        Ok(rows) => rows,
        Err(error) => return Err(OpenError::of_sql(error)),
    };
    let mut count = 0usize;
    for row in rows {
        match object_of(&row)? {
            Object::Table => count = count.saturating_add(1),
            Object::Automatic => {}
            Object::Foreign(foreign) => return Ok(Content::Foreign(foreign)),
        }
    }
    if count == TABLES.len() {
        Ok(Content::Store)
    } else {
        Ok(Content::Unfinished)
    }
}
