//! Words in which texts stand for names.
ghost use Rattle.std.specs.Prelude.{◌≡◌, ◌++◌, ◌<◌, length, map, nat_eq, IfOk, OnOk};
ghost use Rattle.std.specs.List.{starts_with};
ghost use Rattle.child_words.specs.Filling.{Named, name_at, put_for, fill_word};
ghost use Rattle.child_words.specs.Names.{name_text};

use crate::names::{Name, Names};
use bt_base::{NoMemory, Word};
use std::alloc::Global;

/// All names.
const NAMES: [Name; 6] = [
    Name::PoolId,
    Name::NodeId,
    Name::JobId,
    Name::TaskId,
    Name::NodeList,
    Name::IsMaster,
];

/// Whether the bytes begin with the name.
fn begins(bytes: &[u8], name: Name) -> bool
    ensures { result ≡ starts_with nat_eq bytes.now (name_text name) }
{
    bytes.starts_with(name.text().as_bytes())
}

/// The name that the bytes begin with; None if there is none.
fn name_at(bytes: &[u8]) -> Option<Name>
    ensures { result ≡ name_at bytes.now }
{
    NAMES.iter().copied().find(|name| begins(bytes, *name))
}

/// Adds the text that stands for the name, or else the name itself.
fn push_named(filled: &mut Vec<u8>, names: &Names, name: Name) -> Result<(), NoMemory>
    ensures { OnOk result (filled.new.items ≡ filled.old.items ++ put_for names.now (Named name)) }
{
    match names.get(name) {
        Some(text) => filled.extend_from_slice(text.as_str().as_bytes())?,
        None => filled.extend_from_slice(name.text().as_bytes())?,
    }
    Ok(())
}

/// Adds what stands for the first part of the bytes, and returns the bytes after that part.
fn push_part<'a>(filled: &mut Vec<u8>, names: &Names, bytes: &'a [u8]) -> Result<&'a [u8], NoMemory>
    requires { 0 < length bytes.now }
    ensures shorter { IfOk result (λ rest. length rest.now < length bytes.now) }
    ensures filled { IfOk result (λ rest. filled.new.items ++ fill_word names.now rest.now ≡ filled.old.items ++ fill_word names.now bytes.now) }
{
    match name_at(bytes) {
        None => {
            filled.push(bytes[0])?;
            Ok(&bytes[1..])
        }
        Some(name) => {
            push_named(filled, names, name)?;
            Ok(&bytes[name.text().len()..])
        }
    }
}

/// The word with texts in the place of names.
fn fill_word(alloc: Global, word: &Word, names: &Names) -> Result<Word, NoMemory>
    ensures { IfOk result (λ filled. filled ≡ fill_word names.now word.now) }
{
    let mut filled = Vec::new(alloc);
    let mut rest = word.as_bytes();
    while !rest.is_empty() {
        rest = push_part(&mut filled, names, rest)?;
    }
    Ok(Word::new(filled))
}

/// The words with texts in the place of names (Azure Batch documentation: environment variables of tasks). In each word the names
/// `$AZ_BATCH_POOL_ID`, `$AZ_BATCH_NODE_ID`, `$AZ_BATCH_JOB_ID`, `$AZ_BATCH_TASK_ID`, `$AZ_BATCH_NODE_LIST` and
/// `$AZ_BATCH_IS_CURRENT_NODE_MASTER` are replaced from the left, also inside of longer words. A name without a text stays, and the
/// texts are not looked at again. It fails only when out of memory.
pub fn fill(alloc: Global, words: &[Word], names: &Names) -> Result<Vec<Word>, NoMemory>
    ensures { IfOk result (λ filled. filled.items ≡ map (fill_word names.now) words.now) }
{
    let mut filled = Vec::new(alloc);
    for word in words {
        filled.push(fill_word(alloc, word, names)?)?;
    }
    Ok(filled)
}
