//! A test of tables: rows are found by their keys.
ghost use Rattle.std.specs.Prelude.{[], ◌∷◌, refl};
ghost use Rattle.std.specs.Str.{bytes_eq};
ghost use Rattle.bt_base.specs.Ids.{lowered};

use bt_base::{NoMemory, Shared};
use kept_table::{KeyText, Keyed, Table};
use std::alloc::Global;
use std::test::Fail as TestFail;

/// A row whose key is a letter, without regard to case.
#[derive(Debug, Drop)]
struct Score {
    letter: u8,
    points: u64,
}

impl Keyed for Score {
    type Key = u8;

    ghost has_key = { λ letter score. bytes_eq (lowered (score.letter ∷ [])) (lowered (letter ∷ [])) };

    ghost same_key = { λ score other. bytes_eq (lowered (score.letter ∷ [])) (lowered (other.letter ∷ [])) };

    ghost key_text = { λ letter. lowered (letter ∷ []) };

    ghost row_text = { λ score. lowered (score.letter ∷ []) };

    ghost texts_decide = { record { has = λ letter score. refl; same = λ score other. refl } };

    fn key_text(letter: &u8) -> KeyText {
        let mut text = KeyText::new();
        text.push_lowered(&[*letter]);
        text
    }

    fn row_text(&self) -> KeyText {
        Self::key_text(&self.letter)
    }
}

fn scores(alloc: Global) -> Result<Table<Shared<Score>>, NoMemory> {
    let mut table = Table::new(alloc);
    for (letter, points) in [(b'a', 1), (b'b', 2), (b'c', 3), (b'B', 20)] {
        table.reserve(1)?;
        table.put(Shared::new(alloc, Score { letter, points })?);
    }
    Ok(table)
}

fn points_of(table: &Table<Shared<Score>>, letter: u8) -> Option<u64> {
    table.find_shared(&letter).map(|score| score.points)
}

#[test]
fn rows_are_found_by_their_keys(rt: HostRuntime) -> Result<(), TestFail> {
    let mut table = scores(rt.alloc())?;
    assert_eq!(rt; points_of(&table, b'b'), Some(20));
    assert_eq!(rt; table.place_of(&b'C'), Some(2));
    assert!(rt; matches!(table.shared_at(1), Some(score) if score.points == 20));
    assert!(rt; matches!(table.copy()?.rows().next(), Some(score) if score.letter == b'a'));
    table.drop_by_key(&b'A');
    table.drop_by_key(&b'b');
    assert_eq!(rt; points_of(&table, b'b'), None);
    assert_eq!(rt; table.place_of(&b'c'), Some(2));
    table.reserve(1)?;
    assert_eq!(rt; table.place_of(&b'c'), Some(0));
    assert_eq!(rt; table.place_count(), 1);
    Ok(())
}
