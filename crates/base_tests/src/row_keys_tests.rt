//! A test of keys of rows: they are counted and compared.
ghost use Rattle.std.specs.Prelude.{Some, None, [], ◌∷◌, nat_lt, refl, if◌then◌else◌};
ghost use Rattle.std.specs.Str.{bytes_eq};
ghost use Rattle.bt_base.specs.Ids.{lowered};
ghost use Rattle.kept_table.specs.Keys.{number_text};

use bt_base::{List, NoMemory, Shared};
use kept_table::{KeyText, Keyed, Table};
use row_keys::{RowKey, are_distinct, are_own_keys_distinct, count_keys, key_of_text};
use std::alloc::Global;
use std::test::Fail as TestFail;

/// A row whose key is a letter, without regard to case.
#[derive(Debug, Drop)]
struct Score {
    letter: u8,
    points: u64,
}

impl Keyed for Score {
    type Key = u8;

    ghost has_key = { λ letter score. bytes_eq (lowered (score.letter ∷ [])) (lowered (letter ∷ [])) };

    ghost same_key = { λ score other. bytes_eq (lowered (score.letter ∷ [])) (lowered (other.letter ∷ [])) };

    ghost key_text = { λ letter. lowered (letter ∷ []) };

    ghost row_text = { λ score. lowered (score.letter ∷ []) };

    ghost texts_decide = { record { has = λ letter score. refl; same = λ score other. refl } };

    fn key_text(letter: &u8) -> KeyText {
        let mut text = KeyText::new();
        text.push_lowered(&[*letter]);
        text
    }

    fn row_text(&self) -> KeyText {
        Self::key_text(&self.letter)
    }
}

/// The points of a row that has some.
struct Points;

impl RowKey for Points {
    type Row = Score;

    ghost key = { λ score. if nat_lt 0 score.points then Some (number_text score.points) else None };

    fn key(alloc: Global, score: &Score) -> Result<Option<List<u8>>, NoMemory> {
        if score.points > 0 {
            Ok(Some(key_of_text(alloc, &KeyText::of_number(score.points))?))
        } else {
            Ok(None)
        }
    }
}

fn scores(alloc: Global, points: [u64; 3]) -> Result<Table<Shared<Score>>, NoMemory> {
    let mut table = Table::new(alloc);
    for (letter, points) in [(b'a', points[0]), (b'b', points[1]), (b'c', points[2])] {
        table.reserve(1)?;
        table.put(Shared::new(alloc, Score { letter, points })?);
    }
    Ok(table)
}

#[test]
fn keys_are_counted_and_compared(rt: HostRuntime) -> Result<(), TestFail> {
    let alloc = rt.alloc();
    let alike = scores(alloc, [5, 0, 5])?;
    let counts = count_keys::<Points>(alloc, alike.rows())?;
    assert_eq!(rt; counts.count(KeyText::of_number(5).as_slice()), 2);
    assert_eq!(rt; counts.count(KeyText::of_number(0).as_slice()), 0);
    assert!(rt; !are_distinct::<Points>(alloc, alike.rows())?);
    assert!(rt; are_own_keys_distinct(alloc, alike.rows())?);
    let others = scores(alloc, [0, 0, 5])?;
    assert!(rt; are_distinct::<Points>(alloc, others.rows())?);
    Ok(())
}
