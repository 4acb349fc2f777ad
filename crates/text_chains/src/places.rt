//! The places of one text.
ghost use Rattle.std.specs.Prelude.{◌≡◌, ◌++◌, ◌<◌, [], true, filter, length, IfSome, IfNone};
ghost use Rattle.std.specs.Option.{option_to_list};
ghost use Rattle.std.specs.Iterator.{YieldsFirst, item_count};
ghost use Rattle.text_chains.specs.Chains.{has_text, placed, AreNumbers, AreWithin};

use crate::links::{Link, place_at, text_at};
use hash_index::Places as Numbers;
use std::marker::Model;

/// The places of a text, the one that was added last first. Contracts see the list of the places that are left.
#[derive(Drop)]
pub struct Places<'a> {
    /// The numbers of the links that are left with the text's hash.
    numbers: Numbers<'a>,
    links: &'a [Link],
    texts: &'a [u8],
    /// The text, where it stands among the texts of the links.
    text: &'a [u8],
    /// The place that comes before those of the numbers.
    first: Option<usize>,
}

impl<'a> Model for Places<'a> {
    ghost use Rattle.std.specs.Prelude.{ℕ, List, ◌++◌};
    ghost use Rattle.std.specs.Option.{option_to_list};
    ghost use Rattle.text_chains.specs.Chains.{placed, AreNumbers, AreWithin};

    ghost Value = { List ℕ };

    ghost view = { λ p. option_to_list p.first ++ placed p.links.now p.texts.now p.text.now p.numbers };

    ghost invariant = { λ p. AreNumbers p.links.now p.numbers × AreWithin p.links.now p.texts.now };
}

/// The next of the numbers whose link has this text.
fn next_with(numbers: &mut Numbers<'_>, links: &[Link], texts: &[u8], text: &[u8]) -> Option<usize>
    requires numbers { AreNumbers links.now numbers.old }
    requires within { AreWithin links.now texts.now }
    ensures numbers { AreNumbers links.now numbers.new }
    ensures number { IfSome result (λ number. number < length links.now) }
    ensures has { IfSome result (λ number. has_text links.now texts.now text.now number ≡ true) }
    ensures ended { IfNone result (numbers.new ≡ []) }
    ensures found { filter (has_text links.now texts.now text.now) numbers.old ≡ option_to_list result ++ filter (has_text links.now texts.now text.now) numbers.new }
{
    while let Some(number) = numbers.next() {
        if text_at(links, texts, number) == text {
            return Some(number);
        }
    }
    None
}

/// The places of the links with these numbers that have this text.
pub fn places_from<'a>(
    numbers: Numbers<'a>,
    links: &'a [Link],
    texts: &'a [u8],
    text: &[u8],
) -> Places<'a>
    requires numbers { AreNumbers links.now numbers }
    requires within { AreWithin links.now texts.now }
    ensures { result ≡ placed links.now texts.now text.now numbers.entry }
{
    let mut numbers = numbers;
    match next_with(&mut numbers, links, texts, text) {
        None => Places {
            numbers,
            links,
            texts,
            text: &[],
            first: None,
        },
        Some(number) => Places {
            numbers,
            links,
            texts,
            text: text_at(links, texts, number),
            first: Some(place_at(links, number)),
        },
    }
}

impl<'a> Iterator for Places<'a> {
    type Item = usize;

    ghost next_gives = { YieldsFirst (λ places. places) };

    ghost remaining = { item_count (λ places. places) };

    fn next(&mut self) -> Option<usize> {
        if let Some(place) = self.first.take() {
            return Some(place);
        }
        let number = next_with(&mut self.numbers, self.links, self.texts, self.text)?;
        Some(place_at(self.links, number))
    }
}
