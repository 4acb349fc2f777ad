//! The links, and the bytes of their texts. The texts stand one after the other.
ghost use Rattle.std.specs.Prelude.{◌≡◌, ◌<◌, ◌≤◌, length};
ghost use Rattle.text_chains.specs.Chains.{place_at, text_start, text_at, AreWithin};

/// The most bytes that a text has.
pub const MOST_BYTES: usize = 137;

/// A place of a text.
#[derive(Clone, Copy, Debug)]
pub struct Link {
    pub place: usize,
    /// Where the text ends among the bytes of all texts. It begins where that of the link before it ends.
    pub text_end: usize,
}

/// The place of the link with this number.
pub fn place_at(links: &[Link], number: usize) -> usize
    requires { number < length links.now }
    ensures { result ≡ place_at links.now number }
{
    links[number].place
}

/// Where the text of the link with this number begins, or where that of the next link will.
fn text_start(links: &[Link], number: usize) -> usize
    requires { number ≤ length links.now }
    ensures { result ≡ text_start links.now number }
{
    match number.checked_sub(1) {
        None => 0,
        Some(before) => links[before].text_end,
    }
}

/// The text of the link with this number.
pub fn text_at<'a>(links: &[Link], texts: &'a [u8], number: usize) -> &'a [u8]
    requires number { number < length links.now }
    requires within { AreWithin links.now texts.now }
    ensures { result.now ≡ text_at links.now texts.now number }
{
    &texts[text_start(links, number)..links[number].text_end]
}
