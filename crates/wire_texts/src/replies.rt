//! Replies as lines show them.
ghost use Rattle.std.specs.Prelude.{◌≡◌, ◌++◌, OnOk, IfOk, string_bytes, flat_map};
ghost use Rattle.wire_texts.specs.Replies.{element_status, element_text, shown_text, reply_text};

use crate::refusals::push_refusal;
use bt_base::{NoMemory, Text};
use bt_rows::reply::{Element, Reply};
use std::alloc::{AllocError, Global};
use wire_json::reply_json;
use wire_words::status_of;

/// The status of one element of a collection.
fn element_status(element: &Element) -> u16
    ensures { result ≡ element_status element.now }
{
    match element {
        Element::Added(_) => 201,
        Element::NotAdded(_, refusal) => status_of(refusal),
    }
}

/// Adds a space and the status for each element.
fn push_elements(out: &mut String, elements: &[Element]) -> Result<(), AllocError>
    ensures { OnOk result (string_bytes out.new ≡ string_bytes out.old ++ flat_map element_text elements.now) }
{
    for element in elements {
        let status = element_status(element);
        write!(out, " {status}")?;
    }
    Ok(())
}

/// Adds the status of a read that is not refused, and its JSON.
#[tactic(auto, unfolding(crate::specs::Replies::shown_text))]
fn push_shown(out: &mut String, alloc: Global, reply: &Reply) -> Result<(), NoMemory>
    ensures { OnOk result (string_bytes out.new ≡ string_bytes out.old ++ shown_text reply.now) }
{
    let json = reply_json(alloc, reply)?;
    let json = json.as_str();
    Ok(write!(out, "200 {json}")?)
}

/// Adds a reply.
#[tactic(auto, unfolding(crate::specs::Replies::reply_text))]
fn push_reply(out: &mut String, alloc: Global, reply: &Reply) -> Result<(), NoMemory>
    ensures { OnOk result (string_bytes out.new ≡ string_bytes out.old ++ reply_text reply.now) }
{
    match reply {
        Reply::Status(status) => Ok(write!(out, "{status}")?),
        Reply::Refused(refusal) => Ok(push_refusal(out, refusal)?),
        Reply::Elements(elements) => {
            out.push_str("200")?;
            Ok(push_elements(out, elements.as_slice())?)
        }
        Reply::Results(text) => {
            let text = text.as_str();
            Ok(write!(out, "200 {text}")?)
        }
        Reply::One(_) | Reply::Page(_, _) => push_shown(out, alloc, reply),
        Reply::Step(_) => Ok(out.push_str("200")?),
    }
}

/// A reply as a line shows it, without the number before it and the line feed: the status, and after it a refusal's name and
/// values, the status of each element of a collection, the results of an evaluated formula, or the JSON of what a read shows. It
/// fails only when out of memory.
pub fn write_reply(alloc: Global, reply: &Reply) -> Result<Text, NoMemory>
    ensures { IfOk result (λ text. text ≡ reply_text reply.now) }
{
    let mut out = String::new(alloc);
    push_reply(&mut out, alloc, reply)?;
    Text::of_string(out)
}
