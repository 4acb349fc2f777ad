//! How much of a list a query asks for.
ghost use Rattle.std.specs.Prelude.{◌≡◌, option_map};
ghost use Rattle.bt_base.specs.Fails.{Gives, IsAs};
ghost use Rattle.http_requests.specs.Listings.{count_in, count_if, after_if, listing_of};

use bt_base::{Fail, Id, read_number};
use bt_rows::member::Member;
use bt_rows::refusal::Refusal;
use http_routes::query_value;
use std::alloc::Global;
use table_reads::{Listing, MAX_RESULTS};
use wire_members::invalid_property;

/// The most digits of a number in a query.
pub const DIGIT_LIMIT: usize = 20;

/// A number of elements: 1 to `DIGIT_LIMIT` digits, with a value from 1 to `MAX_RESULTS`.
fn count_in(text: &[u8]) -> Option<u32>
    ensures { result ≡ count_in text.now }
{
    if text.len() > DIGIT_LIMIT {
        return None;
    }
    match read_number(text) {
        Some(count @ 1..=1_000) => Some(count as u32),
        _ => None,
    }
}

/// The number of elements that a query's member asks for.
fn count_if(text: Option<&str>) -> Result<u32, Fail<Refusal>>
    ensures { Gives result (count_if (option_map (λ text. text.now) text.entry)) }
{
    match text {
        None => Ok(MAX_RESULTS),
        Some(text) => count_in(text.as_bytes()).ok_or(invalid_property(Member::MaxResults)),
    }
}

/// The id that a query's member asks for.
fn after_if(alloc: Global, text: Option<&str>) -> Result<Option<Id>, Fail<Refusal>>
    ensures { Gives result (after_if (option_map (λ text. text.now) text.entry)) }
{
    let Some(text) = text else {
        return Ok(None);
    };
    match Id::read(alloc, text) {
        Ok(id) => Ok(Some(id)),
        Err(Fail::Why(_)) => Err(invalid_property(Member::After)),
        Err(Fail::Memory) => Err(Fail::Memory),
    }
}

/// How much of a list the query asks for: `maxresults`, and `after`, the id after whose element it begins. The first member with a
/// name counts, and other members are not looked at.
#[tactic(auto, unfolding(crate::specs::Listings::listing_of))]
pub fn listing_of(alloc: Global, query: &str) -> Result<Listing, Fail<Refusal>>
    ensures { Gives result (listing_of query.now) }
{
    let count = count_if(query_value(query, Member::MaxResults.text()))?;
    let after = after_if(alloc, query_value(query, Member::After.text()))?;
    Ok(Listing { count, after })
}
