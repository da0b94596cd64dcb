ghost use Rattle.gt_documents.specs.Query.{limit_of, offset_of, page_at, page_of, value_at};
ghost use Rattle.gt_documents.specs.Reading.{ReadsAs};
ghost use Rattle.std.specs.Cow.{cow_str_bytes};
ghost use Rattle.std.specs.Prelude.{◌≡◌, ◌&&◌, ◌^◌, ◌-◌, IfOk, IfSome, nat_le, nat_lt, option_map, true};

use crate::fault::DocumentFault;
use crate::place::Place;
use form_urlencoded::parse;
use gt_values::read_decimal;
use std::alloc::{AllocError, Global};
use std::borrow::CowStr;

/// Which rows of a list are asked for: at most `limit` (1 to 1,000) after the first `offset`.
#[derive(Clone, Copy, Debug, PartialEq, Eq)]
pub struct Page {
    pub limit: u32,
    pub offset: u64,
}

/// The page that a query asks for: `limit`, 100 where it is absent, and `offset`, 0 where it is absent. The query is bad
/// where one of its numbers is.
#[tactic(auto, unfolding(crate::specs::Query::page_at))]
pub fn read_page(alloc: Global, query: &[u8]) -> Result<Page, DocumentFault>
    ensures value { ReadsAs (page_at query.now) result }
    ensures limits { IfOk result
        (λ page. (nat_le 1 page.limit && nat_le page.limit 1000 && nat_lt page.offset (2 ^ 64))
        ≡ true) }
{
    let limit = first_value(alloc, query, "limit")?;
    let offset = first_value(alloc, query, "offset")?;
    match page_from(limit.as_ref(), offset.as_ref()) {
        Some(page) => Ok(page),
        None => Err(DocumentFault::Bad(Place::query())),
    }
}

/// The value of the first pair of this name. Names and values are decoded; a name without `=` has the empty value.
pub fn first_value<'a>(
    alloc: Global,
    query: &'a [u8],
    name: &str,
) -> Result<Option<CowStr<'a>>, AllocError>
    ensures { IfOk result (λ value. option_map cow_str_bytes value ≡ value_at name.now query.now) }
{
    for pair in parse(alloc, query) {
        let (key, value) = pair?;
        if key.as_str() == name {
            return Ok(Some(value));
        }
    }
    Ok(None)
}

// The page of these two values.
fn page_from(limit: Option<&CowStr<'_>>, offset: Option<&CowStr<'_>>) -> Option<Page>
    ensures value { result
        ≡ page_of (option_map (λ t. cow_str_bytes t.now) limit.entry)
        (option_map (λ t. cow_str_bytes t.now) offset.entry) }
    ensures limits { IfSome result
        (λ page. (nat_le 1 page.limit && nat_le page.limit 1000) ≡ true) }
{
    let limit = limit_from(limit)?;
    let offset = offset_from(offset)?;
    Some(Page { limit, offset })
}

fn limit_from(value: Option<&CowStr<'_>>) -> Option<u32>
    ensures value { result ≡ limit_of (option_map (λ t. cow_str_bytes t.now) value.entry) }
    ensures limits { IfSome result (λ limit. (nat_le 1 limit && nat_le limit 1000) ≡ true) }
{
    let Some(text) = value else {
        return Some(100);
    };
    match read_decimal(text.as_str(), u64::MAX) {
        Some(limit) if 1 <= limit && limit <= 1000 => Some(limit as u32),
        _ => None,
    }
}

fn offset_from(value: Option<&CowStr<'_>>) -> Option<u64>
    ensures { result ≡ offset_of (option_map (λ t. cow_str_bytes t.now) value.entry) }
{
    let Some(text) = value else {
        return Some(0);
    };
    read_decimal(text.as_str(), u64::MAX)
}
