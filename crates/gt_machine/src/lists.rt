// Pages of lists.
ghost use Rattle.std.specs.Prelude.{◌≡◌, map};
ghost use Rattle.gt_machine.specs.Lists as spec;

use gt_types::Page;

/// The rows of the page: at most `limit`, after the first `offset`.
pub(crate) fn page_of<'a, T>(rows: &'a [&'a T], limit: u32, offset: u64) -> &'a [&'a T]
    ensures { map (λ row. row.now) result.now
        ≡ spec.page_of limit offset (map (λ row. row.now) rows.now) }
{
    part(rows, limit, offset)
}

fn part<T>(rows: &[T], limit: u32, offset: u64) -> &[T]
    ensures { result.now ≡ spec.page_of limit offset rows.now }
{
    let start = offset.min(rows.len() as u64) as usize;
    let rest = &rows[start..];
    let end = (limit as usize).min(rest.len());
    &rest[..end]
}

/// What a list of these rows says of its page.
#[tactic(auto, using(crate::proofs::ListLemmas::line_map))]
pub(crate) fn page_line<T>(rows: &[&T], limit: u32, offset: u64) -> Page
    ensures { result ≡ spec.page_line limit offset (map (λ row. row.now) rows.now) }
{
    Page {
        limit,
        offset,
        total: rows.len() as u64,
    }
}
