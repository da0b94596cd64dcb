ghost use Rattle.gt_http.specs.Head as spec;
ghost use Rattle.httparse.specs.Spans.{header_bytes, IsHeaderWithin};
ghost use Rattle.std.specs.Prelude.{All, length, map, option_map, ◌≡◌, ◌≤◌};

use httparse::spans::HeaderSpan;

/// Whether the field has the name, in any case.
pub(crate) fn is_named(bytes: &[u8], header: HeaderSpan, name: &[u8]) -> bool
    requires { IsHeaderWithin (length bytes.now) header }
    ensures { result ≡ spec.is_named name.now (header_bytes bytes.now header) }
{
    header.name.of(bytes).eq_ignore_ascii_case(name)
}

/// How many fields have the name.
pub(crate) fn count_named(bytes: &[u8], headers: &[HeaderSpan], name: &[u8]) -> usize
    requires { All (IsHeaderWithin (length bytes.now)) headers.now }
    ensures { result ≡ spec.count_named name.now (map (header_bytes bytes.now) headers.now) }
{
    let mut count = 0;
    for header in headers {
        if is_named(bytes, *header, name) {
            count += 1;
        }
    }
    count
}

/// The value of the first field that has the name.
pub(crate) fn value_of<'b>(bytes: &'b [u8], headers: &[HeaderSpan], name: &[u8]) -> Option<&'b [u8]>
    requires { All (IsHeaderWithin (length bytes.now)) headers.now }
    ensures { option_map (λ v. v.now) result
        ≡ spec.value_of name.now (map (header_bytes bytes.now) headers.now) }
{
    for header in headers {
        if is_named(bytes, *header, name) {
            return Some(header.value.of(bytes));
        }
    }
    None
}
