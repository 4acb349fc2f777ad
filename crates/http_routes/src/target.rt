//! The parts of a request's target: its path and its query, the segments of a path, the members of a query.
ghost use Rattle.std.specs.Prelude.{◌≡◌, ◌<◌, [], ◌∷◌, length, option_map, Some, None, if◌then◌else◌, MatchOption, IfSome};
ghost use Rattle.std.specs.List.{slice_split};
ghost use Rattle.std.specs.Str.{bytes_eq};
ghost use Rattle.http_routes.specs.Targets.{is_byte, path_of, query_of, segment_at, member_name, member_value, value_in};

/// The part of a text before its first separator, an ASCII character, and the text after it; None if it has none.
fn split_first(text: &str, separator: char) -> Option<(&str, &str)>
    requires { separator < 128 }
    ensures parts { MatchOption result
        (slice_split (is_byte separator) text.now ≡ text.now ∷ [])
        (λ parts. slice_split (is_byte separator) text.now ≡ parts.0.now ∷ slice_split (is_byte separator) parts.1.now) }
    ensures shorter { IfSome result (λ parts. length parts.1.now < length text.now) }
{
    text.split_once(separator)
}

/// The path of a target, and its query without the question mark, which is empty if there is none (RFC 9112, section 3.2.1).
/// It does not allocate.
pub fn split_target(target: &str) -> (&str, &str)
    ensures path { result.0.now ≡ path_of target.now }
    ensures query { result.1.now ≡ query_of target.now }
{
    match target.split_once('?') {
        Some(parts) => parts,
        None => (target, ""),
    }
}

/// The segment of a path at this place, from 0; None if it has fewer. A path that begins with a slash has an empty one first,
/// so the ids of `/jobs/{job}/tasks/{task}` are at the places 2 and 4. It does not allocate.
pub fn path_segment(path: &str, place: usize) -> Option<&str>
    ensures { option_map (λ segment. segment.now) result ≡ segment_at place path.now }
{
    let mut rest = path;
    let mut left = place;
    'segments: while let Some((segment, more)) = split_first(rest, '/') {
        if left == 0 {
            return Some(segment);
        }
        rest = more;
        left -= 1;
    }
    if left == 0 { Some(rest) } else { None }
}

/// The name and the value of a query's member. A member without an equals sign has an empty value.
fn split_member(member: &str) -> (&str, &str)
    ensures name { result.0.now ≡ member_name member.now }
    ensures value { result.1.now ≡ member_value member.now }
{
    match member.split_once('=') {
        Some(parts) => parts,
        None => (member, ""),
    }
}

/// The value of a member, if it has this name.
fn value_if_named<'q>(member: &'q str, name: &str) -> Option<&'q str>
    ensures { option_map (λ value. value.now) result
        ≡ (if bytes_eq (member_name member.now) name.now then Some (member_value member.now) else None) }
{
    let (own, value) = split_member(member);
    if own == name { Some(value) } else { None }
}

/// The value of the first member of the query with this name; None if there is none. Names are compared byte by byte. It does
/// not allocate.
pub fn query_value<'q>(query: &'q str, name: &str) -> Option<&'q str>
    ensures { option_map (λ value. value.now) result ≡ value_in name.now query.now }
{
    let mut rest = query;
    'members: while let Some((member, more)) = split_first(rest, '&') {
        if let Some(value) = value_if_named(member, name) {
            return Some(value);
        }
        rest = more;
    }
    value_if_named(rest, name)
}
