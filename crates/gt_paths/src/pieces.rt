ghost use Rattle.std.specs.Prelude.{◌≡◌, ◌∷◌, ◌+◌, ◌<◌, ◌≤◌, length, false, [], IfNone, IfSome};
ghost use Rattle.gt_paths.specs.PathText.{begins_at_home, pieces_of};

/// What stands before the first slash of the text, and what stands behind it.
pub(crate) fn first_piece(text: &str) -> (&str, &str)
    requires { 0 < length text.now }
    ensures pieces { pieces_of text.now ≡ result.0.now ∷ pieces_of result.1.now }
    ensures whole { length result.0.now + length result.1.now ≤ length text.now }
    ensures slash { 0 < length result.1.now
        → length result.0.now + length result.1.now + 1 ≡ length text.now }
{
    match text.split_once('/') {
        Some(parts) => parts,
        None => (text, ""),
    }
}

/// What stands behind a first piece `~`, if the text begins with one.
pub(crate) fn behind_home(text: &str) -> Option<&str>
    ensures home { IfSome result (λ rest. pieces_of text.now ≡ (126 ∷ []) ∷ pieces_of rest.now) }
    ensures shorter { IfSome result (λ rest. length rest.now < length text.now) }
    ensures other { IfNone result (begins_at_home (pieces_of text.now) ≡ false) }
{
    if text.is_empty() {
        return None;
    }
    let (piece, rest) = first_piece(text);
    if piece == "~" { Some(rest) } else { None }
}
