ghost use Rattle.gt_requests.specs.Target.{front_of, piece_id, query_of};
ghost use Rattle.gt_values.specs.Forms.{is_id};
ghost use Rattle.std.specs.List.{slice_get, slice_split};
ghost use Rattle.std.specs.Prelude.{◌≡◌, ◌==◌, IfSome, option_copied, true};

use gt_values::Id;

/// The front of a target, and its query, which begins after the first `?`.
pub(crate) fn cut_query(target: &str) -> (&str, &str)
    ensures front { result.0.now ≡ front_of target.now }
    ensures query { result.1.now ≡ query_of target.now }
{
    match target.split_once('?') {
        Some((front, query)) => (front, query),
        None => (target, ""),
    }
}

/// The identifier that a piece of a front is. Pieces are what slashes part, counted from 0.
#[tactic(auto, unfolding(crate::specs::Target::piece_id))]
pub(crate) fn id_in(front: &str, place: usize) -> Option<Id>
    ensures value { result ≡ piece_id front.now place }
    ensures limits { IfSome result (λ id. is_id id ≡ true) }
{
    Id::read(piece(front, place)?)
}

// A piece of a front.
fn piece(front: &str, place: usize) -> Option<&str>
    ensures { option_copied result ≡ slice_get (slice_split (λ b. b == 47) front.now) place }
{
    front.split('/').nth(place)
}
