//! The numbers of the frames in a picture.

ghost use Rattle.std.specs.Prelude.{◌≡◌, true, IfNone, IfSome};
ghost use Rattle.show_prog.specs.Pictures.{image_of};
ghost use Rattle.drill.specs.Sums.{is_mixture, numbers_of};

use show_prog::Picture;

/// The numbers of the frames in a picture, added up; `None` only where a sum leaves 128 bits, which
/// takes a mix.
pub(crate) fn picture_sum(picture: &Picture<'_>) -> Option<i128>
    ensures sum { IfSome result (λ sum. sum ≡ numbers_of (image_of picture.now)) }
    ensures mix { IfNone result (is_mixture (image_of picture.now) ≡ true) }
{
    match picture {
        Picture::Blank => Some(0),
        Picture::Frame { number, .. } => Some(*number),
        Picture::Mix { from, to, .. } => match picture_sum(from) {
            Some(outgoing) => match picture_sum(to) {
                Some(incoming) => outgoing.checked_add(incoming),
                None => None,
            },
            None => None,
        },
    }
}
