// Comparisons as they lie in a text, and what follows them.
ghost use Rattle.std.specs.Prelude.{◌≡◌, ◌<◌, ◌≤◌, length, true, IfOk, IsSome};
ghost use Rattle.semver.specs.Grammar.{is_build, is_pre_release};
ghost use Rattle.version_req.specs.Reading as Spec;

use crate::identifiers::{Kind, read_marked};
use crate::scan::{Head, Stuck, after_byte, after_spaces, read_head, stuck_at};

/// A comparison as it lies in the text: the pre-release and the build metadata without their marks.
#[derive(Clone, Copy)]
pub(crate) struct Scanned<'a> {
    pub(crate) head: Head,
    pub(crate) pre: &'a [u8],
    pub(crate) build: &'a [u8],
}

/// What joins two comparisons.
#[derive(Clone, Copy)]
pub(crate) enum Joint {
    And,
    Or,
}

/// The comparison at the front of a text, perhaps after spaces.
#[tactic(auto, unfolding(crate::specs::Reading::comparison_of))]
pub(crate) fn read_comparison(text: &[u8]) -> Result<(Scanned<'_>, &[u8]), Stuck>
    ensures value { Spec.scanned result ≡ Spec.comparison_of text.now }
    ensures pre { IfOk result (λ read. is_pre_release read.0.pre.now ≡ true) }
    ensures build { IfOk result (λ read. is_build read.0.build.now ≡ true) }
    ensures shorter { IfOk result (λ read. length read.1.now ≤ length text.now) }
{
    let (head, rest) = read_head(text)?;
    let (pre, rest) = read_marked(Kind::PreRelease, rest)?;
    let (build, rest) = read_marked(Kind::Build, rest)?;
    Ok((Scanned { head, pre, build }, rest))
}

// The end of the text, or a word and a space after it.
fn read_word(text: &[u8]) -> Result<(Option<Joint>, &[u8]), Stuck>
    ensures { Spec.read_view result ≡ Spec.word_of text.now }
{
    match text {
        [] => Ok((None, text)),
        [b'a', rest @ ..] => {
            let rest = after_byte(b'd', after_byte(b'n', rest)?)?;
            Ok((Some(Joint::And), after_byte(b' ', rest)?))
        }
        [b'o', rest @ ..] => {
            let rest = after_byte(b'r', rest)?;
            Ok((Some(Joint::Or), after_byte(b' ', rest)?))
        }
        _ => Err(stuck_at(text)),
    }
}

/// What follows a comparison: nothing but spaces, or a word and at least one space on each side of it.
#[tactic(auto, unfolding(crate::specs::Reading::joint_of))]
pub(crate) fn read_joint(text: &[u8]) -> Result<(Option<Joint>, &[u8]), Stuck>
    ensures value { Spec.read_view result ≡ Spec.joint_of text.now }
    ensures shorter { IfOk result (λ read. IsSome read.0 → length read.1.now < length text.now) }
{
    match text {
        [] => Ok((None, text)),
        [b' ', rest @ ..] => read_word(after_spaces(rest)),
        _ => Err(stuck_at(text)),
    }
}
