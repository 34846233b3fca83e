ghost use Rattle.std.specs.Prelude.{◌≡◌};
ghost use Rattle.mpm_fsck.specs.Requests as spec;
ghost use Rattle.mpm_fsck.specs.Requests.Request.{Check, Apply};

use mpm_base::Kind;

/// The kind of disk that a word says.
fn kind_of(word: &str) -> Option<Kind>
    ensures { result ≡ spec.kind_of word.now }
{
    if word == "ibm3740" {
        Some(Kind::Ibm3740)
    } else if word == "hd4" {
        Some(Kind::Hd4)
    } else if word == "hd8" {
        Some(Kind::Hd8)
    } else {
        None
    }
}

/// The kind of the image that is to be checked, where three words ask that.
pub(crate) fn kind_to_check(word: &str, kind: &str, image: &str) -> Option<Kind>
    ensures { spec.AsksByKind (spec.check_by word.now (spec.kind_of kind.now) image.now) (λ said. Check said image.now) result }
{
    if word != "check" {
        return None;
    }
    kind_of_named(kind, image)
}

/// The kind of the image of which slots are to be freed, where four words ask that.
pub(crate) fn kind_to_mend(word: &str, kind: &str, image: &str, list: &str) -> Option<Kind>
    ensures { spec.AsksByKind (spec.apply_by word.now (spec.kind_of kind.now) image.now list.now) (λ said. Apply said image.now list.now) result }
{
    if word != "apply" {
        return None;
    }
    kind_of_listed(kind, image, list)
}

/// The kind that a word says, of an image that has a name.
#[tactic(auto, using(crate::proofs::RequestLaws::check_named, crate::proofs::RequestLaws::check_unknown, crate::proofs::RequestLaws::check_unnamed))]
fn kind_of_named(kind: &str, image: &str) -> Option<Kind>
    ensures { spec.AsksByKind (spec.check_of (spec.kind_of kind.now) image.now) (λ said. Check said image.now) result }
{
    if image.is_empty() {
        return None;
    }
    kind_of(kind)
}

/// The kind that a word says, of an image and a list that have names.
#[tactic(auto, using(crate::proofs::RequestLaws::apply_named, crate::proofs::RequestLaws::apply_unknown, crate::proofs::RequestLaws::apply_unnamed, crate::proofs::RequestLaws::apply_unlisted))]
fn kind_of_listed(kind: &str, image: &str, list: &str) -> Option<Kind>
    ensures { spec.AsksByKind (spec.apply_of (spec.kind_of kind.now) image.now list.now) (λ said. Apply said image.now list.now) result }
{
    if image.is_empty() || list.is_empty() {
        return None;
    }
    kind_of(kind)
}
