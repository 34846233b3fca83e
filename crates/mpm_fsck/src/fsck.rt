ghost use Rattle.std.specs.Prelude.{◌≡◌, ◌↔◌, ℕ, List, Some, None};
ghost use Rattle.mpm_fsck.specs.Requests.{Request, texts, request_of};
ghost use Rattle.mpm_fsck.specs.Outside.{seen};
ghost use Rattle.mpm_fsck.specs.Endings.{EndsRequest, TakesOwnList, FailsByEnding, WritesNoText};

use crate::checking::check;
use crate::mending::apply;
use crate::status::FsckStatus;
use crate::words::{kind_to_check, kind_to_mend};
use mpm_port::{Drives, Files, Sink};
use std::alloc::Global;

/// Does what the words after the program's name ask.
#[tactic(auto, unfolding(crate::specs::Requests::request_of))]
pub fn fsck_words<F: Files, D: Drives, S: Sink>(
    alloc: Global,
    words: &[String],
    files: &mut F,
    drives: &mut D,
    sink: &mut S,
) -> FsckStatus
    // Usage comes exactly where the words have no form of a request.
    ensures usage { (result ≡ FsckStatus.Usage) ↔ (request_of (texts words.now) ≡ None) }
    ensures usage_files { result ≡ FsckStatus.Usage → files.new ≡ files.old }
    ensures usage_drives { result ≡ FsckStatus.Usage → drives.new ≡ drives.old }

    // Each ending has its reason, and says what was written, and what is left of the image.
    ensures ends { (request : Request) → request_of (texts words.now) ≡ Some request → EndsRequest (F.missing files.old) request (seen F.Files D.Drives S.Sink files.old drives.old sink.old) (seen F.Files D.Drives S.Sink files.new drives.new sink.new) result }

    // The list that a check of an image writes is never refused.
    ensures own_list { (request : Request) → request_of (texts words.now) ≡ Some request → TakesOwnList (F.contents files.old) (D.told drives.old) request result }

    // What failed, that nothing is written at a refusal, and that what the files hold stays.
    ensures fails { FailsByEnding (seen F.Files D.Drives S.Sink files.old drives.old sink.old) (seen F.Files D.Drives S.Sink files.new drives.new sink.new) result }
    ensures nothing { WritesNoText result → sink.new ≡ sink.old }
    ensures files { (other : List ℕ) → F.contents files.new other ≡ F.contents files.old other }
{
    match words {
        [word, kind, image] => {
            let Some(kind) = kind_to_check(word.as_str(), kind.as_str(), image.as_str()) else {
                return FsckStatus::Usage;
            };
            check(alloc, kind, image.as_str(), drives, sink)
        }
        [word, kind, image, list] => {
            let Some(kind) = kind_to_mend(
                word.as_str(),
                kind.as_str(),
                image.as_str(),
                list.as_str(),
            ) else {
                return FsckStatus::Usage;
            };
            apply(
                alloc,
                kind,
                image.as_str(),
                list.as_str(),
                files,
                drives,
                sink,
            )
        }
        _ => FsckStatus::Usage,
    }
}
