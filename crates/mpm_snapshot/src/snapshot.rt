ghost use Rattle.std.specs.Prelude.{◌≡◌, ◌↔◌, Some, None};
ghost use Rattle.mpm_top.specs.Words.{texts};
ghost use Rattle.mpm_top.specs.Promises.{seen_by};
ghost use Rattle.mpm_snapshot.specs.Requests.{Request, request_of, UsesNoDrive};
ghost use Rattle.mpm_snapshot.specs.Endings.{EndsSnapshot, FailsSnapshot, WritesNoOutput};

use crate::resuming::resume;
use crate::saving::save;
use crate::status::SnapStatus;
use crate::words::{asked_to_resume, asked_to_save};
use mpm_port::{Drives, Files, Sink};
use std::alloc::Global;

/// Does what the words after the program's name ask.
#[tactic(auto, unfolding(crate::specs::Requests::request_of))]
pub fn snapshot_words<F: Files, D: Drives, S: Sink>(
    alloc: Global,
    words: &[String],
    files: &mut F,
    drives: &mut D,
    sink: &mut S,
) -> SnapStatus
    // Usage comes exactly where the words have no form of a request.
    ensures usage { (result ≡ SnapStatus.Usage) ↔ (request_of (texts words.now) ≡ None) }
    ensures usage_files { result ≡ SnapStatus.Usage → files.new ≡ files.old }
    ensures usage_drives { result ≡ SnapStatus.Usage → drives.new ≡ drives.old }

    // Each ending has its reason, and says what was written: of a save also all that a run of the machine promises.
    ensures ends { (request : Request) → request_of (texts words.now) ≡ Some request → EndsSnapshot (F.missing files.old) request (seen_by F.Files D.Drives S.Sink files.old drives.old sink.old) (seen_by F.Files D.Drives S.Sink files.new drives.new sink.new) result }
    ensures no_drive { (request : Request) → request_of (texts words.now) ≡ Some request → UsesNoDrive request → drives.new ≡ drives.old }

    // What failed, that nothing is written where no core is saved and none run on, and that what the files hold stays.
    ensures fails { FailsSnapshot (seen_by F.Files D.Drives S.Sink files.old drives.old sink.old) (seen_by F.Files D.Drives S.Sink files.new drives.new sink.new) result }
    ensures nothing { WritesNoOutput result → sink.new ≡ sink.old }
{
    match words {
        [word, name, most] => {
            let Some(most) = asked_to_resume(word.as_str(), name.as_str(), most.as_str()) else {
                return SnapStatus::Usage;
            };
            resume(alloc, name.as_str(), most, files, sink)
        }
        [word, form, name, steps, process] => {
            let Some(asked) = asked_to_save(
                word.as_str(),
                form.as_str(),
                name.as_str(),
                steps.as_str(),
                process.as_str(),
            ) else {
                return SnapStatus::Usage;
            };
            save(alloc, name.as_str(), asked, files, drives, sink)
        }
        _ => SnapStatus::Usage,
    }
}
