use std::fs::File;

/// Files that may only be read, in the place of each standard stream that was closed, for as long as this is kept. Else an image that is
/// opened would be the standard output, and the text would be written into it. Where there is no `/dev/null` nothing is held.
#[derive(Drop)]
pub struct HeldPlaces {
    files: [Option<File>; 3],
}

impl HeldPlaces {
    /// Holds the places of the streams that are closed now.
    pub fn take(host: &HostRuntime) -> HeldPlaces {
        HeldPlaces {
            files: [
                File::open(host, "/dev/null").ok(),
                File::open(host, "/dev/null").ok(),
                File::open(host, "/dev/null").ok(),
            ],
        }
    }
}
