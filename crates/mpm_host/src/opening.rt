use std::fs::{self, File, OpenOptions};
use std::io::{self, ErrorKind};

/// Opens the regular file of that name. What is none is refused before it is opened, since the opening of a pipe may wait, and
/// that of a device may act.
pub(crate) fn open_regular(host: &HostRuntime, name: &str) -> io::Result<File> {
    if !fs::metadata(host, name)?.is_file() {
        return Err(io::Error::from(ErrorKind::InvalidInput));
    }
    open_locked(host, name)
}

/// Opens a file to be read and written, or only to be read where there is no right to write it. It is locked until it is closed:
/// one that is written for this drive alone, by whatever name others ask for it, one that is only read for all who read.
fn open_locked(host: &HostRuntime, name: &str) -> io::Result<File> {
    match OpenOptions::new().read(true).write(true).open(host, name) {
        Ok(file) => {
            file.try_lock()?;
            Ok(file)
        }
        Err(error) if is_without_right(error.kind()) => {
            let file = File::open(host, name)?;
            file.try_lock_shared()?;
            Ok(file)
        }
        Err(error) => Err(error),
    }
}

/// Whether a file was not opened for want of a right: its own, or that of its file system, which may only be read.
pub(crate) fn is_without_right(kind: ErrorKind) -> bool {
    matches!(
        kind,
        ErrorKind::PermissionDenied | ErrorKind::ReadOnlyFilesystem
    )
}
