use std::alloc::Global;
use std::env;
use std::io::ErrorKind;

/// Why a program's words did not come.
#[derive(Clone, Copy, Debug, PartialEq, Eq)]
pub enum WordsError {
    /// One of them is not UTF-8.
    NotText,
    /// There was no memory for them.
    OutOfMemory,
}

/// The words after the program's name.
pub fn words_after_name(alloc: Global, host: &HostRuntime) -> Result<Vec<String>, WordsError> {
    let mut arguments = match env::args(host) {
        Ok(arguments) => arguments,
        Err(error) if error.kind() == ErrorKind::OutOfMemory => return Err(WordsError::OutOfMemory),
        Err(_) => return Err(WordsError::NotText),
    };
    let _name = arguments.next();
    let mut words = Vec::new(alloc);
    for word in arguments {
        if words.push(word).is_err() {
            return Err(WordsError::OutOfMemory);
        }
    }
    Ok(words)
}
