// Files that are read and written whole.
use crate::failed::Failed;
use std::{fs, io};

// What came of a file; one that could not be read or written is named.
fn named<T: Drop>(rt: &HostRuntime, name: &str, outcome: io::Result<T>) -> Result<T, Failed> {
    match outcome {
        Ok(value) => Ok(value),
        Err(e) => {
            eprintln!(rt; "jomavetro: {name}: {e}")?;
            Err(Failed::File)
        }
    }
}

// A file's bytes.
pub fn load(rt: &HostRuntime, name: &str) -> Result<Vec<u8>, Failed> {
    named(rt, name, fs::read(rt, name))
}

// A file's text.
pub fn load_text(rt: &HostRuntime, name: &str) -> Result<String, Failed> {
    named(rt, name, fs::read_to_string(rt, name))
}

// Writes a file whole under another name first, so that it appears whole or not at all.
pub fn save(rt: &HostRuntime, name: &str, bytes: &[u8]) -> Result<(), Failed> {
    let part = format!(in rt.alloc(); "{name}.part")?;
    let saved = fs::write(rt, part.as_str(), bytes).and_then(|()| fs::rename(
        rt,
        part.as_str(),
        name,
    ));
    if saved.is_err() {
        let _ = fs::remove_file(rt, part.as_str());
    }
    named(rt, name, saved)
}
