// What the folders hold.
use hm_base::NoMemory;
use std::alloc::Global;
use std::{fs, io};

pub fn no_memory(_: NoMemory) -> io::Error {
    io::Error::from(io::ErrorKind::OutOfMemory)
}

/// The paths of what this folder holds, in order: folders.
pub fn folders(rt: &HostRuntime, folder: &str) -> io::Result<Vec<String>> {
    let mut paths = paths(rt, folder)?;
    paths.sort()?;
    Ok(paths)
}

/// The paths of what the folder holds.
fn paths(rt: &HostRuntime, folder: &str) -> io::Result<Vec<String>> {
    let mut paths = Vec::new(rt.alloc());
    for entry in fs::read_dir(rt, folder)? {
        paths.push(String::from_str(rt.alloc(), entry?.path().to_string_lossy())?)?;
    }
    Ok(paths)
}

/// Those of the paths that have this ending, in order and without it.
fn stripped(alloc: Global, paths: &[String], ending: &str) -> io::Result<Vec<String>> {
    let mut stems = Vec::new(alloc);
    for path in paths {
        if let Some(stem) = path.as_str().strip_suffix(ending) {
            stems.push(String::from_str(alloc, stem)?)?;
        }
    }
    stems.sort()?;
    Ok(stems)
}

/// The paths of the folder's files with this ending, in order and without it.
pub fn stems(rt: &HostRuntime, folder: &str, ending: &str) -> io::Result<Vec<String>> {
    stripped(rt.alloc(), paths(rt, folder)?.as_slice(), ending)
}

/// A path without its folders.
pub fn name(stem: &str) -> &str {
    match stem.rsplit_once('/') {
        Some((_, name)) => name,
        None => stem,
    }
}

/// What the file of this path and ending holds.
pub fn bytes(rt: &HostRuntime, stem: &str, ending: &str) -> io::Result<Vec<u8>> {
    let path = format!(in rt.alloc(); "{stem}{ending}")?;
    fs::read(rt, path.as_str())
}

/// The same as a text.
pub fn text(rt: &HostRuntime, stem: &str, ending: &str) -> io::Result<String> {
    let path = format!(in rt.alloc(); "{stem}{ending}")?;
    fs::read_to_string(rt, path.as_str())
}
