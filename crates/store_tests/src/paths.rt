//! Paths for files of tests.

use std::alloc::Global;
use std::fs;
use std::test::Fail;

/// The path of a test's file.
pub fn path_of(rt: &HostRuntime, name: &str, ending: &str) -> Result<String, Fail> {
    let folder = std::env::temp_dir(rt)?;
    path_in(rt.alloc(), folder.to_string_lossy(), name, ending)
}

/// The path of a test's file in a folder.
fn path_in(alloc: Global, folder: &str, name: &str, ending: &str) -> Result<String, Fail> {
    Ok(format!(in alloc; "{folder}/store_tests_{name}.{ending}")?)
}

/// The path of a test's store; no file is there.
pub fn fresh(rt: &HostRuntime, name: &str) -> Result<String, Fail> {
    let path = path_of(rt, name, "db")?;
    forget(rt, &path)?;
    Ok(path)
}

/// Removes the file of a path, and the log beside it.
pub fn forget(rt: &HostRuntime, path: &str) -> Result<(), Fail> {
    let log = format!(in rt.alloc(); "{path}-wal")?;
    let _gone = fs::remove_file(rt, path);
    let _gone = fs::remove_file(rt, log.as_str());
    Ok(())
}
