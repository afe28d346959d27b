// A file that is put in the place of another one once it is whole.
use crate::beside::{Beside, Put, Taken, make_beside, put_named};
use crate::destination::is_file;
use std::fs::{File, Metadata};
use std::os::unix::fs::{MetadataExt, fchown};
use std::{fs, io};

/// Gives a file the owner, the group and the mode of another one. The mode is given also where the owner can't be.
pub fn keep_access(found: &Metadata, to: &File) -> io::Result<()> {
    let made = to.metadata()?;
    let owned = if made.uid() != found.uid() || made.gid() != found.gid() {
        fchown(to, Some(found.uid()), Some(found.gid()))
    } else {
        Ok(())
    };
    to.set_permissions(found.permissions())?;
    owned
}

/// Makes an empty file beside a path, `PATH.new`, where nothing or a regular file is at the path, also through links.
/// Where a file is at the path, nobody but its owner can read the new one before it takes that file's place. Standard
/// error says why none is made.
pub fn take_over(rt: &HostRuntime, tool: &str, path: &str) -> Taken {
    if fs::symlink_metadata(rt, path).is_err() {
        return make_beside(rt, tool, path);
    }
    match fs::metadata(rt, path) {
        Ok(found) if found.is_file() => {
            let taken = make_beside(rt, tool, path);
            if let Taken::Made(beside) = &taken {
                let _ = beside.hide();
            }
            taken
        }
        _ => {
            let _ = eprintln!(rt; "{tool}: {path} is no regular file, and stays as it is");
            Taken::There
        }
    }
}

// Gives a file that was synced the name of a path, whatever is there, and the access of a file there.
fn rename_over(rt: &HostRuntime, beside: &Beside, path: &str) -> io::Result<()> {
    match fs::metadata(rt, path) {
        Ok(found) if found.is_file() => {
            // another owner may not be allowed, and a file system may know no modes
            let _ = beside.keep_access(&found);
        }
        _ => {}
    }
    beside.sync(rt)?;
    fs::rename(rt, beside.path(), path)
}

/// Puts a file at a path, in the place of what is there: in one step for all that look, once its bytes are synced. Its
/// folder is synced then. It gets the mode of a file that is there, and its owner where that is allowed. Standard error
/// says why it isn't put there.
pub fn put_over(rt: &HostRuntime, tool: &str, beside: &Beside, path: &str) -> Put {
    let named = rename_over(rt, beside, path);
    put_named(rt, tool, beside, path, named)
}

/// Whether two paths lead to one file.
pub fn are_one_file(rt: &HostRuntime, first: &str, second: &str) -> bool {
    match fs::metadata(rt, first) {
        Ok(found) => is_file(rt, second, &found),
        Err(_) => false,
    }
}
