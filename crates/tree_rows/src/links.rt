// What is made of the folder in which the program runs, beside the calls of trees.
use rows_shared::{Words, say};
use std::fs;
use std::fs::File;
use std::io::Write;
use std::os::unix::fs::symlink;

// A file with a byte.
fn file(rt: &HostRuntime, path: &str) -> Option<()> {
    let mut file = File::create(rt, path).ok()?;
    file.write_all(b"1").ok()
}

pub fn answer(rt: &HostRuntime, out: &mut String, words: &mut Words) -> Option<()> {
    match words.next()? {
        "folder" => fs::create_dir_all(rt, words.next()?).ok(),
        "file" => file(rt, words.next()?),
        "made" => symlink(rt, words.next()?, words.next()?).ok(),
        "gone" => fs::remove_file(rt, words.next()?).ok(),
        "there" => say(out, &fs::exists(rt, words.next()?).ok()?),
        "is_link" => say(
            out,
            &fs::symlink_metadata(rt, words.next()?).ok()?.is_symlink(),
        ),
        _ => None,
    }
}
