// The standard streams at the start of a program.
use std::fs::File;

/// What holds the numbers of the standard streams that were closed when the program started. They are free again where
/// it is dropped, so a program keeps it to its end.
#[derive(Drop)]
pub struct HeldStreams {
    files: [Option<File>; 3],
}

/// Takes the numbers of those standard streams that are closed, so that no file that is opened later gets one of them.
///
/// What is opened in their place is a folder for reading, which can be neither read nor written: the use of a
/// stream that was closed fails.
pub fn hold_streams(rt: &HostRuntime) -> HeldStreams {
    HeldStreams {
        files: [opened(rt), opened(rt), opened(rt)],
    }
}

fn opened(rt: &HostRuntime) -> Option<File> {
    File::open(rt, "/").ok()
}
