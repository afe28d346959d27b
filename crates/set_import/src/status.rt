// The status that a program ends with.
ghost use Rattle.std.specs.Prelude.{◌≡◌};
ghost use Rattle.set_import.specs.Status.{status_of};

use mb_store::MbtError;
use pm_format::{archive_status, status};
use tile_import::ImportError;

/// The status that a program ends with by the answer of `import_as_said`: 0 for Ok, 7 when out of memory, 6 where the
/// archive or the store failed, and 1 for any other refusal.
pub fn import_status(answer: &Result<u64, ImportError>) -> u8
    ensures { result ≡ status_of answer.now }
{
    match answer {
        Ok(_) => status::DONE,
        Err(ImportError::Archive(error)) => archive_status(error),
        Err(ImportError::Store(MbtError::StoreFault)) => status::FAULT,
        Err(ImportError::OutOfMemory) => status::OUT_OF_MEMORY,
        Err(_) => status::REFUSED,
    }
}
