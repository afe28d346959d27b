// Parts of archives: headers, directories, the walk along entries, contents.
ghost use Rattle.std.specs.Prelude.{◌≡◌, ◌<◌, ◌+◌, ◌^◌, ◌++◌, ℕ, List, Some, Ok, IfOk, IfSome, length};
ghost use Rattle.byte_media.specs.Media.{IsWithin};
ghost use Rattle.pm_contents.specs.Contents.{Holds};
ghost use Rattle.pm_contents.specs.Places.{found_in, put_new};
ghost use Rattle.pm_contents.specs.Sought.{IsSought, piece_sought, place_sought};
ghost use Rattle.pm_format.specs.Directory.{dir_of};
ghost use Rattle.pm_format.specs.Header.{head};
ghost use Rattle.pm_reader.specs.WalkSteps.{Spends, budget_of};

use pm_contents::{Contents, Sought};
use pm_format::{
    Backend, DirEntry, Directory, HEADER_SIZE, Header, Medium, PmtError, PmtResult, WriteFault,
};
use pm_reader::WalkState;
use std::alloc::Global;

/// The bytes of a header.
pub fn header_bytes(header: &Header) -> [u8; HEADER_SIZE]
    ensures again { (rest : List ℕ) → head (result ++ rest) ≡ Ok header.now }
{
    header.write_bytes()
}

/// The directory that a front of bytes spells.
pub fn decode(alloc: Global, bytes: &[u8]) -> Result<Directory, PmtError>
    ensures found { IfOk result (λ d. dir_of bytes.now ≡ Some d) }
{
    Directory::decode(alloc, bytes)
}

/// The next item of a walk along all entries.
pub fn next_entry<B: Backend>(walk: &mut WalkState, backend: &mut B) -> Option<PmtResult<DirEntry>>
    ensures spends { Spends (budget_of walk.old) (budget_of walk.new)
        (B.reads backend.old) (B.reads backend.new) result }
{
    walk.next_item(backend)
}

/// Where bytes begin that were sought among contents.
pub fn put_content<M: Medium>(
    contents: &mut Contents,
    medium: &mut M,
    from: u64,
    bytes: &[u8],
    sought: Sought,
) -> Result<u64, WriteFault>
    requires sought { (name : List ℕ → ℕ) × IsSought name contents.old bytes.now sought }
    requires within { IfSome (M.told medium.old) (IsWithin (from + contents.old.total)) }
    requires fits { from + contents.old.total + length (piece_sought sought bytes.now) < 2 ^ 64 }
    ensures place { (name : List ℕ → ℕ) (cs : List (List ℕ)) (taken : List ℕ)
        → Holds name contents.old cs → found_in cs taken ≡ place_sought sought
        → IfOk result (λ place. found_in (put_new cs taken) taken ≡ Some place) }
{
    contents.put(medium, from, bytes, sought)
}
