// The header of a database: the first 100 bytes of its first page (SQLite's fileformat2, section 1.3).
ghost use Rattle.std.specs.Prelude.{◌≡◌, ◌≤◌, IfOk, length};
ghost use Rattle.sqlite_pages.specs.PageMap.{IsUsableSize};
ghost use Rattle.mb_file.specs.Recovered.{used_by};

use crate::FileError;
use sqlite_format::bytes::get_u32;

// The first bytes of a database.
const HEAD: &[u8; 16] = b"SQLite format 3\0";

// The least number of bytes of a page that are used.
const LEAST: usize = 480;

// The fractions of a page that payloads may take, which are the same in each database.
const FRACTIONS: &[u8; 3] = &[64, 32, 32];

// The newest format of a schema.
const NEWEST: u32 = 4;

// Whether the header has the fixed fields of a database.
fn has_form(page: &[u8]) -> bool
    requires { 512 ≤ length page.now }
{
    // The version that a reader has to know: 1, or 2 of a file with a log.
    let version = page[19];
    page[..16] == HEAD[..]
        && page[21..24] == FRACTIONS[..]
        && version > 0
        && version <= 2
        && get_u32(page, 44) <= NEWEST
}

// Whether the count of pages that the header states, if it states one for this state of the file, is
// the count that there are.
pub(crate) fn states_count(page: &[u8], count: u32) -> bool {
    if page.len() < 512 {
        return false;
    }
    let stated = get_u32(page, 28);
    stated == 0 || stated == count || get_u32(page, 24) != get_u32(page, 92)
}

// How many bytes of a page are used, by the first page. The rest of each page is reserved.
pub(crate) fn usable_size(page: &[u8]) -> Result<usize, FileError>
    ensures used { IfOk result (λ size. size ≤ length page.now) }
    ensures reserved { IfOk result (λ size. size ≡ used_by page.now (length page.now)) }
    ensures usable { IfOk result IsUsableSize }
{
    if page.len() < 512 || page.len() > 65_536 || !has_form(page) {
        return Err(FileError::Header);
    }
    let encoding = get_u32(page, 56);
    if encoding > 1 {
        return Err(FileError::Encoding);
    }
    let reserved = page[20] as usize;
    if reserved + LEAST > page.len() {
        return Err(FileError::Header);
    }
    Ok(page.len() - reserved)
}
