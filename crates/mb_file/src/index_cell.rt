// The records of an index tree, which is what a table WITHOUT ROWID is.
ghost use Rattle.std.specs.Prelude.{◌≡◌, IfOk, length};
ghost use Rattle.sqlite_pages.specs.Calls.{Continues};
ghost use Rattle.sqlite_pages.specs.PageMap.{IsUsableSize};

use sqlite_format::bytes::get_u32;
use sqlite_format::cell::payload_of;
use sqlite_format::{Node, Tree};
use sqlite_pages::{Error, Pages};

// Where a record goes on behind its page.
#[derive(Clone, Copy, Debug)]
pub(crate) struct Rest {
    // The first overflow page.
    page: u32,
    // How many bytes there are.
    length: u64,
}

// A page as one of an index tree. The page with the catalog is none.
pub(crate) fn index_node(bytes: &[u8]) -> Result<Node<'_>, Error>
    requires { IsUsableSize (length bytes.now) }
{
    match Node::parse(bytes, 0) {
        Some(node) if node.kind.tree == Tree::Index => Ok(node),
        _ => Err(Error::Corrupt),
    }
}

// Copies the part of a cell's record that is in its page, and says where the record goes on.
pub(crate) fn take_local(node: &Node, cell: usize, record: &mut Vec<u8>) -> Result<Rest, Error> {
    if cell >= node.count {
        return Err(Error::Corrupt);
    }
    let Some(body) = node.body(cell) else {
        return Err(Error::Corrupt);
    };
    let Some(payload) = payload_of(Tree::Index, node.bytes.len(), body) else {
        return Err(Error::Corrupt);
    };
    record.clear();
    record.extend_from_slice(payload.local)?;
    Ok(Rest {
        page: payload.overflow,
        length: payload.spilled,
    })
}

// Appends the rest of a record, out of its overflow pages.
pub(crate) fn append_rest<P: Pages>(
    pages: &mut P,
    rest: Rest,
    record: &mut Vec<u8>,
) -> Result<(), Error>
    ensures kept { Continues P.Pages pages.old pages.new }
    ensures pages { P.Pages.pages pages.new ≡ P.Pages.pages pages.old }
{
    let mut page = rest.page;
    let mut left = rest.length;
    'pages: for _ in 0..u64::MAX {
        if left == 0 {
            return Ok(());
        }
        pages.load(page)?;
        let bytes = pages.loaded();
        let here = (bytes.len() as u64 - 4).min(left);
        record.extend_from_slice(&bytes[4..4 + here as usize])?;
        page = get_u32(bytes, 0);
        left -= here;
    }
    Err(Error::Corrupt)
}

// The place of a cell in its file, as a number.
pub(crate) fn cell_place(page: u32, cell: usize) -> Result<i64, Error> {
    match u16::try_from(cell) {
        Ok(cell) => Ok(i64::from(page) * 65_536 + i64::from(cell)),
        Err(_) => Err(Error::Corrupt),
    }
}

// Reads the record at such a place.
pub(crate) fn record_at<P: Pages>(
    pages: &mut P,
    place: i64,
    record: &mut Vec<u8>,
) -> Result<(), Error>
    ensures kept { Continues P.Pages pages.old pages.new }
    ensures pages { P.Pages.pages pages.new ≡ P.Pages.pages pages.old }
{
    let Ok(place) = u64::try_from(place) else {
        return Err(Error::Corrupt);
    };
    let Ok(page) = u32::try_from(place / 65_536) else {
        return Err(Error::Corrupt);
    };
    pages.load(page)?;
    let node = index_node(pages.loaded())?;
    let rest = take_local(&node, (place % 65_536) as usize, record)?;
    append_rest(pages, rest, record)
}
