// Contents that are taken out of their list.
ghost use Rattle.std.specs.Prelude.{◌≡◌, ◌<◌, length, set};
ghost use Rattle.mb_loaded.specs.Common.{content_at};
ghost use Rattle.mb_loaded.specs.Taking.{taken};

use crate::adding::null_content;
use mb_lists::Content;
use std::mem;

/// Takes the contents at an index out of their list, where null without an id takes their place.
pub(crate) fn take_content(contents: &mut Vec<Content>, index: usize) -> Content
    requires { index < length contents.old.items }
    ensures value { result ≡ content_at contents.old.items index }
    ensures left { contents.new.items ≡ set contents.old.items index taken }
{
    mem::replace(&mut contents[index], null_content())
}
