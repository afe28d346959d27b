// What is left of a base under the tiles that patches put.
use crate::Mark;
use mb_store::MbtType;

/// What is left of a base: a mark of each of its tiles that no patch has.
#[derive(Drop)]
pub(crate) struct Rest {
    /// The layout of the base.
    pub layout: MbtType,
    /// The marks, by rising id.
    pub marks: Vec<Mark>,
    /// Whether no patch was put yet, so that contents stand that no tile names.
    pub is_whole: bool,
}
