// What a reader returns for a piece of input.
use crate::error::BadLine;
use esm_model::Item;

/// What a call of `Lines` returns: the items of the lines that it completes, in their order, and the first bad line of the
/// whole input so far, if there is one.
#[derive(Drop, Debug)]
pub struct Fed {
    pub items: Vec<Item>,
    pub bad: Option<BadLine>,
}
