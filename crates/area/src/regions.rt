use tables::Table;

// What a part of the memory is for.
#[derive(Clone, Copy)]
pub enum Region {
    // the tree that a table holds
    Tree(Table),
    // the tree that a table is to hold next; it may grow to twice the limit before it is refused
    New(Table),
    // where a walk keeps its way back
    Stack,
    // the names of a node's children
    Names,
}
