// The four trees of a table, and their order.
ghost use Rattle.std.specs.Prelude.{◌≡◌};
ghost use Rattle.table.specs.Header.{tree_number};

// One of a table's four trees.
#[derive(Clone, Copy)]
pub enum Tree {
    Entry,
    Exit,
    ShortEntry,
    ShortExit,
}

// Where the trees begin, the first one at node 0, and where the last one ends.
#[derive(Clone, Copy)]
pub(crate) struct Roots {
    pub exit: usize,
    pub short_entry: usize,
    pub short_exit: usize,
    pub end: usize,
}

// The trees in the header's order.
pub fn tree_number(tree: Tree) -> u8
    ensures { result ≡ tree_number tree }
{
    match tree {
        Tree::Entry => 0,
        Tree::Exit => 1,
        Tree::ShortEntry => 2,
        Tree::ShortExit => 3,
    }
}
