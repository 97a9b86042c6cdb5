ghost use Rattle.std.specs.Prelude.{◌≡◌, true};
ghost use Rattle.model.specs.Tree.{tree_of, tree_in_order};

// A tree that question 17 has let pass: a run of whole tables, a depth from 1 to 3, and the number of its root in the run.
#[derive(Clone, Copy)]
pub struct Tree<'a> {
    pub words: &'a [u64],
    pub root: u64,
    pub depth: u64,
    pub ghost in_order: { tree_in_order (tree_of words.now root depth) ≡ true },
}
