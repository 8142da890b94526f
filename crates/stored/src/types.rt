// Trees in words, each with its own words and no others.
ghost use Rattle.stored.specs.Own.{Owned, OwnedAll, OwnedWhole};

// A tree that is present, under its name.
#[derive(Clone, Copy)]
pub struct Node<'a> {
    pub(crate) words: &'a [u32],
    ghost ok: { ∥ Owned words.now ∥₁ },
}

// Trees one behind the other: going through them gives each tree.
#[derive(Drop)]
pub struct Siblings<'a> {
    pub(crate) words: &'a [u32],
    ghost ok: { ∥ OwnedAll words.now ∥₁ },
}

// The same trees: going through them gives every node, in the order of the words.
#[derive(Drop)]
pub struct Preorder<'a> {
    pub(crate) words: &'a [u32],
    ghost ok: { ∥ OwnedAll words.now ∥₁ },
}

// A whole tree within the limits: one that is missing, or that has up to 4,096 nodes and is up to 32 deep.
#[derive(Clone, Copy)]
pub struct Held<'a> {
    pub(crate) words: &'a [u32],
    ghost ok: { ∥ OwnedWhole words.now ∥₁ },
}
