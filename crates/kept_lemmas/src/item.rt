ghost use Rattle.std.specs.Prelude.{◌≡◌};

use refute_tree::Lemma;
use std::marker::Model;

/// The place of an item in an earlier entry of the same certificate.
#[derive(Clone, Copy, Debug, PartialEq, Eq)]
pub struct Kept {
    /// The number of the entry, from 1.
    pub entry: usize,
    /// The number of the item in it, from 0.
    pub item: usize,
}

/// An item of an entry that answers unsat.
#[derive(Drop)]
pub enum Item {
    /// A lemma with its tree, whose numbers of lemmas are those of the items before it.
    Own(Lemma),
    /// The lemma that an earlier entry has at this place, with its clause and without a tree.
    Keep(Kept),
}

/// The items of an entry, in order. What they refute, if anything, the contracts say that make or check them.
pub struct Items {
    items: Vec<Item>,
}

impl Drop for Items {
    fn drop(self) {
        let Items { items } = self;
        drop(items);
    }
}

impl Model for Items {
    ghost use Rattle.std.specs.Prelude.{List};
    ghost use Rattle.kept_lemmas.specs.declared.item.Item.{Item as Shown};

    ghost Value = { List Shown };

    ghost view = { λ i. i.items.items };
}

impl Items {
    pub fn new(items: Vec<Item>) -> Self
        ensures { result ≡ items.items }
    {
        Items { items }
    }

    pub fn as_slice(&self) -> &[Item]
        ensures { result.now ≡ self.now }
    {
        self.items.as_slice()
    }

    /// The items in a `Vec`, without taking memory.
    pub fn into_vec(self) -> Vec<Item>
        ensures { result.items ≡ self }
    {
        let Items { items } = self;
        items
    }
}
