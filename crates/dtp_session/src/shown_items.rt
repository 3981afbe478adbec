//! The items that an entry shows, shared by who writes them and what is to go on the shelf.
ghost use Rattle.std.specs.Prelude.{◌≡◌, [], IfOk};

use kept_lemmas::{Item, Items};
use std::alloc::{AllocError, Global};
use std::marker::Model;
use std::sync::Arc;

/// Items, perhaps none.
pub struct ShownItems {
    items: Option<Arc<Items>>,
}

impl Drop for ShownItems {
    fn drop(self) {
        let ShownItems { items } = self;
        drop(items);
    }
}

impl Model for ShownItems {
    ghost use Rattle.std.specs.Prelude.{List};
    ghost use Rattle.kept_lemmas.specs.declared.item.Item.{Item as Shown};
    ghost use Rattle.dtp_session.specs.code.ShownItems.{items_held};

    ghost Value = { List Shown };

    ghost view = { λ s. items_held s.items };
}

impl ShownItems {
    /// No items. It takes no memory.
    pub fn none() -> Self
        ensures { result ≡ [] }
    {
        ShownItems { items: None }
    }

    pub fn new(alloc: Global, items: Items) -> Result<Self, AllocError>
        ensures { IfOk result (λ shown. shown ≡ items) }
    {
        let items = Arc::new(alloc, items)?;
        Ok(ShownItems { items: Some(items) })
    }

    /// The same items, without a copy.
    pub fn share(&self) -> Result<Self, AllocError>
        ensures { IfOk result (λ shown. shown ≡ self.now) }
    {
        match &self.items {
            None => Ok(ShownItems::none()),
            Some(items) => {
                let items = Arc::try_clone(items)?;
                Ok(ShownItems { items: Some(items) })
            }
        }
    }

    pub fn as_slice(&self) -> &[Item]
        ensures { result.now ≡ self.now }
    {
        match &self.items {
            None => &[],
            Some(items) => items.as_slice(),
        }
    }
}
