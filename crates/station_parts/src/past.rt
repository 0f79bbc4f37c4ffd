//! What a part was, as clauses see it.
ghost use Rattle.std.specs.Prelude.{◌≡◌, List, [], ◌∷◌, ◌++◌};
ghost use base.Fml.{ftrue};

use std::marker::{Model, PhantomData};

/// The values handed out so far, oldest first. Only clauses see them: it has no bytes.
pub(crate) struct Past<T> {
    marker: PhantomData<T>,
    pub ghost values: { List T },
}

impl<T> Model for Past<T> {
    ghost also_owns = { λ _. ftrue };
}

impl<T> Past<T> {
    pub(crate) fn none() -> Past<T>
        ensures { result.values ≡ [] }
    {
        Past {
            marker: PhantomData,
        }
    }

    pub(crate) fn and(&self, last: &T) -> Past<T>
        ensures { result.values ≡ self.now.values ++ last.now ∷ [] }
    {
        let _ = self;
        let _ = last;
        Past {
            marker: PhantomData,
        }
    }
}

unsafe impl<T> Send for Past<T> {}

unsafe impl<T> Sync for Past<T> {}

impl<T> Drop for Past<T> {
    fn drop(self) {
        let Self { marker: _ } = self;
    }
}
