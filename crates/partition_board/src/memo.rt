// What a value was, for proofs alone.
ghost use Rattle.std.specs.Prelude.{◌≡◌};
ghost use Rattle.std.specs.Borrow.{ftrue};

use std::marker::{Model, PhantomData};

// What a value was when it was looked at. It takes no bytes, and nothing is done for it while the program runs.
#[derive(Drop)]
pub struct Memo<T> {
    of: PhantomData<T>,
    pub ghost value: { T },
}

impl<T> Model for Memo<T> {
    ghost also_owns = { λ _. ftrue };
}

// It owns nothing.
unsafe impl<T: Send> Send for Memo<T> {}

impl<T> Memo<T> {
    pub(crate) fn of(value: &T) -> Memo<T>
        ensures { result.value ≡ value.now }
    {
        Memo { of: PhantomData }
    }
}
