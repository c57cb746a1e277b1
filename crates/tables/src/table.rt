ghost use Rattle.std.specs.Prelude.{◌≡◌, ◌≤◌, length, ⊤};

use std::alloc::AllocError;

// At most N records: the first `count` places hold them. The vacant places behind hold a record that is given: an
// `ArrayVec` would need a default, and neither a contract nor an instrument or an account has one.
pub struct Table<T, const N: usize> {
    pub(crate) places: [T; N],
    pub(crate) count: usize,
    ghost few: { count ≤ N },
    ghost long: { length places ≡ N },
}

// By hand, since `Clone` is not derived for a struct that has a ghost field and holds values of a type parameter.
impl<T: Copy, const N: usize> Clone for Table<T, N> {
    ghost is_clone = { λ x y. y ≡ x };

    ghost is_infallible = { λ _. ⊤ };

    fn clone(&self) -> Result<Self, AllocError> {
        Ok(*self)
    }
}

impl<T: Copy, const N: usize> Copy for Table<T, N> {}
