ghost use Rattle.std.specs.Prelude.{◌≡◌, None, replicate};

// So many free places.
pub(crate) fn free_places<T, const N: usize>() -> [Option<T>; N]
    ensures { result ≡ replicate N None }
{
    std::array::from_fn(|_| None)
}
