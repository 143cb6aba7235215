// Places that are free, or taken under a number, and finding one in an array of them.
//
// Job: the trait of such places, which is kept by an option of a value with a number; where a number stands, what stands
// under it, the first free place, whether one is taken.
// May use: `rules`, for words of its definitions.
// Main promise: each answer is the one that the list of the places tells.

#![tactic(auto)]

ghost use Rattle.std.specs.Prelude.{◌≡◌, ℕ, ◌<◌, not, length, is_some, option_map, position, IfSome, Option as Maybe};
ghost use Rattle.std.specs.List.{list_any};
ghost use Rattle.keyed.specs.Keyed.{is_key, key_of, held};

// A place that is free, or taken under a number.
pub trait Keyed {
    // the number, if the place is taken
    ghost key: { Self → Maybe ℕ };

    // Whether the place is taken under this number.
    fn is_under(&self, k: usize) -> bool
        ensures { result ≡ is_key (key self.now) k };

    // Whether the place is free.
    fn is_free(&self) -> bool
        ensures { result ≡ not (is_some (key self.now)) };
}

// What has a number.
pub trait Numbered {
    ghost number: { Self → ℕ };

    fn number(&self) -> usize
        ensures { result ≡ number self.now };
}

// A place for a value with a number is taken under the number of the value that is there.
impl<T: Numbered> Keyed for Option<T> {
    ghost key = { key_of T.number };

    fn is_under(&self, k: usize) -> bool {
        self.as_ref().is_some_and(|x| x.number() == k)
    }

    fn is_free(&self) -> bool {
        self.is_none()
    }
}

// Where the first place stands that is taken under this number.
pub fn place<T: Keyed>(places: &[T], k: usize) -> Option<usize>
    ensures is { result ≡ position (λ x. is_key (T.Keyed.key x) k) places.now }
    ensures within { IfSome result (λ i. i < length places.now) }
{
    places.iter().position(|x| x.is_under(k))
}

// The first value of this number, and where it stands.
pub fn found<T: Numbered>(places: &[Option<T>], k: usize) -> Option<(usize, &T)>
    ensures is { option_map (λ f. f.0) result ≡ position (λ x. is_key (key_of T.number x) k) places.now }
    ensures value { option_map (λ f. f.1.now) result ≡ held T.number places.now k }
    ensures within { IfSome result (λ f. f.0 < length places.now) }
{
    let i = place(places, k)?;
    let value = places[i].as_ref()?;
    Some((i, value))
}

// Where the first free place stands.
pub fn vacancy<T: Keyed>(places: &[T]) -> Option<usize>
    ensures is { result ≡ position (λ x. not (is_some (T.Keyed.key x))) places.now }
    ensures within { IfSome result (λ i. i < length places.now) }
{
    places.iter().position(|x| x.is_free())
}

// Whether a place is taken.
pub fn occupied<T: Keyed>(places: &[T]) -> bool
    ensures { result ≡ list_any (λ x. is_some (T.Keyed.key x)) places.now }
{
    places.iter().any(|x| !x.is_free())
}
