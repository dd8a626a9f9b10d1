//! What stands in a list.
ghost use Rattle.std.specs.Prelude.{◌≡◌, ◌↔◌, ℕ, IsTrue};

/// What stands in a list, in the order of its keys. It is copied freely, and there is nothing in it
/// that could be lost.
pub trait RowEntry: Copy + Drop {
    /// By what entries are weighed: a kind of request, say, where the weight is how many units of
    /// a free range fit it.
    type Measure: Copy + Drop;

    /// Its key as a number.
    ghost rank: { Self → ℕ };

    /// What is asked for by `Rows::least_weighing`.
    ghost weight: { Self.Measure → Self → ℕ };

    /// The key by which the list is sorted. Two entries of one list have different keys.
    fn key(&self) -> u128
        ensures { result ≡ rank self.now };

    /// The weight by a measure, which needn't be another for another entry: the length of a range,
    /// say.
    fn weight(&self, measure: Self::Measure) -> u64
        ensures { result ≡ weight measure self.now };

    /// Whether two measures are the same.
    fn is_same(one: Self::Measure, other: Self::Measure) -> bool
        ensures { IsTrue result ↔ (one ≡ other) };

    /// The measure of a list that wasn't searched by weight yet.
    fn first_measure() -> Self::Measure;
}
