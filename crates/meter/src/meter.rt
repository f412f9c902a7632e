ghost use Rattle.std.specs.Prelude.{◌≡◌, nat_le};
ghost use Rattle.meter.specs.Gauge.{Gauge, Laws, AdjointAt, GreatestBefore};

// A meter (the domain of a progress measure): it measures a run by a reading, which each label left takes
// up, to overflow at the last. Readings are compared by rank. What the impls have alike is a line or two in
// each method; a type between, which would take the two steps as parameters, would be longer than both.
pub trait Meter {
    // What the meter measures with.
    type Reading: Copy;

    ghost gauge: { Self → Gauge Self.Reading };

    ghost laws: { (m : Self) → Laws (gauge m) };

    // The reading of what cannot be held.
    fn none(&self) -> Self::Reading
        ensures { result ≡ (gauge self.now).none };

    // The memory that a run begins with.
    fn least(&self) -> Self::Reading
        ensures { result ≡ (gauge self.now).least };

    // The memory nearest to overflow.
    fn greatest(&self) -> Self::Reading
        ensures { result ≡ (gauge self.now).greatest };

    // The reading past every memory.
    fn overflow(&self) -> Self::Reading
        ensures { result ≡ (gauge self.now).overflow };

    // Whether the rank of `x` is at most that of `y`.
    fn at_most(&self, x: Self::Reading, y: Self::Reading) -> bool
        ensures value { result ≡ nat_le ((gauge self.now).rank x) ((gauge self.now).rank y) };

    // The reading after a position with the label was left.
    fn up(&self, x: Self::Reading, label: u8) -> Self::Reading
        ensures value { result ≡ (gauge self.now).up x label }
        ensures adjoint { AdjointAt (gauge self.now) result x label };

    // The greatest reading that the label takes up to `y` or below.
    fn down(&self, y: Self::Reading, label: u8) -> Self::Reading
        ensures value { result ≡ (gauge self.now).down y label }
        ensures greatest { GreatestBefore (gauge self.now) result y label };
}
