// Sets of numbers below 64, each set in one word.
#![tactic(auto)]

ghost use Rattle.std.specs.Prelude.{◌≡◌, ℕ, ◌^◌, ◌<◌, ◌≤◌, ◌⊎◌, ◌↔◌, Decides, bit_and, bit_or};
ghost use Rattle.bitsets.specs.Sets.{Has, has};

/// A set of numbers below 64: the number k counts 2^k.
#[derive(Clone, Copy, PartialEq, Eq, Debug)]
pub struct SmallSet {
    pub bits: u64,
}

impl SmallSet {
    /// The set that holds nothing.
    pub fn empty() -> SmallSet
        ensures { result.bits ≡ 0 }
    {
        SmallSet { bits: 0 }
    }

    /// The set that holds `k` alone; nothing, where `k` is 64 or more.
    pub fn only(k: u8) -> SmallSet
        ensures small { k < 64 → result.bits ≡ 2 ^ k }
        ensures large { 64 ≤ k → result.bits ≡ 0 }
    {
        if k < 64 {
            SmallSet { bits: 1 << k }
        } else {
            SmallSet::empty()
        }
    }

    /// Whether `k` is in the set.
    pub fn holds(self, k: u8) -> bool
        ensures value { result ≡ has self.bits k }
        ensures decides { Decides result (Has self.bits k) }
    {
        k < 64 && (self.bits >> k) & 1 == 1
    }

    /// What is in one of the two sets, or in both.
    pub fn union(self, other: SmallSet) -> SmallSet
        ensures value { result.bits ≡ bit_or self.bits other.bits }
        ensures members { (k : ℕ) → Has result.bits k ↔ (Has self.bits k ⊎ Has other.bits k) }
    {
        SmallSet {
            bits: self.bits | other.bits,
        }
    }

    /// What is in both sets.
    pub fn common(self, other: SmallSet) -> SmallSet
        ensures value { result.bits ≡ bit_and self.bits other.bits }
        ensures members { (k : ℕ) → Has result.bits k ↔ (Has self.bits k × Has other.bits k) }
    {
        SmallSet {
            bits: self.bits & other.bits,
        }
    }

    /// Whether nothing is in the set.
    pub fn is_empty(self) -> bool
        ensures value { Decides result (self.bits ≡ 0) }
        ensures members { Decides result ((k : ℕ) → Has self.bits k → ⊥) }
    {
        self.bits == 0
    }
}
