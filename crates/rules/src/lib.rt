// Top rules: which slot of a full top gives up its page.
#![tactic(auto)]

ghost use Rattle.std.specs.Prelude.{◌≡◌, ℕ, ◌<◌};
ghost use Rattle.rules.specs.Oldest.{oldest_slot, oldest_next};
ghost use Rattle.rules.specs.Lottery.{lottery_slot, lottery_next};
ghost use Rattle.std.proofs.Common.{rules};

// A rule that names a slot of a full top of k slots.
//
// What a rule does is told by two functions of its told state and k alone:
// the slot that it names, which is below k, and the state that comes after.
// Asked about no slots it names 0 and keeps its state: the product asks for a rule that never refuses, and so for no `Option`.
pub trait TopRule {
    // The letter by which a recording's header names the rule.
    const LETTER: u8;

    ghost LETTER: { ℕ };

    ghost told: { Self → ℕ };

    ghost slot: { ℕ → ℕ → ℕ };

    ghost next: { ℕ → ℕ → ℕ };

    // The state that the rule tells: all that its later choices depend on.
    fn state(&self) -> u32
        ensures { result ≡ told self.now };

    // The slot that gives up its page, in a full top of `k` slots.
    fn choose(&mut self, k: u32) -> u32
        ensures slot { result ≡ slot (told self.old) k }
        ensures next { told self.new ≡ next (told self.old) k };

    ghost below: { (state k : ℕ) → 0 < k → slot state k < k };

    ghost none: { (state : ℕ) → (slot state 0 ≡ 0) × (next state 0 ≡ state) };
}

// The oldest rule: the slots in turn, so that the page longest in the top leaves.
#[derive(Clone, Copy, PartialEq, Eq, Debug)]
pub struct Oldest {
    at: u32,
}

impl Oldest {
    pub fn new() -> Oldest
        ensures { result.at ≡ 0 }
    {
        Oldest { at: 0 }
    }
}

impl TopRule for Oldest {
    const LETTER: u8 = b'O';

    ghost LETTER = { 79 };

    ghost told = { λ rule. rule.at };

    ghost slot = { oldest_slot };

    ghost next = { oldest_next };

    ghost below = { Prim.search rules };

    ghost none = { Prim.search rules };

    fn state(&self) -> u32 {
        self.at
    }

    fn choose(&mut self, k: u32) -> u32 {
        if k == 0 {
            return 0;
        }
        let slot = self.at % k;
        self.at = (slot + 1) % k;
        slot
    }
}

// The lottery rule: a slot drawn from a linear congruential sequence.
#[derive(Clone, Copy, PartialEq, Eq, Debug)]
pub struct Lottery {
    drawn: u32,
}

impl Lottery {
    pub fn new(seed: u32) -> Lottery
        ensures { result.drawn ≡ seed }
    {
        Lottery { drawn: seed }
    }
}

impl TopRule for Lottery {
    const LETTER: u8 = b'L';

    ghost LETTER = { 76 };

    ghost told = { λ rule. rule.drawn };

    ghost slot = { lottery_slot };

    ghost next = { lottery_next };

    ghost below = { Prim.search rules };

    ghost none = { Prim.search rules };

    fn state(&self) -> u32 {
        self.drawn
    }

    fn choose(&mut self, k: u32) -> u32 {
        if k == 0 {
            return 0;
        }
        self.drawn = self
            .drawn
            .wrapping_mul(1_664_525)
            .wrapping_add(1_013_904_223);
        self.drawn / 65_536 % k
    }
}
