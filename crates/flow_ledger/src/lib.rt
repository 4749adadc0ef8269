//! The ledger of a flow: how many slots were demanded, allocated, acknowledged and lost since its endpoint's last reset.
#![tactic(auto)]

ghost use Rattle.std.specs.Prelude.{◌≡◌, ◌+◌, ◌-◌, ◌^◌, ◌<◌, ◌≤◌, max};

/// The counts of one flow, in slots. Every slot demanded is acknowledged, in flight or pending.
#[derive(Clone, Copy, Debug, PartialEq, Eq)]
pub struct FlowCount {
    pub demanded: u32,
    pub allocated: u32,
    pub acknowledged: u32,
    pub lost: u32,
    ghost decided_once: { acknowledged + lost ≤ allocated },
    ghost allocated_on_demand: { allocated ≤ demanded + lost },
}

impl Default for FlowCount {
    ghost is_default = { λ count. count.demanded + count.allocated + count.acknowledged + count.lost ≡ 0 };

    fn default() -> Self {
        Self::new()
    }
}

impl FlowCount {
    ghost use Rattle.flow_ledger.specs.FlowCount.{in_flight, pending, CountBalances};

    /// A flow of which nothing was demanded yet.
    pub fn new() -> Self
        ensures demanded { result.demanded ≡ 0 }
        ensures allocated { result.allocated ≡ 0 }
        ensures acknowledged { result.acknowledged ≡ 0 }
        ensures lost { result.lost ≡ 0 }
        ensures balances { CountBalances result }
    {
        FlowCount {
            demanded: 0,
            allocated: 0,
            acknowledged: 0,
            lost: 0,
        }
    }

    /// Takes over a total, which counts up over the whole connection, and answers by how much it raises the demand: by 0 where it
    /// is not the greatest so far.
    pub fn raise(&mut self, total: u32) -> u32
        ensures rise { result ≡ total - self.old.demanded }
        ensures demanded { self.new.demanded ≡ max self.old.demanded total }
        ensures allocated { self.new.allocated ≡ self.old.allocated }
        ensures acknowledged { self.new.acknowledged ≡ self.old.acknowledged }
        ensures lost { self.new.lost ≡ self.old.lost }
        ensures balances { CountBalances self.new }
    {
        let rise = total.saturating_sub(self.demanded);
        self.demanded += rise;
        rise
    }

    /// Counts `n` pending slots as allocated.
    pub fn allocate(&mut self, n: u32)
        requires pending { n ≤ pending self.old }
        requires fits { self.old.allocated + n < 2 ^ 32 }
        ensures demanded { self.new.demanded ≡ self.old.demanded }
        ensures allocated { self.new.allocated ≡ self.old.allocated + n }
        ensures acknowledged { self.new.acknowledged ≡ self.old.acknowledged }
        ensures lost { self.new.lost ≡ self.old.lost }
        ensures balances { CountBalances self.new }
    {
        self.allocated += n;
    }

    /// Counts `n` slots in flight as acknowledged.
    pub fn acknowledge(&mut self, n: u32)
        requires { n ≤ in_flight self.old }
        ensures demanded { self.new.demanded ≡ self.old.demanded }
        ensures allocated { self.new.allocated ≡ self.old.allocated }
        ensures acknowledged { self.new.acknowledged ≡ self.old.acknowledged + n }
        ensures lost { self.new.lost ≡ self.old.lost }
        ensures balances { CountBalances self.new }
    {
        self.acknowledged += n;
    }

    /// Counts `n` slots in flight as lost, which makes them pending again.
    pub fn lose(&mut self, n: u32)
        requires { n ≤ in_flight self.old }
        ensures demanded { self.new.demanded ≡ self.old.demanded }
        ensures allocated { self.new.allocated ≡ self.old.allocated }
        ensures acknowledged { self.new.acknowledged ≡ self.old.acknowledged }
        ensures lost { self.new.lost ≡ self.old.lost + n }
        ensures pending_again { pending self.new ≡ pending self.old + n }
        ensures balances { CountBalances self.new }
    {
        self.lost += n;
    }

    /// Starts all counts again at 0.
    pub fn restart(&mut self)
        ensures demanded { self.new.demanded ≡ 0 }
        ensures allocated { self.new.allocated ≡ 0 }
        ensures acknowledged { self.new.acknowledged ≡ 0 }
        ensures lost { self.new.lost ≡ 0 }
        ensures balances { CountBalances self.new }
    {
        *self = FlowCount::new();
    }

    /// The slots that were allocated, and of which it is not yet known whether they arrived.
    pub fn in_flight(&self) -> u32
        ensures slots { result ≡ in_flight self.now }
        ensures balances { CountBalances self.now }
    {
        self.allocated - self.acknowledged - self.lost
    }

    /// The slots that are yet to be allocated.
    pub fn pending(&self) -> u32
        ensures slots { result ≡ pending self.now }
        ensures balances { CountBalances self.now }
    {
        self.demanded - (self.allocated - self.lost)
    }
}
