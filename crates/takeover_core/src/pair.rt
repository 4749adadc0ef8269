ghost use Rattle.std.specs.Prelude.{◌≡◌, ◌≢◌, ◌<◌, ◌≤◌, ◌+◌, ◌^◌, ℕ, List, [], ◌∷◌, length, None, Some, OnOk, IfOk, slice_get};
ghost use Rattle.takeover_history.specs.declared.event.Event.{Event as EventType};
ghost use Rattle.takeover_history.specs.declared.event.Event.TheVariants as event;
ghost use Rattle.takeover_history.specs.Events.{PairSetting};
ghost use Rattle.takeover_history.specs.Endpoints.{asked_of_flow, issues, sends_of_flow, sent};
ghost use Rattle.takeover_history.specs.Steps.{log_of};
ghost use Rattle.takeover_core.specs.Outcomes.{MayStep, PairStands, PairAnswers, Promises};
ghost use Rattle.takeover_core.specs.Sending.{send_of};
ghost use Rattle.takeover_core.specs.Standing.{IsPairSetting, PairStandsFor, last_batch};

use crate::endpoints::{Endpoints, tell};
use crate::keeper::Keeper;
use crate::laws::what_is_promised;
use crate::node::Node;
use crate::outcome::Outcome;
use crate::published::{Issued, Published};
use endpoint_agent::Sent;
use greedy_rules::{Batch, Flow, Limits, SlotTable};
use no_memory::NoMemory;
use slot_batches::Turns;
use std::alloc::Global;
use takeover_history::{Event, Holder, Refusal, a_generation_begins_anew, running_counts_serve};

/// Two arbiters, 0 and 1, that publish batches under leases, the keeper of the leases, and the endpoints that hear the batches.
/// What clauses say of a pair holds for every list of events, the latest first, for which it stands.
#[derive(Drop)]
pub struct Pair {
    alloc: Global,
    endpoints: u16,
    b: u8,
    keeper: Keeper,
    nodes: [Node; 2],
    turns: Turns,
    ends: Endpoints,
    published: Published,
    last: Option<u32>,
    none: Issued,
}

impl Pair {
    /// A pair for so many endpoints in one rack, 2 to 64, with 1 to 64 slots in a batch and 1 to 100 batches in a lease, and with room
    /// for the messages of so many events.
    pub fn open(
        alloc: Global,
        endpoints: u16,
        b: u8,
        lease: u16,
        events: u32,
    ) -> Result<Pair, NoMemory>
        requires sizes { IsPairSetting (record { endpoints = endpoints; b = b; span = lease }) }
        requires events { events ≤ 10000 }
        ensures { IfOk result (λ pair. PairStandsFor (record { endpoints = endpoints; b = b; span = lease }) pair []) }
    {
        Ok(Pair {
            alloc,
            endpoints,
            b,
            keeper: Keeper::open(alloc, lease, events)?,
            nodes: [Node::open(alloc, endpoints)?, Node::open(alloc, endpoints)?],
            turns: Turns::open(alloc, endpoints, b)?,
            ends: Endpoints::open(alloc, endpoints)?,
            published: Published::new(alloc),
            last: None,
            none: Issued {
                generation: 0,
                batch: Batch::with_limits(
                    alloc,
                    Limits {
                        hosts: endpoints,
                        cores: 1,
                    },
                ),
                slots: SlotTable::open(alloc, u16::from(b), endpoints)?,
            },
        })
    }

    /// Lets an event happen. A refused event changes nothing. After want of memory the pair is only to be dropped.
    pub fn step(&mut self, event: Event) -> Result<Outcome, NoMemory>
        requires { MayStep self.old event }
        ensures answers { IfOk result (λ outcome. PairAnswers self.old event outcome) }
        ensures stands { OnOk result (PairStands self.old self.new event) }
        ensures promised { OnOk result (Promises self.old event) }
    {
        what_is_promised();
        self.happen(event)
    }

    fn happen(&mut self, event: Event) -> Result<Outcome, NoMemory>
        requires { MayStep self.old event }
        ensures answers { IfOk result (λ outcome. PairAnswers self.old event outcome) }
        ensures stands { OnOk result (PairStands self.old self.new event) }
    {
        match event {
            Event::Ask { src, dst, slots } => {
                self.ask(src, dst, slots);
                Ok(Outcome::Nothing)
            }
            Event::Request { node } => self.request(node),
            Event::Grant { m } => self.grant(m),
            Event::Take { node, m } => Ok(self.take(node, m)),
            Event::Tell { src, node } => Ok(self.tell(src, node)),
            Event::Publish { node } => self.publish(node),
            Event::Hear { src, batch } => self.hear(src, batch),
            Event::Crash { node } => {
                self.crash(node);
                Ok(Outcome::Nothing)
            }
        }
    }

    fn ask(&mut self, src: u16, dst: u16, slots: u32)
        requires { MayStep self.old (event.Ask src dst slots) }
        ensures { PairStands self.old self.new (event.Ask src dst slots) }
    {
        self.ends.ask(src, dst, slots);
    }

    fn request(&mut self, node: u16) -> Result<Outcome, NoMemory>
        requires { MayStep self.old (event.Request node) }
        ensures answers { IfOk result (λ outcome. PairAnswers self.old (event.Request node) outcome) }
        ensures stands { OnOk result (PairStands self.old self.new (event.Request node)) }
    {
        let boot = self.nodes[node as usize].boot;
        self.keeper.request(Holder { node, boot })?;
        Ok(Outcome::Nothing)
    }

    fn grant(&mut self, m: u32) -> Result<Outcome, NoMemory>
        requires { MayStep self.old (event.Grant m) }
        ensures answers { IfOk result (λ outcome. PairAnswers self.old (event.Grant m) outcome) }
        ensures stands { OnOk result (PairStands self.old self.new (event.Grant m)) }
    {
        running_counts_serve();
        let Some(holder) = self.keeper.sender(m) else {
            return Ok(Outcome::Refused {
                name: Refusal::NoMessage,
            });
        };
        let message = self.keeper.messages.len() as u32;
        let lease = self.keeper.grant(holder)?;
        Ok(Outcome::Granted {
            message,
            node: lease.holder.node,
            generation: lease.generation,
            first: lease.first,
        })
    }

    fn take(&mut self, node: u16, m: u32) -> Outcome
        requires { MayStep self.old (event.Take node m) }
        ensures answers { PairAnswers self.old (event.Take node m) result }
        ensures stands { PairStands self.old self.new (event.Take node m) }
    {
        running_counts_serve();
        a_generation_begins_anew();
        let Some(lease) = self.keeper.granted(m) else {
            return Outcome::Refused {
                name: Refusal::NoMessage,
            };
        };
        if let Some(name) = self.nodes[node as usize].refuses(node, lease, self.keeper.span) {
            return Outcome::Refused { name };
        }
        self.nodes[node as usize].take(lease);
        Outcome::Nothing
    }

    fn tell(&mut self, src: u16, node: u16) -> Outcome
        requires { MayStep self.old (event.Tell src node) }
        ensures answers { PairAnswers self.old (event.Tell src node) result }
        ensures stands { PairStands self.old self.new (event.Tell src node) }
    {
        running_counts_serve();
        let Some(lease) = self.nodes[node as usize].lease else {
            return Outcome::Refused {
                name: Refusal::NoLease,
            };
        };
        if lease.generation < self.ends.generations[src as usize] {
            return Outcome::Refused {
                name: Refusal::Stale,
            };
        }
        self.ends.take(src, lease.generation);
        let hearer = &mut self.nodes[node as usize];
        tell(&mut hearer.told, &self.ends.asked, &self.ends.base, src);
        Outcome::Nothing
    }

    fn publish(&mut self, node: u16) -> Result<Outcome, NoMemory>
        requires { MayStep self.old (event.Publish node) }
        ensures answers { IfOk result (λ outcome. PairAnswers self.old (event.Publish node) outcome) }
        ensures stands { OnOk result (PairStands self.old self.new (event.Publish node)) }
    {
        running_counts_serve();
        let Some(lease) = self.nodes[node as usize].lease else {
            return Ok(Outcome::Refused {
                name: Refusal::NoLease,
            });
        };
        let used = self.nodes[node as usize].used;
        if used >= self.keeper.span {
            return Ok(Outcome::Refused {
                name: Refusal::NoLease,
            });
        }
        let number = lease.first + u32::from(used);
        let mut slots = SlotTable::open(self.alloc, u16::from(self.b), self.endpoints)?;
        let publisher = &mut self.nodes[node as usize];
        let batch = publisher.publish(
            self.alloc,
            self.endpoints,
            number,
            self.b,
            &mut self.turns,
            &mut slots,
        )?;
        let issued = Issued {
            generation: lease.generation,
            batch,
            slots,
        };
        self.published.publish(number, issued)?;
        self.last = Some(number);
        Ok(Outcome::Published { batch: number })
    }

    fn hear(&mut self, src: u16, batch: u32) -> Result<Outcome, NoMemory>
        requires { MayStep self.old (event.Hear src batch) }
        ensures answers { IfOk result (λ outcome. PairAnswers self.old (event.Hear src batch) outcome) }
        ensures stands { OnOk result (PairStands self.old self.new (event.Hear src batch)) }
    {
        running_counts_serve();
        let Some(issued) = self.published.get(batch) else {
            return Ok(Outcome::Refused {
                name: Refusal::Unpublished,
            });
        };
        let generation = self.ends.generations[src as usize];
        if issued.generation < generation {
            return Ok(Outcome::Refused {
                name: Refusal::Stale,
            });
        }
        if self.published.has_heard(src, batch) {
            return Ok(Outcome::Refused {
                name: Refusal::Repeat,
            });
        }
        if generation < issued.generation {
            self.ends.take(src, issued.generation);
            self.published.hear(src, batch)?;
            return Ok(Outcome::Nothing);
        }
        let from = self.ends.sent.len() as u32;
        self.ends
            .send(src, batch * u32::from(self.b) + 1, &issued.slots)?;
        self.published.hear(src, batch)?;
        let count = self.ends.sent.len() as u32 - from;
        Ok(Outcome::Sent { from, count })
    }

    fn crash(&mut self, node: u16)
        requires { MayStep self.old (event.Crash node) }
        ensures { PairStands self.old self.new (event.Crash node) }
    {
        running_counts_serve();
        self.nodes[node as usize].crash();
    }

    /// The slots of the last batch that was published, empty before the first.
    pub fn slots(&self) -> &SlotTable
        ensures { (setting : PairSetting) (events : List EventType) → PairStandsFor setting self.now events →
            result.now ≡ (last_batch setting (issues (log_of setting events))).slots }
    {
        &self.last_published().slots
    }

    /// The last batch that was published, without entries before the first.
    pub fn batch(&self) -> &Batch
        ensures { (setting : PairSetting) (events : List EventType) → PairStandsFor setting self.now events →
            result.now ≡ (last_batch setting (issues (log_of setting events))).batch }
    {
        &self.last_published().batch
    }

    fn last_published(&self) -> &Issued
        ensures { (setting : PairSetting) (events : List EventType) → PairStandsFor setting self.now events →
            result.now ≡ last_batch setting (issues (log_of setting events)) }
    {
        if let Some(number) = self.last {
            if let Some(issued) = self.published.get(number) {
                return issued;
            }
        }
        &self.none
    }

    /// The send of this number, counted from 0, with its source.
    pub fn sent(&self, at: u32) -> (u16, Sent)
        requires { (setting : PairSetting) × (events : List EventType) × PairStandsFor setting self.now events × (at < length (sent setting (log_of setting events))) }
        ensures { (setting : PairSetting) (events : List EventType) → PairStandsFor setting self.now events →
            slice_get (sent setting (log_of setting events)) at ≡ Some (send_of result) }
    {
        self.ends.sent[at as usize]
    }

    /// How many slots of a flow are asked for, and in how many its source sent.
    pub fn totals(&self, flow: Flow) -> (u32, u32)
        requires { (setting : PairSetting) × (events : List EventType) × PairStandsFor setting self.now events × (flow.src < setting.endpoints) × (flow.dst < setting.endpoints) }
        ensures { (setting : PairSetting) (events : List EventType) → PairStandsFor setting self.now events →
            result ≡ (asked_of_flow (log_of setting events) flow, sends_of_flow setting (log_of setting events) flow) }
    {
        (
            self.ends.asked.get(flow.src, flow.dst),
            self.ends.counts.get(flow.src, flow.dst),
        )
    }
}
