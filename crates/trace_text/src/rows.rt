// The rows of a trace so far, and the faults that rest on them.
ghost use Rattle.std.specs.Prelude.{◌≡◌, ◌+◌, ◌*◌, ◌<◌, ◌≤◌, ◌∷◌, [], ◌++◌, List, length, true, ◌==◌, nat_lt, is_some, slice_index, ◌||◌, IfNone, IsSome, Err, OnOk, IfOk};
ghost use Rattle.csv.specs.Records.{fields_of};
ghost use Rattle.clos_topology.specs.Limits.{IsNetwork};
ghost use Rattle.trace_text.specs.Fields.{Record, bytes_of};
ghost use Rattle.trace_text.specs.Lines.{IsAskRow, records_in};
ghost use Rattle.trace_text.specs.Rows.{Row};
ghost use Rattle.trace_text.specs.Rows as row;
ghost use Rattle.trace_text.specs.Faults.{read_row, checked, is_in_range, is_between, is_fate};
ghost use Rattle.std.specs.List.{list_any, filter_map};
ghost use Rattle.trace_text.specs.Earlier.{fate_in, put_in};
ghost use Rattle.trace_text.specs.Events.{way_number};
ghost use Rattle.trace_text.specs.Standing.{StandsFor, RowsAreKept, IsAllowed, AwaitsAsks, TakesLines, IsWholeRow, IsPacket, is_net, endpoints_kept, row_value, as_rows, row_unless, TakesRow};
ghost use Rattle.trace_text.specs.declared.fault.TraceRefused.TheVariants as refused;
ghost use Rattle.trace_text.specs.declared.taken_row.TakenRow.TheVariants as taken;

use crate::ask::Ask;
use crate::events::{Boot, EventRows, GivenFate};
use crate::fields::field;
use crate::flow_sums::FlowSums;
use crate::kind::Kind;
use crate::plain_ask::{AskHead, PlainAsk};
use crate::puts::PutRows;
use crate::taken_row::TakenRow;
use crate::{Command, Fault, TraceRefused};
use clos_topology::Net;
use csv::ByteRecord;
use loss_world::Fate;
use no_memory::NoMemory;
use std::alloc::Global;

const LAST_ROUND: u32 = 99_999;

const MOST_ROUNDS: u32 = 100_000;

const MOST_ASKED: u32 = 100_000_000;

const MOST_PUT: u16 = 1_024;

/// What the rows so far say together.
#[derive(Drop)]
pub struct Rows {
    pub alloc: Global,
    pub count: u32,
    pub net: Option<Net>,
    // How many endpoints the net has, where there is one.
    pub endpoints: u32,
    pub round: u32,
    pub end: Option<u32>,
    // What each flow asked for, by source and then destination.
    pub totals: Vec<u32>,
    // What is asked for, summed by round and flow: of the rounds before the latest that an ask names, and of that one.
    pub asks: Vec<Ask>,
    pub sums: FlowSums,
    // The round after the latest in which a packet was given a fate, by endpoint and way; 0 for none.
    pub fated: Vec<u32>,
    pub events: EventRows,
    pub puts: PutRows,
}

impl Rows {
    pub fn new(alloc: Global) -> Result<Rows, NoMemory>
        ensures { IfOk result (StandsFor []) }
    {
        Ok(Rows {
            alloc,
            count: 0,
            net: None,
            endpoints: 0,
            round: 0,
            end: None,
            totals: Vec::new(alloc),
            asks: Vec::new(alloc),
            sums: FlowSums::new(alloc)?,
            fated: Vec::new(alloc),
            events: EventRows::new(alloc),
            puts: PutRows::new(alloc),
        })
    }

    /// The row with these fields, or its fault.
    #[tactic(auto, unfolding(crate::specs::Faults::read_row, crate::specs::Faults::read_kind))]
    pub fn judge<'a>(&self, command: Command, fields: &'a ByteRecord) -> Result<TakenRow<'a>, Fault>
        requires { RowsAreKept self.now }
        ensures row { (before : List Row) → StandsFor before self.now → read_row command before (fields_of fields.now) ≡ as_rows result }
        ensures allowed { IfOk result (λ row. IsAllowed self.now row) }
    {
        let name = field(fields, 0);
        if self.count == 0 && name != b"net".as_slice() {
            return Err(Fault::NoNet);
        }
        let Some(kind) = Kind::of(name) else {
            return Err(Fault::Kind);
        };
        match TakenRow::read(command, kind, fields) {
            Ok(row) => match self.fault_of(&row) {
                Some(fault) => Err(fault),
                None => Ok(row),
            },
            Err(fault) => Err(fault),
        }
    }

    /// Takes the next row, or tells its number and fault.
    #[inline(never)]
    pub fn take(&mut self, command: Command, fields: &ByteRecord) -> Result<(), TraceRefused>
        requires stands { RowsAreKept self.old }
        requires room { self.old.count < 4294967295 }
        ensures { (before : List Row) → StandsFor before self.old → TakesRow command before (fields_of fields.now) self.new result }
    {
        match self.judge(command, fields) {
            Ok(row) => Ok(self.push(row)?),
            Err(fault) => Err(self.refused(fault)),
        }
    }

    /// Takes an ask that is the next row, or tells the row's number and fault.
    #[inline(always)]
    pub fn take_ask(&mut self, command: Command, ask: &PlainAsk) -> Result<(), TraceRefused>
        requires stands { RowsAreKept self.old }
        requires room { self.old.count < 4294967295 }
        ensures { (before : List Row) (fields : Record) → StandsFor before self.old → IsAskRow ask.now fields → TakesRow command before fields self.new result }
    {
        match self.judge_ask(command, ask) {
            None => Ok(self.push_ask(ask.round, ask.src, ask.dst, ask.slots)?),
            Some(fault) => Err(self.refused(fault)),
        }
    }

    /// Takes the asks of a round that a text goes on with, as long as they have this head and nothing is wrong with them; answers
    /// what is left.
    #[inline(never)]
    pub fn take_asks<'a>(&mut self, command: Command, head: &AskHead, text: &'a [u8]) -> &'a [u8]
        requires stands { RowsAreKept self.old }
        requires room { self.old.count + length (records_in text.now) ≤ 67108864 }
        ensures rows { (before : List Row) → StandsFor before self.old → TakesLines command before text.now self.new result.now }
        ensures fewer { length (records_in result.now) ≤ length (records_in text.now) }
    {
        let mut rest = text;
        if !self.awaits_asks(command, head.round()) {
            return rest;
        }
        while let Some((ask, more)) = head.ask(rest) {
            if !self.is_sound(&ask) {
                return rest;
            }
            self.add_ask(ask.round, ask.src, ask.dst, ask.slots);
            rest = more;
        }
        rest
    }

    // Whether an ask of this round may be the next row, and is of the round of the latest row and of the latest ask.
    fn awaits_asks(&self, command: Command, round: u32) -> bool
        ensures { result ≡ true → AwaitsAsks command round self.now }
    {
        if self.count == 0 || self.end.is_some() {
            return false;
        }
        if !command.takes(Kind::Ask) || round > LAST_ROUND {
            return false;
        }
        round == self.round && self.sums.is_of(round)
    }

    // Whether nothing is wrong with the flow and the slots of an ask that is the next row.
    #[inline(always)]
    fn is_sound(&self, ask: &PlainAsk) -> bool
        requires { RowsAreKept self.now }
        ensures { result ≡ true → self.now.round ≤ ask.now.round → IsAllowed self.now (taken.Ask ask.now.round ask.now.src ask.now.dst ask.now.slots) }
    {
        let endpoints = self.endpoints();
        if ask.src >= endpoints || ask.dst >= endpoints {
            return false;
        }
        if ask.src == ask.dst {
            return false;
        }
        if ask.slots < 1 || ask.slots > MOST_ASKED {
            return false;
        }
        self.total(ask.src, ask.dst) + ask.slots <= MOST_ASKED
    }

    /// The number and the fault of the next row, which has more fields than a row of any kind.
    pub fn refuse_too_many(&self, command: Command, fields: &ByteRecord) -> TraceRefused
        requires stands { RowsAreKept self.now }
        requires room { self.now.count < 4294967295 }
        requires many { 6 ≤ length (fields_of fields.now) }
        ensures { (before : List Row) → StandsFor before self.now → TakesRow command before (fields_of fields.now) self.now (Err result) }
    {
        self.refused(self.fault_of_too_many(command, fields))
    }

    // What is wrong with it.
    #[tactic(auto, using(crate::proofs::FirstFields::too_many), unfolding(crate::specs::Faults::read_row, crate::specs::Faults::read_kind))]
    fn fault_of_too_many(&self, command: Command, fields: &ByteRecord) -> Fault
        requires stands { RowsAreKept self.now }
        requires many { 6 ≤ length (fields_of fields.now) }
        ensures { (before : List Row) → StandsFor before self.now → read_row command before (fields_of fields.now) ≡ Err result }
    {
        let name = field(fields, 0);
        if self.count == 0 && name != b"net".as_slice() {
            return Fault::NoNet;
        }
        let Some(kind) = Kind::of(name) else {
            return Fault::Kind;
        };
        if !command.takes(kind) {
            return Fault::NotHere;
        }
        Fault::Fields
    }

    // Why a text whose next row has this fault is not read.
    fn refused(&self, fault: Fault) -> TraceRefused
        requires { self.now.count < 4294967295 }
        ensures { result ≡ refused.Row (self.now.count + 1) fault }
    {
        TraceRefused::Row {
            row: self.count + 1,
            fault,
        }
    }

    // What is wrong with an ask that is the next row.
    #[inline(always)]
    #[tactic(auto, unfolding(crate::specs::Faults::read_row, crate::specs::Faults::read_kind))]
    fn judge_ask(&self, command: Command, ask: &PlainAsk) -> Option<Fault>
        requires { RowsAreKept self.now }
        ensures row { (before : List Row) (fields : Record) → StandsFor before self.now → IsAskRow ask.now fields → read_row command before fields ≡ row_unless (row.Ask ask.now.round ask.now.src ask.now.dst ask.now.slots) result }
        ensures allowed { IfNone result (IsAllowed self.now (taken.Ask ask.now.round ask.now.src ask.now.dst ask.now.slots)) }
    {
        if self.count == 0 {
            return Some(Fault::NoNet);
        }
        if !command.takes(Kind::Ask) {
            return Some(Fault::NotHere);
        }
        self.ask_fault(ask.round, ask.src, ask.dst, ask.slots)
    }

    // What is wrong with a row that could be read.
    fn fault_of(&self, row: &TakenRow) -> Option<Fault>
        requires stands { RowsAreKept self.now }
        requires whole { IsWholeRow row.now }
        requires first { IfNone self.now.net (is_net row.now ≡ true) }
        ensures fault { (before : List Row) → StandsFor before self.now → checked before (row_value row.now) ≡ row_unless (row_value row.now) result }
        ensures allowed { IfNone result (IsAllowed self.now row.now) }
    {
        match row {
            TakenRow::Net(net) => self.net_fault(net),
            TakenRow::Ask {
                round,
                src,
                dst,
                slots,
            } => self.ask_fault(*round, *src, *dst, *slots),
            TakenRow::Meets {
                round,
                endpoint,
                up,
                fate,
            } => self.fate_fault(*round, *endpoint, *up, *fate),
            TakenRow::Boot {
                round,
                endpoint,
                version,
            } => self.boot_fault(*round, *endpoint, *version),
            TakenRow::Raw { round, packet } => self.raw_fault(*round, packet),
            TakenRow::Put { endpoint, packet } => self.put_fault(*endpoint, packet),
            TakenRow::End { rounds } => self.end_fault(*rounds),
        }
    }

    #[tactic(auto, unfolding(crate::specs::Faults::checked))]
    fn net_fault(&self, net: &Net) -> Option<Fault>
        requires { IsNetwork net.now }
        ensures fault { (before : List Row) → StandsFor before self.now → checked before (row.Net net.now.racks net.now.hosts net.now.cores) ≡ row_unless (row.Net net.now.racks net.now.hosts net.now.cores) result }
        ensures allowed { IfNone result (IsAllowed self.now (taken.Net net.now)) }
    {
        if self.net.is_some() {
            return Some(Fault::Order);
        }
        None
    }

    #[inline(always)]
    #[tactic(auto, unfolding(crate::specs::Faults::checked))]
    fn ask_fault(&self, round: u32, src: u32, dst: u32, slots: u32) -> Option<Fault>
        requires { RowsAreKept self.now }
        ensures fault { (before : List Row) → StandsFor before self.now → checked before (row.Ask round src dst slots) ≡ row_unless (row.Ask round src dst slots) result }
        ensures allowed { IfNone result (IsAllowed self.now (taken.Ask round src dst slots)) }
    {
        if !self.is_ask(round, src, dst, slots) {
            return Some(Fault::Range);
        }
        if src == dst {
            return Some(Fault::SelfFlow);
        }
        if self.is_past(round) {
            return Some(Fault::Order);
        }
        if self.total(src, dst) + slots > MOST_ASKED {
            return Some(Fault::Sum);
        }
        None
    }

    #[tactic(auto, unfolding(crate::specs::Faults::checked))]
    fn fate_fault(&self, round: u32, endpoint: u32, up: bool, fate: Fate) -> Option<Fault>
        requires stands { RowsAreKept self.now }
        requires fate { is_fate fate ≡ true }
        ensures fault { (before : List Row) → StandsFor before self.now → checked before (row.Meets round endpoint up fate) ≡ row_unless (row.Meets round endpoint up fate) result }
        ensures allowed { IfNone result (IsAllowed self.now (taken.Meets round endpoint up fate)) }
    {
        if round > LAST_ROUND || endpoint >= self.endpoints() {
            return Some(Fault::Range);
        }
        if self.is_past(round) {
            return Some(Fault::Order);
        }
        if self.has_fate(round, endpoint, up) {
            return Some(Fault::TwoFates);
        }
        None
    }

    #[tactic(auto, unfolding(crate::specs::Faults::checked))]
    fn boot_fault(&self, round: u32, endpoint: u32, version: u8) -> Option<Fault>
        requires stands { RowsAreKept self.now }
        requires version { is_between 1 2 version ≡ true }
        ensures fault { (before : List Row) → StandsFor before self.now → checked before (row.Boot round endpoint version) ≡ row_unless (row.Boot round endpoint version) result }
        ensures allowed { IfNone result (IsAllowed self.now (taken.Boot round endpoint version)) }
    {
        if round > LAST_ROUND || endpoint >= self.endpoints() {
            return Some(Fault::Range);
        }
        if self.is_past(round) {
            return Some(Fault::Order);
        }
        None
    }

    #[tactic(auto, unfolding(crate::specs::Faults::checked))]
    fn raw_fault(&self, round: u32, packet: &[u8]) -> Option<Fault>
        requires net { IsSome self.now.net }
        requires packet { IsPacket packet.now }
        ensures fault { (before : List Row) → StandsFor before self.now → checked before (row.Raw round (bytes_of packet.now)) ≡ row_unless (row.Raw round (bytes_of packet.now)) result }
        ensures allowed { IfNone result (IsAllowed self.now (taken.Raw round packet.entry)) }
    {
        if round > LAST_ROUND {
            return Some(Fault::Range);
        }
        if self.is_past(round) {
            return Some(Fault::Order);
        }
        None
    }

    #[tactic(auto, unfolding(crate::specs::Faults::checked))]
    fn put_fault(&self, endpoint: u32, packet: &[u8]) -> Option<Fault>
        requires stands { RowsAreKept self.now }
        requires packet { IsPacket packet.now }
        ensures fault { (before : List Row) → StandsFor before self.now → checked before (row.Put endpoint (bytes_of packet.now)) ≡ row_unless (row.Put endpoint (bytes_of packet.now)) result }
        ensures allowed { IfNone result (IsAllowed self.now (taken.Put endpoint packet.entry)) }
    {
        if endpoint >= self.endpoints() {
            return Some(Fault::Range);
        }
        if self.end.is_some() {
            return Some(Fault::Order);
        }
        if self.put_count(endpoint) >= MOST_PUT {
            return Some(Fault::Sum);
        }
        None
    }

    #[tactic(auto, unfolding(crate::specs::Faults::checked))]
    fn end_fault(&self, rounds: u32) -> Option<Fault>
        requires { IsSome self.now.net }
        ensures allowed { IfNone result (IsAllowed self.now (taken.End rounds)) }
        ensures fault { (before : List Row) → StandsFor before self.now → checked before (row.End rounds) ≡ row_unless (row.End rounds) result }
    {
        if !(1..=MOST_ROUNDS).contains(&rounds) {
            return Some(Fault::Range);
        }
        if self.end.is_some() || rounds <= self.round {
            return Some(Fault::Order);
        }
        None
    }

    // Keeps a row without fault.
    fn push(&mut self, row: TakenRow) -> Result<(), NoMemory>
        requires stands { RowsAreKept self.old }
        requires allowed { IsAllowed self.old row }
        requires room { self.old.count < 4294967295 }
        ensures { (before : List Row) → StandsFor before self.old → OnOk result (StandsFor (before ++ row_value row.entry ∷ []) self.new) }
    {
        match row {
            TakenRow::Net(net) => self.push_net(net),
            TakenRow::Ask {
                round,
                src,
                dst,
                slots,
            } => self.push_ask(round, src, dst, slots),
            TakenRow::Meets {
                round,
                endpoint,
                up,
                fate,
            } => self.push_fate(round, endpoint, up, fate),
            TakenRow::Boot {
                round,
                endpoint,
                version,
            } => self.push_boot(round, endpoint, version),
            TakenRow::Raw { round, packet } => self.push_raw(round, packet),
            TakenRow::Put { endpoint, packet } => self.push_put(endpoint, packet),
            TakenRow::End { rounds } => {
                self.end = Some(rounds);
                self.count += 1;
                Ok(())
            }
        }
    }

    fn push_net(&mut self, net: Net) -> Result<(), NoMemory>
        requires { IsAllowed self.old (taken.Net net) }
        ensures { (before : List Row) → StandsFor before self.old → OnOk result (StandsFor (before ++ row.Net net.racks net.hosts net.cores ∷ []) self.new) }
    {
        let endpoints = usize::from(net.endpoints());
        self.totals = vec![in self.alloc; 0; endpoints * endpoints]?;
        self.fated = vec![in self.alloc; 0; endpoints * 2]?;
        self.puts.open(self.alloc, net.endpoints())?;
        self.endpoints = u32::from(net.endpoints());
        self.net = Some(net);
        self.count = 1;
        Ok(())
    }

    #[inline(always)]
    fn push_ask(&mut self, round: u32, src: u32, dst: u32, slots: u32) -> Result<(), NoMemory>
        requires stands { RowsAreKept self.old }
        requires allowed { IsAllowed self.old (taken.Ask round src dst slots) }
        requires room { self.old.count < 4294967295 }
        ensures { (before : List Row) → StandsFor before self.old → OnOk result (StandsFor (before ++ row.Ask round src dst slots ∷ []) self.new) }
    {
        self.turn_to(round)?;
        self.add_ask(round, src, dst, slots);
        Ok(())
    }

    // Goes on with asks of this round.
    #[inline(always)]
    fn turn_to(&mut self, round: u32) -> Result<(), NoMemory>
        requires { RowsAreKept self.old }
        ensures stands { (before : List Row) → StandsFor before self.old → OnOk result (StandsFor before self.new) }
        ensures same { OnOk result ((self.new.net ≡ self.old.net) × (self.new.round ≡ self.old.round) × (self.new.count ≡ self.old.count) × (self.new.totals.items ≡ self.old.totals.items)) }
        ensures turned { OnOk result (self.new.sums.round ≡ round) }
    {
        self.sums.turn_to(round, &mut self.asks)?;
        Ok(())
    }

    // Keeps an ask of the round of the latest asks.
    #[inline(always)]
    fn add_ask(&mut self, round: u32, src: u32, dst: u32, slots: u32)
        requires stands { RowsAreKept self.old }
        requires allowed { IsAllowed self.old (taken.Ask round src dst slots) }
        requires room { self.old.count < 4294967295 }
        requires turned { self.old.sums.round ≡ round }
        ensures rows { (before : List Row) → StandsFor before self.old → StandsFor (before ++ row.Ask round src dst slots ∷ []) self.new }
        ensures within { (command : Command) → AwaitsAsks command round self.old → AwaitsAsks command round self.new }
        ensures count { self.new.count ≡ self.old.count + 1 }
    {
        let at = self.place_of(src, dst);
        self.totals[at] += slots;
        self.sums.add(&Ask {
            round,
            src: src as u16,
            dst: dst as u16,
            slots,
        });
        self.round = round;
        self.count += 1;
    }

    fn push_fate(&mut self, round: u32, endpoint: u32, up: bool, fate: Fate) -> Result<(), NoMemory>
        requires stands { RowsAreKept self.old }
        requires allowed { IsAllowed self.old (taken.Meets round endpoint up fate) }
        requires room { self.old.count < 4294967295 }
        ensures { (before : List Row) → StandsFor before self.old → OnOk result (StandsFor (before ++ row.Meets round endpoint up fate ∷ []) self.new) }
    {
        let at = self.way_of(endpoint, up);
        self.events.fates.push(GivenFate {
            round,
            endpoint: endpoint as u16,
            up,
            fate,
        })?;
        self.fated[at] = round + 1;
        self.round = round;
        self.count += 1;
        Ok(())
    }

    fn push_boot(&mut self, round: u32, endpoint: u32, version: u8) -> Result<(), NoMemory>
        requires stands { RowsAreKept self.old }
        requires allowed { IsAllowed self.old (taken.Boot round endpoint version) }
        requires room { self.old.count < 4294967295 }
        ensures { (before : List Row) → StandsFor before self.old → OnOk result (StandsFor (before ++ row.Boot round endpoint version ∷ []) self.new) }
    {
        self.events.boots.push(Boot {
            round,
            endpoint: endpoint as u16,
            version,
        })?;
        self.round = round;
        self.count += 1;
        Ok(())
    }

    fn push_raw(&mut self, round: u32, packet: &[u8]) -> Result<(), NoMemory>
        requires stands { RowsAreKept self.old }
        requires allowed { IsAllowed self.old (taken.Raw round packet) }
        requires room { self.old.count < 4294967295 }
        ensures { (before : List Row) → StandsFor before self.old → OnOk result (StandsFor (before ++ row.Raw round (bytes_of packet.now) ∷ []) self.new) }
    {
        self.events.push_raw(round, packet)?;
        self.round = round;
        self.count += 1;
        Ok(())
    }

    fn push_put(&mut self, endpoint: u32, packet: &[u8]) -> Result<(), NoMemory>
        requires stands { RowsAreKept self.old }
        requires allowed { IsAllowed self.old (taken.Put endpoint packet) }
        requires room { self.old.count < 4294967295 }
        ensures { (before : List Row) → StandsFor before self.old → OnOk result (StandsFor (before ++ row.Put endpoint (bytes_of packet.now) ∷ []) self.new) }
    {
        self.puts.push(endpoint, packet)?;
        self.count += 1;
        Ok(())
    }

    fn is_ask(&self, round: u32, src: u32, dst: u32, slots: u32) -> bool
        requires { RowsAreKept self.now }
        ensures { result ≡ is_in_range (endpoints_kept self.now.net) (row.Ask round src dst slots) }
    {
        let endpoints = self.endpoints();
        round <= LAST_ROUND
            && src < endpoints
            && dst < endpoints
            && 1 <= slots
            && slots <= MOST_ASKED
    }

    // Whether a row that names this round comes too late.
    fn is_past(&self, round: u32) -> bool
        ensures { result ≡ (is_some self.now.end || nat_lt round self.now.round) }
    {
        self.end.is_some() || round < self.round
    }

    // What the flow asked for so far.
    fn total(&self, src: u32, dst: u32) -> u32
        requires stands { RowsAreKept self.now }
        requires src { src < endpoints_kept self.now.net }
        requires dst { dst < endpoints_kept self.now.net }
        ensures value { result ≡ slice_index self.now.totals.items (src * endpoints_kept self.now.net + dst) }
        ensures bounded { result ≤ 100000000 }
    {
        self.totals[self.place_of(src, dst)]
    }

    // How many packets the endpoint put so far.
    fn put_count(&self, endpoint: u32) -> u16
        requires stands { RowsAreKept self.now }
        requires endpoint { endpoint < endpoints_kept self.now.net }
        ensures count { result ≡ slice_index self.now.puts.counts.items endpoint }
        ensures rows { (before : List Row) → StandsFor before self.now → result ≡ length (filter_map (put_in endpoint) before) }
    {
        self.puts.count(endpoint)
    }

    // Whether an earlier row gave a fate to the packet of this round, endpoint and way.
    fn has_fate(&self, round: u32, endpoint: u32, up: bool) -> bool
        requires stands { RowsAreKept self.now }
        requires endpoint { endpoint < endpoints_kept self.now.net }
        requires round { round ≤ 99999 }
        requires late { self.now.round ≤ round }
        ensures { (before : List Row) → StandsFor before self.now → result ≡ list_any (λ row. is_some (fate_in round endpoint up row)) before }
    {
        self.fated[self.way_of(endpoint, up)] == round + 1
    }

    // Where a way of an endpoint stands.
    fn way_of(&self, endpoint: u32, up: bool) -> usize
        requires stands { RowsAreKept self.now }
        requires endpoint { endpoint < endpoints_kept self.now.net }
        ensures place { result ≡ endpoint * 2 + way_number up }
        ensures within { result < length self.now.fated.items }
    {
        endpoint as usize * 2 + usize::from(up)
    }

    // Where the total of a flow stands.
    fn place_of(&self, src: u32, dst: u32) -> usize
        requires stands { RowsAreKept self.now }
        requires src { src < endpoints_kept self.now.net }
        requires dst { dst < endpoints_kept self.now.net }
        ensures place { result ≡ src * endpoints_kept self.now.net + dst }
        ensures within { result < length self.now.totals.items }
    {
        src as usize * self.endpoints() as usize + dst as usize
    }

    // How many endpoints the net has, where there is one.
    fn endpoints(&self) -> u32
        requires { RowsAreKept self.now }
        ensures number { result ≡ endpoints_kept self.now.net }
        ensures few { result ≤ 256 }
    {
        self.endpoints
    }
}
