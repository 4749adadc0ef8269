ghost use Rattle.std.specs.Prelude.{◌≡◌, ◌+◌, ◌*◌, ◌<◌, ◌≤◌, ◌==◌, ◌&&◌, ◌||◌, not, nat_le, nat_lt, is_some, true, List, [], ◌∷◌, ◌++◌, length, slice_index, ◌^◌, ℕ, if◌then◌else◌, IfNone, IfOk, OnOk};
ghost use Rattle.csv.specs.Records.{fields_of};
ghost use Rattle.script_text.specs.Rows.{event_of};
ghost use Rattle.script_text.specs.Faults.{is_row_in_range, asks_for_itself, is_pair, checked_script_row, read_script_row};
ghost use Rattle.script_text.specs.Earlier.{pair_in, is_end, script_row_slots};
ghost use Rattle.trace_text.specs.Faults.{is_between};
ghost use Rattle.script_text.specs.Standing.{ScriptStandsFor, RowsStand, has_order_fault, has_sum_fault, script_row_unless, as_script_row, pair_kept, AddsRow, IsAllowedRow, TakesScriptRow};
ghost use Rattle.script_text.specs.declared.row.Row.{Row as RowType};
ghost use Rattle.trace_text.specs.declared.fault.TraceRefused.TheVariants as refused;

use crate::kind::Kind;
use crate::row::Row;
use csv::ByteRecord;
use no_memory::NoMemory;
use std::alloc::Global;
use takeover_core::Event;
use trace_text::{Fault, TraceRefused, field};

const MOST_ENDPOINTS: usize = 64;

const MOST_EVENTS: usize = 10_000;

const MOST_ASKED: u32 = 100_000_000;

/// What the rows so far say together.
#[derive(Drop)]
pub(crate) struct Rows {
    pub count: u32,
    pub endpoints: u16,
    pub b: u8,
    pub span: u16,
    pub ended: bool,
    pub events: Vec<Event>,
    /// What each flow asked for, by source and then destination.
    pub totals: Vec<u32>,
}

impl Rows {
    pub(crate) fn open(alloc: Global) -> Result<Rows, NoMemory>
        ensures { IfOk result (ScriptStandsFor []) }
    {
        Ok(Rows {
            count: 0,
            endpoints: 0,
            b: 0,
            span: 0,
            ended: false,
            events: Vec::new(alloc),
            totals: zeros(alloc, MOST_ENDPOINTS * MOST_ENDPOINTS)?,
        })
    }

    /// Takes the next row, or tells its number and fault.
    pub(crate) fn take(&mut self, fields: &ByteRecord) -> Result<(), TraceRefused>
        requires { RowsStand self.old }
        ensures { (before : List RowType) → ScriptStandsFor before self.old → TakesScriptRow before (fields_of fields.now) self.new result }
    {
        match self.judge(fields) {
            Ok(row) => Ok(self.push(row)?),
            Err(fault) => Err(TraceRefused::Row {
                row: self.count + 1,
                fault,
            }),
        }
    }

    /// The row with these fields, or its fault.
    #[tactic(auto, unfolding(crate::specs::Faults::read_script_row, crate::specs::Faults::read_script_kind))]
    fn judge(&self, fields: &ByteRecord) -> Result<Row, Fault>
        requires { RowsStand self.now }
        ensures row { (before : List RowType) → ScriptStandsFor before self.now → read_script_row before (fields_of fields.now) ≡ as_script_row result }
        ensures allowed { IfOk result (IsAllowedRow self.now) }
    {
        let name = field(fields, 0);
        if self.count == 0 && name != b"pair".as_slice() {
            return Err(Fault::NoNet);
        }
        let Some(kind) = Kind::of(name) else {
            return Err(Fault::Kind);
        };
        if fields.len() != kind.fields() {
            return Err(Fault::Fields);
        }
        let Some(row) = Row::of(kind, fields) else {
            return Err(Fault::Number);
        };
        match self.fault_of(row) {
            Some(fault) => Err(fault),
            None => Ok(row),
        }
    }

    /// What is wrong with a row that could be read.
    #[tactic(auto, unfolding(crate::specs::Faults::checked_script_row))]
    fn fault_of(&self, row: Row) -> Option<Fault>
        requires { RowsStand self.now }
        ensures fault { (before : List RowType) → ScriptStandsFor before self.now → checked_script_row before row ≡ script_row_unless row result }
        ensures allowed { IfNone result (IsAllowedRow self.now row) }
    {
        if !is_in_range(self.endpoints, row) {
            return Some(Fault::Range);
        }
        if is_self_flow(row) {
            return Some(Fault::SelfFlow);
        }
        if self.is_out_of_order(row) {
            return Some(Fault::Order);
        }
        if self.asks_too_much(row) {
            return Some(Fault::Sum);
        }
        None
    }

    /// Whether the row is a pair after the first row, stands after the end, or is one event too many.
    fn is_out_of_order(&self, row: Row) -> bool
        ensures { result ≡ has_order_fault self.now row }
    {
        is_pair(row) && self.count != 0
            || self.ended
            || is_event(row) && self.events.len() >= MOST_EVENTS
    }

    /// Whether the asks of the row's flow are too much together.
    fn asks_too_much(&self, row: Row) -> bool
        requires range { is_row_in_range self.now.endpoints row ≡ true }
        requires few { self.now.endpoints ≤ 64 }
        requires totals { length self.now.totals.items ≡ 4096 }
        ensures { result ≡ has_sum_fault self.now row }
    {
        match row {
            Row::Ask { src, dst, slots } => {
                let total = self.totals[src as usize * MOST_ENDPOINTS + dst as usize];
                u64::from(total) + u64::from(slots) > u64::from(MOST_ASKED)
            }
            _ => false,
        }
    }

    /// Takes a row without fault.
    fn push(&mut self, row: Row) -> Result<(), NoMemory>
        requires allowed { IsAllowedRow self.old row }
        requires room { self.old.count + 1 < 4294967296 }
        ensures { OnOk result (AddsRow self.old self.new row) }
    {
        self.note(row);
        self.count += 1;
        if let Some(event) = event_of(self.endpoints, row) {
            self.events.push(event)?;
        }
        Ok(())
    }

    /// Notes the pair, the end and the asks of a row.
    fn note(&mut self, row: Row)
        requires allowed { IsAllowedRow self.old row }
        ensures pair { pair_kept self.new ≡ (if is_pair row then pair_in row else pair_kept self.old) }
        ensures ended { self.new.ended ≡ (self.old.ended || is_end row) }
        ensures totals { (s d : ℕ) → s < 64 → d < 64 → slice_index self.new.totals.items (s * 64 + d) ≡ slice_index self.old.totals.items (s * 64 + d) + script_row_slots s d row }
        ensures many { length self.new.totals.items ≡ 4096 }
        ensures count { self.new.count ≡ self.old.count }
        ensures events { self.new.events.items ≡ self.old.events.items }
        ensures range { is_row_in_range self.new.endpoints row ≡ true }
        ensures few { self.new.endpoints ≤ 64 }
    {
        match row {
            Row::Pair { endpoints, b, span } => {
                self.endpoints = endpoints as u16;
                self.b = b as u8;
                self.span = span as u16;
            }
            Row::Ask { src, dst, slots } => add(&mut self.totals, src, dst, slots),
            Row::End => self.ended = true,
            _ => {}
        }
    }
}

/// So many zeros.
fn zeros(alloc: Global, count: usize) -> Result<Vec<u32>, NoMemory>
    ensures many { IfOk result (λ zeros. length zeros.items ≡ count) }
    ensures zero { IfOk result (λ zeros. (place : ℕ) → slice_index zeros.items place ≡ 0) }
{
    Ok(vec![in alloc; 0; count]?)
}

/// Adds the asks of a flow.
fn add(totals: &mut [u32], src: u32, dst: u32, slots: u32)
    requires src { src < 64 }
    requires dst { dst < 64 }
    requires many { length totals.old ≡ 4096 }
    requires fits { slice_index totals.old (src * 64 + dst) + slots < 2 ^ 32 }
    ensures { (s d : ℕ) → s < 64 → d < 64 → slice_index totals.new (s * 64 + d) ≡ slice_index totals.old (s * 64 + d) + (if (src == s) && (dst == d) then slots else 0) }
{
    totals[src as usize * MOST_ENDPOINTS + dst as usize] += slots;
}

/// The event that a row tells, if it does.
fn event_of(endpoints: u16, row: Row) -> Option<Event>
    requires range { is_row_in_range endpoints row ≡ true }
    requires few { endpoints ≤ 64 }
    ensures { result ≡ event_of row }
{
    match row {
        Row::Pair { .. } | Row::End => None,
        Row::Ask { src, dst, slots } => Some(Event::Ask {
            src: src as u16,
            dst: dst as u16,
            slots,
        }),
        Row::Request { node } => Some(Event::Request { node: node as u16 }),
        Row::Grant { m } => Some(Event::Grant { m }),
        Row::Take { node, m } => Some(Event::Take {
            node: node as u16,
            m,
        }),
        Row::Tell { src, node } => Some(Event::Tell {
            src: src as u16,
            node: node as u16,
        }),
        Row::Publish { node } => Some(Event::Publish { node: node as u16 }),
        Row::Hear { src, batch } => Some(Event::Hear {
            src: src as u16,
            batch,
        }),
        Row::Crash { node } => Some(Event::Crash { node: node as u16 }),
    }
}

/// Whether each number is in its range, at so many endpoints.
fn is_in_range(endpoints: u16, row: Row) -> bool
    ensures { result ≡ is_row_in_range endpoints row }
{
    let endpoints = u32::from(endpoints);
    match row {
        Row::Pair { endpoints, b, span } => is_between(2, 64, endpoints)
            && is_between(1, 64, b)
            && is_between(1, 100, span),
        Row::Ask { src, dst, slots } => src < endpoints
            && dst < endpoints
            && is_between(1, MOST_ASKED, slots),
        Row::Grant { .. } | Row::End => true,
        Row::Request { node }
        | Row::Take { node, .. }
        | Row::Publish { node }
        | Row::Crash { node } => node <= 1,
        Row::Tell { src, node } => src < endpoints && node <= 1,
        Row::Hear { src, .. } => src < endpoints,
    }
}

fn is_between(low: u32, high: u32, n: u32) -> bool
    ensures { result ≡ is_between low high n }
{
    low <= n && n <= high
}

/// Whether an endpoint asks for itself.
fn is_self_flow(row: Row) -> bool
    ensures { result ≡ asks_for_itself row }
{
    match row {
        Row::Ask { src, dst, .. } => src == dst,
        _ => false,
    }
}

fn is_pair(row: Row) -> bool
    ensures { result ≡ is_pair row }
{
    matches!(row, Row::Pair { .. })
}

/// Whether the row tells an event.
fn is_event(row: Row) -> bool
    ensures { result ≡ is_some (event_of row) }
{
    !matches!(row, Row::Pair { .. } | Row::End)
}
