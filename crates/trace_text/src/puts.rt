// The packets that endpoints put.
ghost use Rattle.std.specs.Prelude.{◌≡◌, ◌<◌, ◌≤◌, ◌+◌, ◌^◌, ◌++◌, ◌∷◌, [], ℕ, true, Some, length, slice_get, slice_index, slice_index_or, IfOk, OnOk};
ghost use Rattle.std.specs.List.{slice_set};
ghost use Rattle.trace_text.specs.Events.{packet_from};
ghost use Rattle.trace_text.specs.Fields.{is_hex, bytes_of};
ghost use Rattle.trace_text.specs.Puts.{AreFew, puts_in};
ghost use Rattle.trace_text.specs.Trace.{each_below};

use crate::order::{sort, starts_of};
use crate::packets::{KeptPacket, packet_of, packets_of, push_packet};
use no_memory::NoMemory;
use std::alloc::{AllocError, Global};
use std::marker::Model;

/// The packets of the rows so far, in the order of rows.
#[derive(Drop)]
pub struct PutRows {
    // Each under its endpoint.
    pub packets: Vec<KeptPacket>,
    // The bytes of all.
    pub bytes: Vec<u8>,
    // How many each endpoint put.
    pub counts: Vec<u16>,
}

impl PutRows {
    pub fn new(alloc: Global) -> PutRows
        ensures packets { result.packets.items ≡ [] }
        ensures bytes { result.bytes.items ≡ [] }
        ensures counts { result.counts.items ≡ [] }
    {
        PutRows {
            packets: Vec::new(alloc),
            bytes: Vec::new(alloc),
            counts: Vec::new(alloc),
        }
    }

    /// Counts for so many endpoints, none of which put a packet yet.
    pub fn open(&mut self, alloc: Global, endpoints: u16) -> Result<(), AllocError>
        ensures packets { self.new.packets ≡ self.old.packets }
        ensures bytes { self.new.bytes ≡ self.old.bytes }
        ensures many { OnOk result (length self.new.counts.items ≡ endpoints) }
        ensures none { OnOk result ((endpoint : ℕ) → slice_index self.new.counts.items endpoint ≡ 0) }
    {
        self.counts = vec![in alloc; 0; usize::from(endpoints)]?;
        Ok(())
    }

    /// How many packets the endpoint put.
    pub fn count(&self, endpoint: u32) -> u16
        requires { endpoint < length self.now.counts.items }
        ensures { result ≡ slice_index self.now.counts.items endpoint }
    {
        self.counts[endpoint as usize]
    }

    /// One packet more of the endpoint, in hexadecimal.
    pub fn push(&mut self, endpoint: u32, packet: &[u8]) -> Result<(), NoMemory>
        requires hex { is_hex packet.now ≡ true }
        requires short { length packet.now ≤ 4096 }
        requires room { length self.old.bytes.items < 2 ^ 48 }
        requires endpoint { endpoint < length self.old.counts.items }
        requires few { slice_index self.old.counts.items endpoint < 1024 }
        ensures packets { OnOk result (self.new.packets.items ≡ self.old.packets.items ++ packet_from endpoint (length self.old.bytes.items) (length (bytes_of packet.now)) ∷ []) }
        ensures bytes { OnOk result (self.new.bytes.items ≡ self.old.bytes.items ++ bytes_of packet.now) }
        ensures counts { OnOk result (self.new.counts.items ≡ slice_set self.old.counts.items endpoint (slice_index self.old.counts.items endpoint + 1)) }
    {
        push_packet(&mut self.packets, &mut self.bytes, endpoint, packet)?;
        self.counts[endpoint as usize] += 1;
        Ok(())
    }
}

/// The packets of each endpoint, those of one in the order of rows.
#[derive(Drop)]
pub struct Puts {
    endpoints: u16,
    // By endpoint.
    packets: Vec<KeptPacket>,
    // Where those of each endpoint begin, and where the last end; empty where there are none.
    starts: Vec<usize>,
    // The bytes of all.
    bytes: Vec<u8>,
}

impl Model for Puts {
    ghost use Rattle.std.specs.Prelude.{◌≡◌, ◌+◌, ◌≤◌, ℕ, List, length, All};
    ghost use Rattle.std.specs.List.Sorted.{IsNonDecreasingBy};
    ghost use Rattle.trace_text.specs.Events.{IsWithin, packet_rank};
    ghost use Rattle.trace_text.specs.Puts.{puts_kept};
    ghost use Rattle.trace_text.specs.Ranks.{AreStarts};
    ghost use Rattle.trace_text.specs.Trace.{each_below};

    ghost Value = { List (List (List ℕ)) };

    ghost view = { λ p. each_below p.endpoints (puts_kept p.packets.items p.bytes.items) };

    ghost invariant = { λ p.
        IsNonDecreasingBy packet_rank p.packets.items
        × AreStarts packet_rank 1 p.endpoints p.packets.items p.starts.items
        × All (IsWithin (length p.bytes.items)) p.packets.items };
}

impl Puts {
    /// The packets of so many endpoints.
    pub fn of(alloc: Global, endpoints: u16, rows: PutRows) -> Result<Puts, NoMemory>
        requires { AreFew rows }
        ensures { IfOk result (λ puts. puts ≡ each_below endpoints (puts_in rows)) }
    {
        let PutRows {
            mut packets,
            bytes,
            ..
        } = rows;
        sort(&mut packets)?;
        let starts = starts_of(alloc, u32::from(endpoints), 1, &packets)?;
        Ok(Puts {
            endpoints,
            packets,
            starts,
            bytes,
        })
    }

    /// How many packets the endpoint put.
    pub fn count(&self, endpoint: u16) -> usize
        requires { endpoint < length self.now }
        ensures { result ≡ length (slice_index_or self.now endpoint []) }
    {
        packets_of(&self.packets, &self.starts, u32::from(endpoint)).len()
    }

    /// One of these packets, counted from 0 in the order of rows.
    pub fn packet(&self, endpoint: u16, at: usize) -> &[u8]
        requires endpoint { endpoint < length self.now }
        requires at { at < length (slice_index_or self.now endpoint []) }
        ensures { slice_get (slice_index_or self.now endpoint []) at ≡ Some result.now }
    {
        packet_of(
            &self.bytes,
            &packets_of(&self.packets, &self.starts, u32::from(endpoint))[at],
        )
    }
}
